/// What each header begins with.
pub(crate) const SIGNATURE: [u8; 4] = *b"JAM\0";
