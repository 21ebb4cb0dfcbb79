//! The status bytes of a message, by Lee's QWK Mail Packet File Layout of 1992.
ghost use Rattle.std.specs.Prelude.{◌≡◌};
ghost use Rattle.qwk_blocks.specs.Status.{private_status, comment_status, password_status};

/// Whether the status is a private message's.
pub(crate) fn is_private(status: u8) -> bool
    ensures { result ≡ private_status status }
{
    matches!(status, b'+' | b'*')
}

/// Whether the status is that of a comment, a message to the sysop.
pub(crate) fn is_comment(status: u8) -> bool
    ensures { result ≡ comment_status status }
{
    matches!(status, b'~' | b'`')
}

/// Whether the status asks for a password.
pub(crate) fn is_password(status: u8) -> bool
    ensures { result ≡ password_status status }
{
    matches!(status, b'%' | b'^' | b'!' | b'#' | b'$')
}
