use jam_records::Bytes;

/// The four files of a conference (JAM message base proposal, revision 1).
#[derive(Debug, Drop)]
pub struct BaseFiles {
    /// The header of the base, and the headers of its messages.
    pub jhr: Bytes,
    /// The bodies.
    pub jdt: Bytes,
    /// The index: a record for each message number.
    pub jdx: Bytes,
    /// How far each reader has read.
    pub jlr: Bytes,
}
