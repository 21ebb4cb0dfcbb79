use byte_lists::Bytes;
use jam_records::Kind;
use setup_file::Zones;

/// What the rules see of a board, for one message of one user.
#[derive(Debug, Drop)]
pub struct View {
    /// The user's name, as enrolled.
    pub user: Bytes,
    /// Whether the user may write net mail.
    pub net: bool,
    /// Whether the user is the sysop.
    pub is_sysop: bool,
    /// The sysop's name.
    pub sysop: Bytes,
    /// The zones of the board.
    pub zones: Zones,
    /// The conference of the message's number, where there is one.
    pub conference: Option<ConferenceView>,
    /// The msgid of the message that this one refers to, where that is a live message of the conference
    /// that the user may see; else nothing.
    pub reply: Bytes,
    /// How many bytes are free in the data files, behind the upload record.
    pub room: u64,
}

/// What the rules see of a conference.
#[derive(Debug, Clone, Copy)]
pub struct ConferenceView {
    /// Its number, 0 to 65,535.
    pub number: u16,
    /// Where its messages go.
    pub kind: Kind,
    /// Whether callers may only read.
    pub readonly: bool,
    /// Whether private messages are allowed.
    pub private: bool,
    /// Whether the user is a member.
    pub member: bool,
    /// How many slots it has, 0 to 9,999.
    pub slots: u32,
    /// The length of the msgid that the message will get, in bytes.
    pub msgid_len: u32,
}
