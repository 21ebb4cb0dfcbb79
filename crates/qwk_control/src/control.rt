use byte_lists::{Bytes, List};

/// The conferences of a packet, each with its number, 0 to 65,535, and its name, a line without its end.
pub type Listed = List<(u16, Bytes)>;

/// What CONTROL.DAT says, by Lee's QWK Mail Packet File Layout of 1992. The texts are lines without their
/// ends, and may be empty but for the board id.
#[derive(Debug, Drop)]
pub struct Control {
    /// The board's name (line 1).
    pub board: Bytes,
    /// Its city (line 2).
    pub city: Bytes,
    /// Its phone number (line 3).
    pub phone: Bytes,
    /// The sysop's name (line 4).
    pub sysop: Bytes,
    /// The board's serial number, as text without a comma (line 5, before the first comma).
    pub serial: Bytes,
    /// The board id, 1 to 8 bytes from 21h to 7Eh (line 5, after the first comma).
    pub bbsid: Bytes,
    /// When the packet was made, as `mm-dd-yyyy,hh:mm:ss` (line 6).
    pub stamp: Bytes,
    /// The user's name (line 7).
    pub user: Bytes,
    /// The name of the menu file (line 8).
    pub menu: Bytes,
    /// How many messages the packet has, at most 999,999,999 (line 10). A line that is no number of at most 9
    /// digits reads as 0.
    pub count: u32,
    /// The conferences, 1 to 65,536 (from line 12 on, two lines each; line 11 has one less than their count).
    pub conferences: Listed,
    /// The name of the welcome file (behind the conferences), empty where the line is missing.
    pub welcome: Bytes,
    /// The name of the news file (the line after it), likewise.
    pub news: Bytes,
    /// The name of the log-off file (the line after that), likewise.
    pub goodbye: Bytes,
}
