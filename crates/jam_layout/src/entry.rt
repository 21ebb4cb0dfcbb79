use jam_records::Message;
use jam_threads::Link;

/// A message with what its header says beside it.
#[derive(Debug, Drop)]
pub struct HeaderEntry {
    /// The message number.
    pub number: u32,
    /// The length of the body in bytes.
    pub text_len: u32,
    /// The links.
    pub link: Link,
    /// The message, without its body.
    pub message: Message,
}

/// What the headers before a header say of it.
#[derive(Debug, Clone, Copy)]
pub struct Front {
    /// The record of the header, from 1.
    pub item: u32,
    /// The number of the message before, or 0.
    pub last: u32,
    /// The lengths of all bodies before, in bytes.
    pub offset: u32,
}
