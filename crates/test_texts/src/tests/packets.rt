//! The packet that the examples share, of which each changes what it is about.
use byte_lists::{Bytes, Lines};
use qwk_blocks::{Header, QwkMessage};
use qwk_control::{Control, Listed};
use std::alloc::{AllocError, Global};

/// A control file without texts and conferences.
pub fn control(alloc: Global) -> Control {
    Control {
        board: Bytes::new(alloc),
        city: Bytes::new(alloc),
        phone: Bytes::new(alloc),
        sysop: Bytes::new(alloc),
        serial: Bytes::new(alloc),
        bbsid: Bytes::new(alloc),
        stamp: Bytes::new(alloc),
        user: Bytes::new(alloc),
        menu: Bytes::new(alloc),
        count: 0,
        conferences: Listed::new(alloc),
        welcome: Bytes::new(alloc),
        news: Bytes::new(alloc),
        goodbye: Bytes::new(alloc),
    }
}

/// Says what the packet of a user says of a board.
pub fn name(control: &mut Control, board: &[u8], user: &[u8]) -> Result<(), AllocError> {
    control.board.add(board)?;
    control.bbsid.add(b"TESTBBS")?;
    control.user.add(user)
}

/// A message of this status, without names, a subject, a number, a reference and lines.
pub fn message(alloc: Global, status: u8) -> QwkMessage {
    QwkMessage {
        header: Header {
            status,
            number: None,
            date: *b"09-09-01",
            time: *b"01:46",
            to: Bytes::new(alloc),
            from: Bytes::new(alloc),
            subject: Bytes::new(alloc),
            password: Bytes::new(alloc),
            reference: None,
            activity: 0xE1,
            conference: 263,
            logical: 1,
            tag: b' ',
        },
        lines: Lines::new(alloc),
    }
}

/// Sends a message from a name to all.
pub fn send(message: &mut QwkMessage, from: &[u8]) -> Result<(), AllocError> {
    message.header.to.add(b"ALL")?;
    message.header.from.add(from)
}
