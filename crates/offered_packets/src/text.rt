//! The files of a packet, written.
ghost use Rattle.std.specs.Prelude.{◌≡◌, ◌≤◌, ◌<◌, ◌^◌, length, option_map, Some, All, IfOk, IsSome};
ghost use Rattle.qwk_blocks.specs.Written.{spelling, Writable};
ghost use Rattle.qwk_control.specs.Written.{control_text as text_of_control};
ghost use Rattle.offered_packets.specs.Control.{control};
ghost use Rattle.board_layout.specs.Lookups.{user_of};
ghost use Rattle.offered_packets.specs.Shown.{notice as notice_of};

use crate::control::control_of;
use board_layout::StoredBoard;
use byte_lists::Bytes;
use qwk_blocks::{QwkMessages, write_messages};
use qwk_control::write_control;
use std::alloc::{AllocError, Global};
use text_fields::add_decimal;

/// The notice of the packet of a number.
#[tactic(auto, unfolding(crate::specs::Shown::notice))]
fn notice(alloc: Global, number: u32) -> Result<Bytes, AllocError>
    ensures text { IfOk result (λ text. text ≡ notice_of number) }
    ensures short { IfOk result (λ text. length text ≤ 128) }
{
    let mut text = Bytes::from_slice(alloc, b"Produced by qwkdoor, packet ")?;
    add_decimal(&mut text, u64::from(number))?;
    Ok(text)
}

/// The bytes of MESSAGES.DAT for the packet of a number: the notice, and the messages. These can be written, in
/// fewer than 2^31 bytes, as fewer than 65,536 messages can that `shown` answers.
///
/// The error comes where there is no memory.
pub fn packet_text(alloc: Global, number: u32, messages: &QwkMessages) -> Result<Bytes, AllocError>
    requires messages { All Writable messages.now }
    requires short { length (spelling (notice_of number) messages.now) < 2 ^ 31 }
    ensures { IfOk result (λ text. text ≡ spelling (notice_of number) messages.now) }
{
    let notice = notice(alloc, number)?;
    write_messages(alloc, notice.as_slice(), messages)
}

/// The bytes of CONTROL.DAT for a packet of so many messages, at most 999,999,999, made at a moment in Unix seconds
/// for the user of an id, from 1, who is there.
///
/// The error comes where there is no memory.
pub fn control_text(
    alloc: Global,
    board: &StoredBoard,
    user: u32,
    count: u32,
    now: u32,
) -> Result<Bytes, AllocError>
    requires user { IsSome (user_of user board.now) }
    requires count { count ≤ 999999999 }
    ensures { IfOk result (λ text. Some text ≡ option_map (λ u. text_of_control (control board.now u count now)) (user_of user board.now)) }
{
    let control = control_of(alloc, board, user, count, now)?;
    write_control(alloc, &control)
}
