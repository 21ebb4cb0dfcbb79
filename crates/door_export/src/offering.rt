ghost use Rattle.std.specs.Prelude.{◌≡◌, ◌≤◌, length, IfOk};
ghost use Rattle.offered_packets.specs.Offered.{offered as offered_of};

use mail_board::Board;
use offered_packets::Offered;
use std::alloc::{AllocError, Global};

/// What the user of an id, from 1, is offered: messages that the user sees, as `Board::sees` says, with a number above
/// the user's last-read pointer in their conference. They are the first by place and then by number, at most as many as
/// the limit.
///
/// The error comes where there is no memory.
pub fn offered(alloc: Global, board: &Board, user: u32, limit: u32) -> Result<Offered, AllocError>
    ensures offered { IfOk result (λ messages. messages ≡ offered_of board.now.board user limit) }
    ensures few { IfOk result (λ messages. length messages ≤ limit) }
{
    offered_packets::offered(alloc, board.stored(), user, limit)
}
