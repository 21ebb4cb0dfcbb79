ghost use Rattle.std.specs.Prelude.{◌≡◌, ◌≤◌, ◌++◌, length, filter, take, IfOk, OnOk};
ghost use Rattle.offered_packets.specs.Offered.{numbers_in, is_new, offered as offered_of};

use crate::lookups::place_count;
use crate::offered_message::{Offered, OfferedMessage};
use crate::rights::sees;
use board_layout::StoredBoard;
use std::alloc::{AllocError, Global};

/// Adds the messages of the conference in a place that are new to a user, until there are as many as the limit.
fn add_new(
    messages: &mut Offered,
    board: &StoredBoard,
    user: u32,
    place: u8,
    limit: usize,
) -> Result<(), AllocError>
    requires { length messages.old ≤ limit }
    ensures { OnOk result (messages.new ≡ take limit (messages.old ++ filter (is_new board.now user) (numbers_in board.now place))) }
{
    let Some(base) = board.base_at(place) else {
        return Ok(());
    };
    let Some(pointer) = base.pointer(user) else {
        return Ok(());
    };
    for slot in 0..base.slot_count() {
        if messages.len() >= limit {
            return Ok(());
        }
        let number = slot + 1;
        if pointer < number && sees(board, user, place, number) {
            messages.add(OfferedMessage { place, number })?;
        }
    }
    Ok(())
}

/// What the user of an id, from 1, is offered: the first new messages, by place and then by number, at most as many as
/// the limit. A message is new where the user sees it, as `sees` says, and its number is above the user's pointer in
/// its conference. The call looks at each slot once at most, and at none behind the last that it offers.
///
/// The error comes where there is no memory.
#[tactic(auto, unfolding(crate::specs::Offered::offered))]
pub fn offered(
    alloc: Global,
    board: &StoredBoard,
    user: u32,
    limit: u32,
) -> Result<Offered, AllocError>
    ensures offered { IfOk result (λ messages. messages ≡ offered_of board.now user limit) }
    ensures few { IfOk result (λ messages. length messages ≤ limit) }
{
    let mut messages = Offered::new(alloc);
    for place in 0..place_count(board) {
        add_new(&mut messages, board, user, place, limit as usize)?;
    }
    Ok(messages)
}
