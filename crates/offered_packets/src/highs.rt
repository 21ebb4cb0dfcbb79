ghost use Rattle.std.specs.Prelude.{◌≡◌, IfOk};
ghost use Rattle.offered_packets.specs.Offered.{highs};

use crate::lookups::place_count;
use crate::offered_message::Offered;
use board_layout::StoredBoard;
use board_ledger::Highs;
use byte_lists::List;
use std::alloc::{AllocError, Global};

/// For each conference of the board, by place, the greatest message number that is offered of it, or 0 where none
/// is. It takes time linear in the messages.
///
/// The error comes where there is no memory.
#[tactic(auto, unfolding(crate::specs::Offered::highs))]
pub fn highs_of(alloc: Global, board: &StoredBoard, offered: &Offered) -> Result<Highs, AllocError>
    ensures { IfOk result (λ numbers. numbers ≡ highs board.now offered.now) }
{
    let mut zeros = Highs::new(alloc);
    zeros.fill(alloc, &0, usize::from(place_count(board)))?;
    let mut numbers = zeros.into_vec();
    for message in offered.as_slice() {
        let place = usize::from(message.place);
        if place < numbers.len() {
            numbers[place] = numbers[place].max(message.number);
        }
    }
    Ok(List::from_vec(numbers))
}
