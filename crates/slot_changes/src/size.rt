ghost use Rattle.std.specs.Prelude.{◌≡◌, ◌<◌, ◌+◌, ◌-◌, ◌^◌, ℕ, List, length, min};
ghost use Rattle.board_layout.specs.Layout.{board_size};
ghost use Rattle.jam_layout.specs.Sizes.{slot_size};
ghost use Rattle.jam_records.specs.declared.message.Slot.TheVariants.{Held};
ghost use Rattle.slot_changes.specs.Changed.{appended as appended_of};
ghost use Rattle.slot_changes.specs.Msgids.{identified};

use crate::msgid::generated_len;
use board_layout::StoredBoard;
use jam_records::{Message, Messages};

/// How long the msgid of a message is that gets one of this length, where it has none.
fn msgid_len(message: &Message, generated: u64) -> u64
    ensures { (msgid : List ℕ) → length msgid ≡ generated → result ≡ length (identified msgid message.now).msgid }
{
    let own = message.msgid.as_slice().len() as u64;
    if own == 0 { generated } else { own }
}

/// How many bytes of a conference's files a message takes, or 18,446,744,073,709,551,615 where they are more, once it
/// has a msgid of so many bytes, where it has none: its header, its subfields, its body and its index record. It takes
/// no memory.
pub fn message_size(message: &Message, generated: u64) -> u64
    ensures { (msgid : List ℕ) → length msgid ≡ generated → result ≡ min (slot_size (Held (identified msgid message.now))) (2 ^ 64 - 1) }
{
    let size = jam_layout::message_size(message, msgid_len(message, generated));
    size.min(u128::from(u64::MAX)) as u64
}

/// How many bytes the data files have together once messages are appended in a place, each with the msgid that is
/// generated for its number, where it has none, or 18,446,744,073,709,551,615 where they are more. The place is
/// there. It takes no memory.
pub fn size_with_messages(board: &StoredBoard, place: u8, messages: &Messages) -> u64
    requires { place < length board.now.conferences }
    ensures { result ≡ min (board_size (appended_of place messages.now board.now)) (2 ^ 64 - 1) }
{
    let conference = board.conference_of(place).number;
    let bbsid = board.ledger().setup.bbsid().as_slice();
    let first = u64::from(board.base_of(place).slot_count()) + 1;
    let mut size = board.size();
    for (index, message) in messages.as_slice().iter().enumerate() {
        let generated = generated_len(conference, bbsid, first + index as u64);
        size = size.saturating_add(message_size(message, generated));
    }
    size
}
