//! Laws of packets, each the contract of a function that does nothing.
ghost use Rattle.std.specs.Prelude.{◌≡◌, ℕ, ◌≤◌, ◌<◌, ◌^◌, List, length, map, option_map, All, Contains, IfSome};
ghost use Rattle.board_layout.specs.Board.{Board};
ghost use Rattle.board_layout.specs.Outlines.{board_outline};
ghost use Rattle.board_layout.specs.Valid.{IsBoard};
ghost use Rattle.board_layout.specs.Lookups.{message_at};
ghost use Rattle.board_ledger.specs.declared.user.User.{User};
ghost use Rattle.board_layout.specs.jam_layout.Outlines.{message_outline};
ghost use Rattle.jam_records.specs.declared.message.Message.{Message};
ghost use Rattle.long_names.specs.Plain.{plain};
ghost use Rattle.qwk_blocks.specs.Written.{spelling, Writable as IsWritable};
ghost use Rattle.qwk_control.specs.Written.{WritableControl as IsWritableControl};
ghost use Rattle.offered_packets.specs.Control.{control};
ghost use Rattle.offered_packets.specs.Offered.{highs, offered};
ghost use Rattle.offered_packets.specs.Sees.{sees};
ghost use Rattle.offered_packets.specs.Shown.{shown, shown_all, shown_message, packet, packet_read, notice};
ghost use Rattle.offered_packets.specs.declared.offered_message.OfferedMessage.{OfferedMessage};

use qwk_moments::laws::written_bytes;

/// Each message of a valid board can be written as it is shown. Fewer than 65,536 of them can be written in fewer than
/// 2^31 bytes.
pub fn shown_can_be_written()
    ensures message { (b : Board) (place number logical : ℕ) → IsBoard b → logical < 2 ^ 16 → IfSome (shown b place number logical) IsWritable }
    ensures messages { (b : Board) (messages : List OfferedMessage) → IsBoard b → length messages < 2 ^ 16 → All IsWritable (shown_all b messages) }
    ensures short { (b : Board) (messages : List OfferedMessage) (number : ℕ) → IsBoard b → length messages < 2 ^ 16 → number < 2 ^ 32 → length (spelling (notice number) (shown_all b messages)) < 2 ^ 31 }
{}

/// The control of a packet of a valid board's user can be written.
pub fn control_can_be_written()
    ensures { (b : Board) (u : User) (count now : ℕ) → IsBoard b → Contains b.ledger.users u → count ≤ 999999999 → now < 2 ^ 32 → IsWritableControl (control b u count now) }
{
    written_bytes();
}

/// What a reader sees of a packet's messages: names and subjects whole where they are long, and else as their fields
/// have them.
pub fn shown_is_read()
    ensures { (b : Board) (user limit : ℕ) → map plain (packet b user limit) ≡ packet_read b user limit }
{}

/// Each message that is offered is shown.
pub fn each_offered_is_shown()
    ensures { (b : Board) (user limit : ℕ) → length (packet b user limit) ≡ length (offered b user limit) }
{}

/// The outline of a board has all that is asked of a board to make a packet, but the bodies:
///
/// - its messages without them
/// - which user sees which
/// - what a user is offered
/// - the highs of that
/// - how a message is shown that is at hand
pub fn outline_is_offered()
    ensures message { (b : Board) (place number : ℕ) → message_at (board_outline b) place number ≡ option_map message_outline (message_at b place number) }
    ensures sees { (b : Board) (id place number : ℕ) → sees (board_outline b) id place number ≡ sees b id place number }
    ensures offered { (b : Board) (id limit : ℕ) → offered (board_outline b) id limit ≡ offered b id limit }
    ensures highs { (b : Board) (messages : List OfferedMessage) → highs (board_outline b) messages ≡ highs b messages }
    ensures shown { (b : Board) (place number logical : ℕ) (m : Message) → shown_message (board_outline b) place number logical m ≡ shown_message b place number logical m }
{}
