//! The law of a pack, the contract of a function that does nothing.
ghost use Rattle.std.specs.Prelude.{◌≡◌, ℕ};
ghost use Rattle.board_layout.specs.Board.{Board};
ghost use Rattle.board_layout.specs.Valid.{IsBoard};
ghost use Rattle.offered_packets.specs.Offered.{offered};
ghost use Rattle.slot_changes.specs.Packed.{packed};

/// What is offered to a user is the same before and after a pack, whatever the limit.
pub fn offered_stays()
    ensures { (b : Board) (place user limit : ℕ) → IsBoard b → offered (packed place b) user limit ≡ offered b user limit }
{}
