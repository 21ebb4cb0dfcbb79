//! Laws of samples, each the contract of a function that does nothing.
ghost use Rattle.std.specs.Prelude.{◌≡◌, ℕ, length};
ghost use Rattle.board_layout.specs.Board.{Board};
ghost use Rattle.board_layout.specs.Valid.{IsBoard};
ghost use Rattle.post_changes.specs.Posted.{ArePlaced};
ghost use Rattle.cmd_messages.specs.Draws.{draws_of};
ghost use Rattle.cmd_messages.specs.Sample.{sampled_posts};

/// A sample has as many messages as it is asked for, each for a place of the board.
pub fn all_are_posted()
    ensures count { (seed now : ℕ) (b : Board) (count : ℕ) → length (sampled_posts seed now b count) ≡ count }
    ensures places { (seed now : ℕ) (b : Board) (count : ℕ) → IsBoard b → ArePlaced (sampled_posts seed now b count) b }
{}

/// Of the seed 1, on a board of three conferences and two users, the first message is for the second conference and the
/// second user, answers none, and has four lines.
pub fn one_is_drawn()
    ensures { (b : Board) → length b.ledger.setup.conferences ≡ 3 → length b.ledger.users ≡ 2 → draws_of 1 0 b ≡ record { place = 1; recipient = 2; reply = 2; lines = 4 } }
{}
