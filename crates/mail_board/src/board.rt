use board_layout::StoredBoard;
use std::marker::Model;

/// A board. Contracts see it as a `HeldBoard`.
#[derive(Drop)]
pub struct Board {
    /// The board that the files held when they were last sure to hold one.
    pub(crate) stored: StoredBoard,
    /// Whether a change ended with a disk fault since.
    pub(crate) doubtful: bool,
}

impl Model for Board {
    ghost use Rattle.mail_board.specs.Held.{HeldBoard};

    ghost Value = { HeldBoard };

    ghost view = { λ s. record { board = s.stored; doubtful = s.doubtful } };
}
