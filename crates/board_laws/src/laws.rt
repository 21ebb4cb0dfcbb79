//! The laws, each the contract of a function that does nothing.
ghost use Rattle.board_laws.specs.BoardCommand.{board_does};
ghost use Rattle.board_laws.specs.Kept.{StaysMade, StaysOffered};
ghost use Rattle.board_laws.specs.Once.{ChangesOnce, SaysAgain};
ghost use Rattle.board_laws.specs.Passed.{IsPassed, PacketsRise};

/// From no board on, or from a valid one in files of either version: once a board is made there is one after all further
/// entries. What is offered to a user is offered again, in full, while it is live and he acknowledges no packet.
pub fn kept()
    ensures made { StaysMade (λ command. command) board_does }
    ensures offered { StaysOffered (λ command. command) board_does }
{}

/// From no board on, each live message that a user may see, with a number at most his pointer, was in the offered list of
/// an export whose packet he acknowledged. In every list a number is that of one packet of the user, since a later one has
/// a greater number.
pub fn passed()
    ensures passed { IsPassed (λ command. command) board_does }
    ensures packets { PacketsRise (λ command. command) board_does }
{}

/// For each user and digest at most one entry changes the board by an upload. Each later upload of them that isn't
/// refused changes nothing, and has the counts of that one.
pub fn once()
    ensures changes { ChangesOnce (λ command. command) board_does }
    ensures again { SaysAgain (λ command. command) board_does }
{}
