//! The conference that a command names.
ghost use Rattle.std.specs.Prelude.{◌≡◌, ◌<◌, Some, None, length, IfOk, IfSome, MatchResult};
ghost use Rattle.cmd_board.specs.declared.halt.BoardHalt.TheVariants.{Refused};
ghost use Rattle.board_layout.specs.Valid.{IsBoard};
ghost use Rattle.board_layout.specs.Lookups.{place_of};
ghost use Rattle.cmd_board.specs.Places.{kind_of_place};
ghost use Rattle.shelf_files.specs.declared.refusal.Refusal.TheVariants as refusal;

use crate::halt::BoardHalt;
use jam_records::Kind;
use mail_board::Board;
use shelf_files::Refusal;

/// The place of the conference of a number, or None where no conference has it.
fn place_numbered(board: &Board, conference: u32) -> Option<u8>
    requires { IsBoard board.now.board }
    ensures place { result ≡ place_of conference board.now.board }
    ensures within { IfSome result (λ place. place < length board.now.board.conferences) }
{
    match u16::try_from(conference) {
        Ok(number) => board.place_of(number),
        Err(_) => None,
    }
}

/// The place of the conference of a number, refused where no conference has it.
pub fn place_in(board: &Board, conference: u32) -> Result<u8, BoardHalt>
    requires { IsBoard board.now.board }
    ensures place { MatchResult result (λ place. place_of conference board.now.board ≡ Some place) (λ e. (e ≡ Refused refusal.NoConference) × (place_of conference board.now.board ≡ None)) }
    ensures within { IfOk result (λ place. place < length board.now.board.conferences) }
{
    match place_numbered(board, conference) {
        Some(place) => Ok(place),
        None => Err(BoardHalt::Refused(Refusal::NoConference)),
    }
}

/// The kind of the conference in a place that is there.
pub fn kind_in(board: &Board, place: u8) -> Kind
    requires { place < length board.now.board.conferences }
    ensures { result ≡ kind_of_place place board.now.board }
{
    board.stored().conference_of(place).kind
}
