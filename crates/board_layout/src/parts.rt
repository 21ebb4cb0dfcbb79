// Making a board of its parts.
ghost use Rattle.std.specs.Prelude.{◌≡◌, ◌↔◌, ◌+◌, ◌≤◌, ◌<◌, length, sum_by, All, IsTrue, MatchOption};
ghost use Rattle.board_layout.specs.Board.{board_with, conferences_in, shapes_in, shapes_of};
ghost use Rattle.board_layout.specs.Layout.{base_size, board_size};
ghost use Rattle.board_layout.specs.Valid.{board_limit, offers_fit};
ghost use Rattle.board_ledger.specs.Ledger.{ledger_text};
ghost use Rattle.board_ledger.specs.Valid.{IsLedger};
ghost use Rattle.jam_base.specs.Outlined.{outlined};
ghost use Rattle.jam_base.specs.jam_layout.Valid.{IsConference};

use crate::board::{BOARD_LIMIT, Bases, StoredBoard};
use board_ledger::Ledger;
use jam_base::Base;

/// Whether the files of bases have at most so many bytes together.
fn bases_fit(limit: u64, bases: &[Base]) -> bool
    ensures { IsTrue result ↔ (sum_by base_size bases.now ≤ limit) }
{
    let mut left = limit;
    for base in bases {
        let size = base.size();
        if left < size {
            return false;
        }
        left -= size;
    }
    true
}

/// Whether the files of a ledger and of bases aren't too long together.
fn are_short(ledger: &Ledger, bases: &[Base]) -> bool
    requires { IsLedger ledger.now }
    ensures { IsTrue result ↔ (length (ledger_text ledger.now) + sum_by base_size bases.now ≤ board_limit) }
{
    let size = ledger.size();
    if BOARD_LIMIT < size {
        return false;
    }
    bases_fit(BOARD_LIMIT - size, bases)
}

/// The board of a ledger and its conferences, or None where its files are too long together.
pub(crate) fn board_of_parts(ledger: Ledger, bases: Bases) -> Option<StoredBoard>
    requires ledger { IsLedger ledger }
    requires shapes { shapes_in bases ≡ shapes_of ledger }
    requires conferences { All (λ base. IsConference base.shape base.conference) bases }
    requires outlines { All (λ base. outlined base ≡ base) bases }
    requires highs { All (λ u. IsTrue (offers_fit (conferences_in bases) u.offers)) ledger.users }
    ensures { MatchOption result (board_limit < board_size (board_with ledger bases)) (λ board. board ≡ board_with ledger bases) }
{
    if !are_short(&ledger, bases.as_slice()) {
        return None;
    }
    Some(StoredBoard::new(ledger, bases))
}
