// Reading a board.
ghost use Rattle.std.specs.Prelude.{◌≡◌, ◌≤◌, All, IfOk, IsTrue};
ghost use Rattle.board_ledger.specs.Ledger.{ledger_of, stored_text};
ghost use Rattle.board_ledger.specs.Valid.{IsLedger, IsStored};
ghost use Rattle.board_layout.specs.Board.{conferences_in, shapes_in, shapes_of};
ghost use Rattle.board_layout.specs.Damage.{board_in, parts_behind, parts_of, size_limit as limit_of};
ghost use Rattle.board_layout.specs.Layout.{data_size as size_of_data};
ghost use Rattle.board_layout.specs.Rules.{AreFoundOf, ArePartsOf, ReadGives, GivesSo, HasReadCause, IsFoundOf};
ghost use Rattle.board_layout.specs.Valid.{offers_fit};
ghost use Rattle.door_outside.specs.Disk.{Unchanged};
ghost use Rattle.door_outside.specs.File.{ledger_file};
ghost use Rattle.jam_base.specs.Outlined.{outlined};
ghost use Rattle.jam_base.specs.jam_layout.Valid.{IsConference};

use crate::bases::read_bases;
use crate::board::{Bases, StoredBoard};
use crate::damaged::damage;
use crate::error::ReadError;
use crate::files::read_file;
use crate::highs::check_highs;
use crate::limit::size_limit;
use crate::parts::board_of_parts;
use crate::rest::check_rests;
use crate::sizes::data_size;
use board_ledger::Ledger;
use door_outside::{FileId, Host};
use jam_records::DamageRule;
use std::alloc::Global;

/// The outline of a board that the data files are read as.
#[derive(Debug, Drop)]
pub struct FoundBoard {
    /// Whether their ledger is of version 1.
    pub is_old: bool,
    /// The board, whose ledger has version 2.
    pub board: StoredBoard,
}

/// The damage of files that are too long together.
fn too_long() -> ReadError
    ensures { result ≡ ReadError.Damaged record { file = ledger_file; item = 0; rule = DamageRule.Size } }
{
    ReadError::Damaged(damage(FileId::ledger(), 0, DamageRule::Size))
}

/// The ledger of file 0, in the version that it has there.
fn read_ledger<H: Host>(alloc: Global, host: &mut H) -> Result<Ledger, ReadError>
    ensures ledger { IfOk result IsStored }
    ensures unchanged { IsTrue H.tells → Unchanged (H.disk host.old) (H.disk host.new) }
    ensures gives { IsTrue H.tells → ReadGives (λ ledger. ledger) result (ledger_of ((H.disk host.old).files ledger_file)) }
    ensures layout { IsTrue H.tells → IfOk result (λ ledger. (H.disk host.old).files ledger_file ≡ stored_text ledger) }
    ensures cause { HasReadCause (H.disk_faults host.old) (H.disk_faults host.new) result }
    ensures voice { H.voice_faults host.new ≡ H.voice_faults host.old }
{
    let bytes = read_file(alloc, host, FileId::ledger())?;
    Ok(Ledger::read(alloc, bytes.as_slice())?)
}

/// The conferences of a ledger, or the first rule that the files behind it break.
fn read_conferences<H: Host>(
    alloc: Global,
    host: &mut H,
    ledger: &Ledger,
) -> Result<Bases, ReadError>
    requires { IsLedger ledger.now }
    ensures shapes { IfOk result (λ bases. shapes_in bases ≡ shapes_of ledger.now) }
    ensures conferences { IfOk result (All (λ base. IsConference base.shape base.conference)) }
    ensures outlines { IfOk result (All (λ base. outlined base ≡ base)) }
    ensures highs { IfOk result (λ bases. All (λ u. IsTrue (offers_fit (conferences_in bases) u.offers)) ledger.now.users) }
    ensures unchanged { IsTrue H.tells → Unchanged (H.disk host.old) (H.disk host.new) }
    ensures gives { IsTrue H.tells → GivesSo (ArePartsOf ledger.now (H.disk host.old).files) result (parts_behind ledger.now (H.disk host.old).files) }
    ensures cause { HasReadCause (H.disk_faults host.old) (H.disk_faults host.new) result }
    ensures voice { H.voice_faults host.new ≡ H.voice_faults host.old }
{
    let bases = read_bases(alloc, host, ledger)?;
    let places = ledger.setup.conference_count();
    check_rests(host, places)?;
    check_highs(
        bases.as_slice(),
        1 + u32::from(places),
        ledger.users.as_slice(),
    )?;
    Ok(bases)
}

/// The board of files that aren't too long together, or the first rule that they break.
fn read_parts<H: Host>(alloc: Global, host: &mut H) -> Result<FoundBoard, ReadError>
    requires { IsTrue H.tells → size_of_data (H.disk host.old).files ≤ limit_of ((H.disk host.old).files ledger_file) }
    ensures unchanged { IsTrue H.tells → Unchanged (H.disk host.old) (H.disk host.new) }
    ensures gives { IsTrue H.tells → GivesSo (IsFoundOf (H.disk host.old).files) result (parts_of (H.disk host.old).files) }
    ensures cause { HasReadCause (H.disk_faults host.old) (H.disk_faults host.new) result }
    ensures voice { H.voice_faults host.new ≡ H.voice_faults host.old }
{
    let mut ledger = read_ledger(alloc, host)?;
    let is_old = ledger.version() == 1;
    ledger.version = 2;
    let bases = read_conferences(alloc, host, &ledger)?;
    // Files that changed between the two looks at their length may be too long only now.
    match board_of_parts(ledger, bases) {
        Some(board) => Ok(FoundBoard { is_old, board }),
        None => Err(too_long()),
    }
}

/// The outline of the board whose layout the data files are, with the ledger in version 1 or 2, or None where all of
/// them are empty.
///
/// `Damaged` comes where they are neither, with the first rule that they break. In order the rules look at the size of
/// all files, the ledger, the four files of each place, and the highs of the users' open offers.
///
/// `DiskFault` comes only where the host's count of disk faults rose. `OutOfMemory` comes where there is no memory; it
/// hides no fault.
pub fn read_board<H: Host>(alloc: Global, host: &mut H) -> Result<Option<FoundBoard>, ReadError>
    ensures unchanged { IsTrue H.tells → Unchanged (H.disk host.old) (H.disk host.new) }
    ensures gives { IsTrue H.tells → GivesSo (AreFoundOf (H.disk host.old).files) result (board_in (H.disk host.old).files) }
    ensures cause { HasReadCause (H.disk_faults host.old) (H.disk_faults host.new) result }
    ensures voice { H.voice_faults host.new ≡ H.voice_faults host.old }
{
    let size = data_size(host)?;
    if size == 0 {
        return Ok(None);
    }
    if size > size_limit(host)? {
        return Err(too_long());
    }
    let found = read_parts(alloc, host)?;
    Ok(Some(found))
}
