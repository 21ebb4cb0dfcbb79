// Reading the conferences of a ledger.
ghost use Rattle.std.specs.Prelude.{◌≡◌, ◌<◌, All, IfOk, IsTrue};
ghost use Rattle.board_ledger.specs.Valid.{IsLedger};
ghost use Rattle.board_layout.specs.Board.{shape_of, shapes_in, shapes_of};
ghost use Rattle.board_layout.specs.Damage.{conferences_of};
ghost use Rattle.board_layout.specs.Rules.{AreOutlinesOf, GivesSo, HasReadCause, IsOutlineOf};
ghost use Rattle.door_outside.specs.Disk.{Unchanged};
ghost use Rattle.jam_base.specs.Change.{files_of_place};
ghost use Rattle.jam_base.specs.Outlined.{outlined};
ghost use Rattle.jam_base.specs.jam_layout.Layout.{conference_of};
ghost use Rattle.jam_base.specs.jam_layout.Valid.{IsConference};

use crate::board::Bases;
use crate::error::ReadError;
use crate::files::read_files;
use crate::shape::shape_at;
use board_ledger::Ledger;
use door_outside::Host;
use jam_base::{Base, read_base};
use jam_records::Kind;
use std::alloc::Global;

/// The conference in a place of a ledger, of this kind.
fn read_place<H: Host>(
    alloc: Global,
    host: &mut H,
    ledger: &Ledger,
    place: u8,
    kind: Kind,
) -> Result<Base, ReadError>
    requires ledger { IsLedger ledger.now }
    requires place { place < 64 }
    ensures shape { IfOk result (λ base. base.shape ≡ shape_of ledger.now place kind) }
    ensures conference { IfOk result (λ base. IsConference base.shape base.conference) }
    ensures outline { IfOk result (λ base. outlined base ≡ base) }
    ensures unchanged { IsTrue H.tells → Unchanged (H.disk host.old) (H.disk host.new) }
    ensures gives { IsTrue H.tells → GivesSo (IsOutlineOf (files_of_place place (H.disk host.old).files)) result (conference_of (shape_of ledger.now place kind) (files_of_place place (H.disk host.old).files)) }
    ensures cause { HasReadCause (H.disk_faults host.old) (H.disk_faults host.new) result }
    ensures voice { H.voice_faults host.new ≡ H.voice_faults host.old }
{
    let shape = shape_at(alloc, ledger, place, kind)?;
    let files = read_files(alloc, host, place)?;
    Ok(read_base(alloc, &files, &shape)?)
}

/// The conferences of a ledger, by place.
pub(crate) fn read_bases<H: Host>(
    alloc: Global,
    host: &mut H,
    ledger: &Ledger,
) -> Result<Bases, ReadError>
    requires { IsLedger ledger.now }
    ensures shapes { IfOk result (λ bases. shapes_in bases ≡ shapes_of ledger.now) }
    ensures conferences { IfOk result (All (λ base. IsConference base.shape base.conference)) }
    ensures outlines { IfOk result (All (λ base. outlined base ≡ base)) }
    ensures unchanged { IsTrue H.tells → Unchanged (H.disk host.old) (H.disk host.new) }
    ensures gives { IsTrue H.tells → GivesSo (AreOutlinesOf (shapes_of ledger.now) (H.disk host.old).files) result (conferences_of (shapes_of ledger.now) (H.disk host.old).files) }
    ensures cause { HasReadCause (H.disk_faults host.old) (H.disk_faults host.new) result }
    ensures voice { H.voice_faults host.new ≡ H.voice_faults host.old }
{
    let mut bases = Bases::new(alloc);
    for (place, conference) in ledger
        .setup
        .fields()
        .conferences
        .as_slice()
        .iter()
        .enumerate()
    {
        let base = read_place(alloc, host, ledger, place as u8, conference.kind)?;
        bases.add(base)?;
    }
    Ok(bases)
}
