// The files of the places past the conferences.
ghost use Rattle.std.specs.Prelude.{◌≡◌, ◌-◌, ◌≤◌, ◌<◌, IsTrue};
ghost use Rattle.board_layout.specs.Damage.{is_rest, is_rest_place, are_rest};
ghost use Rattle.board_layout.specs.Rules.{ReadGives, HasReadCause};
ghost use Rattle.door_outside.specs.Disk.{Unchanged};

use crate::damaged::damage;
use crate::error::ReadError;
use door_outside::{FileId, Host};
use jam_records::DamageRule;

/// Tests that a file is empty.
fn check_rest<H: Host>(host: &mut H, file: FileId) -> Result<(), ReadError>
    ensures unchanged { IsTrue H.tells → Unchanged (H.disk host.old) (H.disk host.new) }
    ensures gives { IsTrue H.tells → ReadGives (λ x. x) result (is_rest file (H.disk host.old).files) }
    ensures cause { HasReadCause (H.disk_faults host.old) (H.disk_faults host.new) result }
    ensures voice { H.voice_faults host.new ≡ H.voice_faults host.old }
{
    if host.length(file)? != 0 {
        return Err(ReadError::Damaged(damage(file, 0, DamageRule::Rest)));
    }
    Ok(())
}

/// Tests that the four files of a place are empty.
fn check_place<H: Host>(host: &mut H, place: u8) -> Result<(), ReadError>
    requires { place < 64 }
    ensures unchanged { IsTrue H.tells → Unchanged (H.disk host.old) (H.disk host.new) }
    ensures gives { IsTrue H.tells → ReadGives (λ x. x) result (is_rest_place place (H.disk host.old).files) }
    ensures cause { HasReadCause (H.disk_faults host.old) (H.disk_faults host.new) result }
    ensures voice { H.voice_faults host.new ≡ H.voice_faults host.old }
{
    check_rest(host, FileId::jhr(place))?;
    check_rest(host, FileId::jdt(place))?;
    check_rest(host, FileId::jdx(place))?;
    check_rest(host, FileId::jlr(place))
}

/// Tests that the files of the places from this one on are empty.
pub(crate) fn check_rests<H: Host>(host: &mut H, first: u8) -> Result<(), ReadError>
    requires { first ≤ 64 }
    ensures unchanged { IsTrue H.tells → Unchanged (H.disk host.old) (H.disk host.new) }
    ensures gives { IsTrue H.tells → ReadGives (λ x. x) result (are_rest first (64 - first) (H.disk host.old).files) }
    ensures cause { HasReadCause (H.disk_faults host.old) (H.disk_faults host.new) result }
    ensures voice { H.voice_faults host.new ≡ H.voice_faults host.old }
{
    for place in first..64 {
        check_place(host, place)?;
    }
    Ok(())
}
