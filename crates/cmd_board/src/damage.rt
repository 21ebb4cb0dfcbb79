ghost use Rattle.std.specs.Prelude.{◌≡◌, IsTrue};
ghost use Rattle.door_outside.specs.Cause.{HasCause};
ghost use Rattle.entry_runs.specs.Saying.{Voiced};
ghost use Rattle.cmd_board.specs.Damages.{damage_line};

use door_outside::{Host, VoiceFault};
use entry_runs::say_all;
use itoa::Buffer;
use jam_records::Damage;

/// Says `damaged` with the file, the record and the rule. It takes no memory.
pub fn say_damage<H: Host>(host: &mut H, damage: &Damage) -> Result<(), VoiceFault>
    ensures voiced { IsTrue H.tells → Voiced (damage_line damage.now) (H.disk host.old) (H.disk host.new) result }
    ensures cause { HasCause (H.voice_faults host.old) (H.voice_faults host.new) result }
    ensures disk { H.disk_faults host.new ≡ H.disk_faults host.old }
{
    let mut file = Buffer::new();
    let mut item = Buffer::new();
    say_all(
        host,
        &[
            b"damaged ",
            file.format(damage.file).as_bytes(),
            b" ",
            item.format(damage.item).as_bytes(),
            b" ",
            damage.rule.word(),
            b"\n",
        ],
    )
}
