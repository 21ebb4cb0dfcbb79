//! What the line of a refusal says.
ghost use Rattle.std.specs.Prelude.{◌≡◌, IsTrue, decimal};
ghost use Rattle.door_outside.specs.Cause.{HasCause};
ghost use Rattle.entry_runs.specs.Saying.{Voiced};
ghost use Rattle.shelf_files.specs.Refusals.{fault_line, line_of, ruled_line};

use door_outside::{Host, VoiceFault};
use entry_runs::say_all;
use itoa::Buffer;

/// What a refusal's line says: its words, and what stands behind them.
#[derive(Clone, Copy)]
pub(crate) enum Said<'a> {
    /// Words alone.
    Words(&'a [u8]),
    /// A name.
    Name(&'a [u8], &'a [u8]),
    /// A number.
    Number(&'a [u8], u64),
    /// The number of a line, and the word of the rule that it breaks.
    Rule(&'a [u8], u32, &'a [u8]),
    /// The word of a rule, and the byte at which it is broken.
    Fault(&'a [u8], &'a [u8], u32),
}

/// Says the line of a refusal: its words, and what stands behind them.
fn say_line<H: Host>(host: &mut H, words: &[u8], behind: &[u8]) -> Result<(), VoiceFault>
    ensures voiced { IsTrue H.tells → Voiced (line_of words.now behind.now) (H.disk host.old) (H.disk host.new) result }
    ensures cause { HasCause (H.voice_faults host.old) (H.voice_faults host.new) result }
    ensures disk { H.disk_faults host.new ≡ H.disk_faults host.old }
{
    say_all(host, &[b"refused ", words, behind, b"\n"])
}

/// Says the line of a refusal that ends with a number.
fn say_number<H: Host>(host: &mut H, words: &[u8], number: u64) -> Result<(), VoiceFault>
    ensures voiced { IsTrue H.tells → Voiced (line_of words.now (decimal number)) (H.disk host.old) (H.disk host.new) result }
    ensures cause { HasCause (H.voice_faults host.old) (H.voice_faults host.new) result }
    ensures disk { H.disk_faults host.new ≡ H.disk_faults host.old }
{
    let mut buffer = Buffer::new();
    say_line(host, words, buffer.format(number).as_bytes())
}

/// Says the line of a refusal that ends with a line's number and the word of a rule.
fn say_rule<H: Host>(host: &mut H, words: &[u8], line: u32, rule: &[u8]) -> Result<(), VoiceFault>
    ensures voiced { IsTrue H.tells → Voiced (ruled_line words.now line rule.now) (H.disk host.old) (H.disk host.new) result }
    ensures cause { HasCause (H.voice_faults host.old) (H.voice_faults host.new) result }
    ensures disk { H.disk_faults host.new ≡ H.disk_faults host.old }
{
    let mut buffer = Buffer::new();
    let digits = buffer.format(line).as_bytes();
    say_all(host, &[b"refused ", words, digits, b" ", rule, b"\n"])
}

/// Says the line of a refusal that ends with the word of a rule and a byte.
fn say_fault<H: Host>(host: &mut H, words: &[u8], rule: &[u8], at: u32) -> Result<(), VoiceFault>
    ensures voiced { IsTrue H.tells → Voiced (fault_line words.now rule.now at) (H.disk host.old) (H.disk host.new) result }
    ensures cause { HasCause (H.voice_faults host.old) (H.voice_faults host.new) result }
    ensures disk { H.disk_faults host.new ≡ H.disk_faults host.old }
{
    let mut buffer = Buffer::new();
    let digits = buffer.format(at).as_bytes();
    say_all(host, &[b"refused ", words, rule, b" ", digits, b"\n"])
}

impl Said<'_> {
    ghost use Rattle.std.specs.Prelude.{◌≡◌, IsTrue};
    ghost use Rattle.door_outside.specs.Cause.{HasCause};
    ghost use Rattle.entry_runs.specs.Saying.{Voiced};
    ghost use Rattle.shelf_files.specs.Refusals.{said_line};

    /// Says the line.
    pub fn say<H: Host>(&self, host: &mut H) -> Result<(), VoiceFault>
        ensures voiced { IsTrue H.tells → Voiced (said_line self.now) (H.disk host.old) (H.disk host.new) result }
        ensures cause { HasCause (H.voice_faults host.old) (H.voice_faults host.new) result }
        ensures disk { H.disk_faults host.new ≡ H.disk_faults host.old }
    {
        match self {
            Said::Words(words) => say_line(host, words, b""),
            Said::Name(words, name) => say_line(host, words, name),
            Said::Number(words, number) => say_number(host, words, *number),
            Said::Rule(words, line, rule) => say_rule(host, words, *line, rule),
            Said::Fault(words, rule, at) => say_fault(host, words, rule, *at),
        }
    }
}
