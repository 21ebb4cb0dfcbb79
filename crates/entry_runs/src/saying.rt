//! Saying a text that is given in pieces.
ghost use Rattle.std.specs.Prelude.{◌≡◌, [], IsTrue};
ghost use Rattle.door_outside.specs.Cause.{HasCause};
ghost use Rattle.entry_runs.specs.Saying.{Voiced, Gathers, text_of_pieces};

use arrayvec::ArrayVec;
use door_outside::{Host, VoiceFault};
use std::marker::Model;

/// So many bytes of a text are gathered at most before they are said.
const ROOM: usize = 4096;

/// What is gathered of a text before it is said, in a fixed array: so many short pieces are said in few calls, and it
/// takes no memory. Contracts see the bytes that are gathered and not said yet.
#[derive(Debug, Drop)]
pub struct Gathered {
    bytes: ArrayVec<u8, ROOM>,
}

impl Model for Gathered {
    ghost use Rattle.std.specs.Prelude.{ℕ, List};

    ghost Value = { List ℕ };

    ghost view = { λ g. g.bytes.items };
}

impl Gathered {
    /// Nothing is gathered yet.
    pub fn new() -> Gathered
        ensures { result ≡ [] }
    {
        Gathered {
            bytes: ArrayVec::new(),
        }
    }

    /// Gathers a piece. Where there is no room for it, what is gathered is said first; a piece that the room can't hold
    /// is said behind it.
    fn add_piece<H: Host>(&mut self, host: &mut H, piece: &[u8]) -> Result<(), VoiceFault>
        ensures gathers { IsTrue H.tells → Gathers self.old piece.now self.new (H.disk host.old) (H.disk host.new) result }
        ensures cause { HasCause (H.voice_faults host.old) (H.voice_faults host.new) result }
        ensures disk { H.disk_faults host.new ≡ H.disk_faults host.old }
    {
        if self.bytes.try_extend_from_slice(piece).is_ok() {
            return Ok(());
        }
        self.say(host)?;
        self.bytes.clear();
        if self.bytes.try_extend_from_slice(piece).is_ok() {
            return Ok(());
        }
        host.say(piece)
    }

    /// Gathers a text that is given in pieces, and says what there is no room for.
    pub fn add<H: Host>(&mut self, host: &mut H, pieces: &[&[u8]]) -> Result<(), VoiceFault>
        ensures gathers { IsTrue H.tells → Gathers self.old (text_of_pieces pieces.now) self.new (H.disk host.old) (H.disk host.new) result }
        ensures cause { HasCause (H.voice_faults host.old) (H.voice_faults host.new) result }
        ensures disk { H.disk_faults host.new ≡ H.disk_faults host.old }
    {
        for piece in pieces {
            self.add_piece(host, piece)?;
        }
        Ok(())
    }

    /// Says what is gathered, where that is something.
    pub fn say<H: Host>(&self, host: &mut H) -> Result<(), VoiceFault>
        ensures voiced { IsTrue H.tells → Voiced self.now (H.disk host.old) (H.disk host.new) result }
        ensures cause { HasCause (H.voice_faults host.old) (H.voice_faults host.new) result }
        ensures disk { H.disk_faults host.new ≡ H.disk_faults host.old }
    {
        if self.bytes.is_empty() {
            Ok(())
        } else {
            host.say(self.bytes.as_slice())
        }
    }
}

/// Says a text that is given in pieces. It takes no memory: the pieces are gathered in a fixed array, so that
/// a line is said in one call, and a text that is longer in few.
pub fn say_all<H: Host>(host: &mut H, pieces: &[&[u8]]) -> Result<(), VoiceFault>
    ensures voiced { IsTrue H.tells → Voiced (text_of_pieces pieces.now) (H.disk host.old) (H.disk host.new) result }
    ensures cause { HasCause (H.voice_faults host.old) (H.voice_faults host.new) result }
    ensures disk { H.disk_faults host.new ≡ H.disk_faults host.old }
{
    let mut gathered = Gathered::new();
    gathered.add(host, pieces)?;
    gathered.say(host)
}
