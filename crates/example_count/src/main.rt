//! Checks the MESSAGES.DAT of a packet, which comes on standard input, and counts its messages. It takes the file as it
//! comes, in pieces of any size, and no memory for it.
#![tactic(auto)]

ghost use Rattle.std.specs.Prelude.{◌+◌, ◌<◌, ◌≤◌, ◌^◌, length};

use qwk_blocks::BlockReader;
use std::io::{self, ErrorKind, Read};

/// A MESSAGES.DAT of the door has no more bytes (40 MiB).
const MOST: u32 = 41_943_040;

/// Feeds a piece, up to its end or to a fault, which the reader keeps.
fn feed_all(reader: &mut BlockReader, piece: &[u8])
    requires { reader.old.taken + length piece.now < 2 ^ 31 }
    ensures { reader.new.taken ≤ reader.old.taken + length piece.now }
{
    let mut at = 0;
    while at < piece.len() {
        match reader.feed(&piece[at..]) {
            Ok(fed) => at += fed.used,
            Err(_) => return,
        }
    }
}

/// Reads the input to its end, or past the most bytes that a file has.
fn read_all<R: Read>(input: &mut R) -> io::Result<BlockReader> {
    let mut reader = BlockReader::new();
    let mut room = [0; 512];
    let mut taken = 0u32;
    while taken <= MOST {
        let count = input.read(&mut room)?;
        if count == 0 {
            return Ok(reader);
        }
        feed_all(&mut reader, &room[..count]);
        taken += count as u32;
    }
    Err(ErrorKind::FileTooLarge.into())
}

fn main(rt: HostRuntime) -> anyhow::Result<()> {
    let reader = read_all(&mut rt.stdin())?;
    let count = reader.finish()?;
    println!(rt; "{count} messages")?;
    Ok(())
}
