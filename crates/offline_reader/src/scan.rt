ghost use Rattle.std.specs.Prelude.{◌≡◌, ◌≤◌, ◌<◌, ◌^◌, ◌+◌, ◌++◌, ℕ, List, length, Some, IfOk, OnOk, OnErr, IsTrue};
ghost use Rattle.door_outside.specs.Cause.{Rose};
ghost use Rattle.door_outside.specs.Shelf.{held};
ghost use Rattle.offline_reader.specs.Scan.{ScanFinds, HasFed};
ghost use Rattle.offline_reader.specs.declared.scan.Scanned.{Scanned};

use door_outside::{Allowance, Piece, Shelf, ShelfFault, ShelfName};
use qwk_blocks::{BlockReader, QwkFault};

/// How many bytes are asked for at once.
const PIECE: usize = 4096;

/// What a scan found of a file.
#[derive(Clone, Copy, Debug, PartialEq, Eq)]
pub enum Scanned {
    /// The shelf has no file of that name.
    Missing,
    /// The file has more bytes than the caller takes.
    TooLarge,
    /// The file isn't a packet, and this is its first fault.
    Fault(QwkFault),
    /// The file is a packet of so many messages.
    Count(u32),
}

/// Feeds a piece of a file, up to its end or to a fault.
fn feed_all(reader: &mut BlockReader, piece: &[u8])
    requires { reader.old.taken + length piece.now < 2 ^ 31 }
    ensures fed { (stream : List ℕ) → HasFed reader.old stream → HasFed reader.new (stream ++ piece.now) }
    ensures taken { reader.new.taken ≤ reader.old.taken + length piece.now }
{
    let mut at = 0;
    while at < piece.len() {
        match reader.feed(&piece[at..]) {
            Ok(fed) => at += fed.used,
            Err(_) => return,
        }
    }
}

/// What a scan finds where the file ends.
fn outcome_of(reader: &BlockReader) -> Scanned
    ensures { (most : ℕ) (file : List ℕ) → HasFed reader.now file → length file ≤ most → ScanFinds most (Some file) result }
{
    match reader.finish() {
        Ok(count) => Scanned::Count(count),
        Err(fault) => Scanned::Fault(fault),
    }
}

/// How many messages MESSAGES.DAT of that name has, where it has at most `max` bytes, or its first fault.
/// It takes no memory but an array of 4,096 bytes, and asks for `max` + 1 bytes at most. `max` is at most
/// 1,073,741,824.
///
/// `ShelfFault` comes only where the shelf's count of faults rose.
pub fn scan_packet<S: Shelf>(
    shelf: &mut S,
    name: &ShelfName,
    max: u32,
) -> Result<Scanned, ShelfFault>
    requires { max ≤ 1073741824 }

    // What is found is what the shelf holds under that name, and nothing else would be.
    ensures value { IsTrue S.tells → IfOk result (ScanFinds max (held (S.files shelf.old) name.now)) }
    ensures only { IsTrue S.tells → (found : Scanned) → ScanFinds max (held (S.files shelf.old) name.now) found → IfOk result (λ scanned. scanned ≡ found) }

    ensures unchanged { IsTrue S.tells → S.files shelf.new ≡ S.files shelf.old }
    ensures later { S.faults shelf.old ≤ S.faults shelf.new }
    ensures cause { OnErr result (Rose (S.faults shelf.old) (S.faults shelf.new)) }
    ensures kept { OnOk result (S.faults shelf.new ≡ S.faults shelf.old) }
{
    let mut room = [0u8; PIECE];
    let mut reader = BlockReader::new();
    let mut allowance = Allowance::new(max + 1);
    while allowance.left() > 0 {
        let wanted = PIECE.min(allowance.left());
        match allowance.ask(shelf, name, &mut room[..wanted])? {
            Piece::Missing => return Ok(Scanned::Missing),
            Piece::Count(0) => return Ok(outcome_of(&reader)),
            Piece::Count(count) => feed_all(&mut reader, &room[..count]),
        }
    }
    Ok(Scanned::TooLarge)
}
