ghost use Rattle.std.specs.Prelude.{◌≡◌, ℕ, List, ◌∷◌, MatchResult};
ghost use Rattle.std.specs.Str.Lines.{lines};
ghost use Rattle.qwk_control.specs.Line.{PlaceLine, IdLine};
ghost use Rattle.qwk_control.specs.Control.{CountReads};
ghost use Rattle.qwk_control.specs.Fault.{FaultBehind};

use crate::fault::ControlError;
use crate::id::id_of;
use crate::lines::take_lines;
use crate::number::{line_number, place_number};

/// The lines 1 to 5, which describe the board.
#[derive(Clone, Copy)]
pub struct BoardLines<'a> {
    pub name: &'a [u8],
    pub city: &'a [u8],
    pub phone: &'a [u8],
    pub sysop: &'a [u8],
    pub serial: &'a [u8],
    pub bbsid: &'a [u8],
}

/// The lines 6 to 11, which describe the packet.
#[derive(Clone, Copy)]
pub struct PacketLines<'a> {
    pub stamp: &'a [u8],
    pub user: &'a [u8],
    pub menu: &'a [u8],
    pub count: u32,
    /// How many conferences there are, less one.
    pub last: u16,
}

/// The number of a line, or 0.
fn count_of(line: &[u8]) -> u32
    ensures { CountReads line.now result }
{
    match line_number(line) {
        Some(count) => count,
        None => 0,
    }
}

/// The board's lines, and what stands behind them.
pub fn board_of(text: &[u8]) -> Result<(BoardLines<'_>, &[u8]), ControlError>
    ensures { MatchResult result
        (λ found. (fifth : List ℕ) × (lines text.now ≡ found.0.name.now ∷ found.0.city.now ∷ found.0.phone.now ∷ found.0.sysop.now ∷ fifth ∷ lines found.1.now) × IdLine fifth found.0.serial.now found.0.bbsid.now)
        (FaultBehind 0 (lines text.now) 5) }
{
    let mut taken = [b"".as_slice(); 5];
    let rest = take_lines(text, 1, &mut taken)?;
    let [name, city, phone, sysop, fifth] = taken;
    let Some((serial, bbsid)) = id_of(fifth) else {
        return Err(ControlError::BadBoardId);
    };
    let board = BoardLines {
        name,
        city,
        phone,
        sysop,
        serial,
        bbsid,
    };
    Ok((board, rest))
}

/// The packet's lines, and what stands behind them.
pub fn packet_of(text: &[u8]) -> Result<(PacketLines<'_>, &[u8]), ControlError>
    ensures { MatchResult result
        (λ found. (ninth tenth eleventh : List ℕ) × (lines text.now ≡ found.0.stamp.now ∷ found.0.user.now ∷ found.0.menu.now ∷ ninth ∷ tenth ∷ eleventh ∷ lines found.1.now) × CountReads tenth found.0.count × PlaceLine eleventh found.0.last)
        (FaultBehind 5 (lines text.now) 11) }
{
    let mut taken = [b"".as_slice(); 6];
    let rest = take_lines(text, 6, &mut taken)?;
    let [stamp, user, menu, _, tenth, eleventh] = taken;
    let Some(last) = place_number(eleventh) else {
        return Err(ControlError::BadNumber { line: 11 });
    };
    let packet = PacketLines {
        stamp,
        user,
        menu,
        count: count_of(tenth),
        last,
    };
    Ok((packet, rest))
}
