ghost use Rattle.std.specs.Prelude.{◌≡◌, ◌⊎◌, Err, Ok, MatchResult, IfOk};
ghost use Rattle.std.specs.Str.Lines.{lines};
ghost use Rattle.byte_lists.specs.Memory.{UnlessMemory};
ghost use Rattle.qwk_control.specs.Line.{or_empty};
ghost use Rattle.qwk_control.specs.Control.{ControlReads};
ghost use Rattle.qwk_control.specs.Fault.{ControlFault, MemoryOr};
ghost use Rattle.qwk_control.specs.declared.control.Control.{Control};
ghost use Rattle.qwk_control.specs.declared.fault.ControlError.{ControlError};
ghost use Rattle.qwk_control.specs.declared.fault.ControlError.TheVariants.{OutOfMemory};

use crate::conferences::conferences_of;
use crate::control::{Control, Listed};
use crate::fault::ControlError;
use crate::head::{BoardLines, PacketLines, board_of, packet_of};
use crate::lines::line_or_empty;
use byte_lists::Bytes;
use std::alloc::{AllocError, Global};

/// The texts of a board's lines.
#[derive(Drop)]
struct BoardTexts {
    name: Bytes,
    city: Bytes,
    phone: Bytes,
    sysop: Bytes,
    serial: Bytes,
    bbsid: Bytes,
}

/// The texts of a packet's lines.
#[derive(Drop)]
struct PacketTexts {
    stamp: Bytes,
    user: Bytes,
    menu: Bytes,
}

/// The names of the three files.
#[derive(Drop)]
struct FileNames {
    welcome: Bytes,
    news: Bytes,
    goodbye: Bytes,
}

/// Copies of a board's lines.
fn board_texts(alloc: Global, board: &BoardLines<'_>) -> Result<BoardTexts, AllocError>
    ensures { IfOk result (λ texts. (texts.name ≡ board.now.name.now) × (texts.city ≡ board.now.city.now) × (texts.phone ≡ board.now.phone.now) × (texts.sysop ≡ board.now.sysop.now) × (texts.serial ≡ board.now.serial.now) × (texts.bbsid ≡ board.now.bbsid.now)) }
{
    Ok(BoardTexts {
        name: Bytes::from_slice(alloc, board.name)?,
        city: Bytes::from_slice(alloc, board.city)?,
        phone: Bytes::from_slice(alloc, board.phone)?,
        sysop: Bytes::from_slice(alloc, board.sysop)?,
        serial: Bytes::from_slice(alloc, board.serial)?,
        bbsid: Bytes::from_slice(alloc, board.bbsid)?,
    })
}

/// Copies of a packet's lines.
fn packet_texts(alloc: Global, packet: &PacketLines<'_>) -> Result<PacketTexts, AllocError>
    ensures { IfOk result (λ texts. (texts.stamp ≡ packet.now.stamp.now) × (texts.user ≡ packet.now.user.now) × (texts.menu ≡ packet.now.menu.now)) }
{
    Ok(PacketTexts {
        stamp: Bytes::from_slice(alloc, packet.stamp)?,
        user: Bytes::from_slice(alloc, packet.user)?,
        menu: Bytes::from_slice(alloc, packet.menu)?,
    })
}

/// The names of the three files, at the start of a text.
fn file_names(alloc: Global, text: &[u8]) -> Result<FileNames, AllocError>
    ensures { IfOk result (λ names. (names.welcome ≡ or_empty (lines text.now) 1) × (names.news ≡ or_empty (lines text.now) 2) × (names.goodbye ≡ or_empty (lines text.now) 3)) }
{
    let (welcome, rest) = line_or_empty(text);
    let (news, last) = line_or_empty(rest);
    let (goodbye, _) = line_or_empty(last);
    Ok(FileNames {
        welcome: Bytes::from_slice(alloc, welcome)?,
        news: Bytes::from_slice(alloc, news)?,
        goodbye: Bytes::from_slice(alloc, goodbye)?,
    })
}

/// The value of lines that keep their rules. The text is what stands behind those of the conferences.
fn control_of(
    alloc: Global,
    board: &BoardLines<'_>,
    packet: &PacketLines<'_>,
    conferences: Listed,
    text: &[u8],
) -> Result<Control, AllocError>
    ensures board { IfOk result (λ control. (control.board ≡ board.now.name.now) × (control.city ≡ board.now.city.now) × (control.phone ≡ board.now.phone.now) × (control.sysop ≡ board.now.sysop.now) × (control.serial ≡ board.now.serial.now) × (control.bbsid ≡ board.now.bbsid.now)) }
    ensures packet { IfOk result (λ control. (control.stamp ≡ packet.now.stamp.now) × (control.user ≡ packet.now.user.now) × (control.menu ≡ packet.now.menu.now) × (control.count ≡ packet.now.count)) }
    ensures conferences { IfOk result (λ control. control.conferences ≡ conferences) }
    ensures files { IfOk result (λ control. (control.welcome ≡ or_empty (lines text.now) 1) × (control.news ≡ or_empty (lines text.now) 2) × (control.goodbye ≡ or_empty (lines text.now) 3)) }
{
    let about = board_texts(alloc, board)?;
    let made = packet_texts(alloc, packet)?;
    let files = file_names(alloc, text)?;
    Ok(Control {
        board: about.name,
        city: about.city,
        phone: about.phone,
        sysop: about.sysop,
        serial: about.serial,
        bbsid: about.bbsid,
        stamp: made.stamp,
        user: made.user,
        menu: made.menu,
        count: packet.count,
        conferences,
        welcome: files.welcome,
        news: files.news,
        goodbye: files.goodbye,
    })
}

/// The value of a text, or its first fault.
fn control_in(alloc: Global, bytes: &[u8]) -> Result<Control, ControlError>
    ensures { MatchResult result (ControlReads bytes.now) (MemoryOr (ControlFault bytes.now)) }
{
    let (board, behind_board) = board_of(bytes)?;
    let (packet, behind_packet) = packet_of(behind_board)?;
    let (conferences, rest) = conferences_of(alloc, behind_packet, packet.last)?;
    Ok(control_of(alloc, &board, &packet, conferences, rest)?)
}

/// The value of the bytes of CONTROL.DAT, by Lee's QWK Mail Packet File Layout of 1992, or their first
/// fault. The answer may be want of memory in place of either. Lines behind the last that counts aren't
/// looked at.
pub fn read_control(alloc: Global, bytes: &[u8]) -> Result<Control, ControlError>
    // A value is answered exactly where the bytes read as it, unless memory runs out.
    ensures ok { IfOk result (λ control. ControlReads bytes.now control) }
    ensures only_ok { (control : Control) → ControlReads bytes.now control → UnlessMemory ControlError.OutOfMemory result (Ok control) }

    // So is a fault, exactly where it is the first one.
    ensures fault { (error : ControlError) → result ≡ Err error → (error ≡ OutOfMemory) ⊎ ControlFault bytes.now error }
    ensures only_fault { (error : ControlError) → ControlFault bytes.now error → UnlessMemory ControlError.OutOfMemory result (Err error) }
{
    control_in(alloc, bytes)
}
