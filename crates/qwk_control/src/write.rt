ghost use Rattle.std.specs.Prelude.{◌≡◌, ◌≤◌, ◌-◌, ◌++◌, ◌∷◌, [], decimal, length, OnOk, IfOk};
ghost use Rattle.text_fields.specs.Lines.{crlf_line, text_of_lines};
ghost use Rattle.qwk_control.specs.Written.{conference_lines, control_text, WritableControl};

use crate::control::{Control, Listed};
use byte_lists::Bytes;
use itoa::Buffer;
use std::alloc::{AllocError, Global};
use text_fields::add_line;

/// Adds the line of a number.
fn add_number(out: &mut Bytes, number: u32) -> Result<(), AllocError>
    ensures { OnOk result (out.new ≡ out.old ++ crlf_line (decimal number)) }
{
    let mut buffer = Buffer::new();
    add_line(out, buffer.format(number).as_bytes())
}

/// Adds the line of the serial and the board id.
fn add_id(out: &mut Bytes, serial: &[u8], bbsid: &[u8]) -> Result<(), AllocError>
    ensures { OnOk result (out.new ≡ out.old ++ crlf_line (serial.now ++ 44 ∷ bbsid.now)) }
{
    out.add(serial)?;
    out.add(b",")?;
    add_line(out, bbsid)
}

/// Adds the lines of the board, 1 to 5.
fn add_board(out: &mut Bytes, control: &Control) -> Result<(), AllocError>
    ensures { OnOk result (out.new ≡ out.old ++ text_of_lines (control.now.board ∷ control.now.city ∷ control.now.phone ∷ control.now.sysop ∷ (control.now.serial ++ 44 ∷ control.now.bbsid) ∷ [])) }
{
    add_line(out, control.board.as_slice())?;
    add_line(out, control.city.as_slice())?;
    add_line(out, control.phone.as_slice())?;
    add_line(out, control.sysop.as_slice())?;
    add_id(out, control.serial.as_slice(), control.bbsid.as_slice())
}

/// Adds the lines of the packet, 6 to 11.
fn add_packet(out: &mut Bytes, control: &Control) -> Result<(), AllocError>
    requires some { 1 ≤ length control.now.conferences }
    requires many { length control.now.conferences ≤ 65536 }
    ensures { OnOk result (out.new ≡ out.old ++ text_of_lines (control.now.stamp ∷ control.now.user ∷ control.now.menu ∷ (48 ∷ []) ∷ decimal control.now.count ∷ decimal (length control.now.conferences - 1) ∷ [])) }
{
    add_line(out, control.stamp.as_slice())?;
    add_line(out, control.user.as_slice())?;
    add_line(out, control.menu.as_slice())?;
    add_line(out, b"0")?;
    add_number(out, control.count)?;
    add_number(out, (control.conferences.len() - 1) as u32)
}

/// Adds two lines for each conference.
fn add_conferences(out: &mut Bytes, conferences: &Listed) -> Result<(), AllocError>
    ensures { OnOk result (out.new ≡ out.old ++ text_of_lines (conference_lines conferences.now)) }
{
    for (number, name) in conferences.as_slice() {
        add_number(out, u32::from(*number))?;
        add_line(out, name.as_slice())?;
    }
    Ok(())
}

/// Adds the lines of the files.
fn add_files(out: &mut Bytes, control: &Control) -> Result<(), AllocError>
    ensures { OnOk result (out.new ≡ out.old ++ text_of_lines (control.now.welcome ∷ control.now.news ∷ control.now.goodbye ∷ [])) }
{
    add_line(out, control.welcome.as_slice())?;
    add_line(out, control.news.as_slice())?;
    add_line(out, control.goodbye.as_slice())
}

/// The written form as CONTROL.DAT, by Lee's QWK Mail Packet File Layout of 1992: each line with CR LF
/// behind it. The control can be written, as `Control::writable` says:
///
/// - No text has CR or LF.
/// - The serial has no comma.
/// - The board id has 1 to 8 bytes from 21h to 7Eh.
/// - The count is at most 999,999,999.
/// - There are 1 to 65,536 conferences.
///
/// The error comes where there is no memory.
pub fn write_control(alloc: Global, control: &Control) -> Result<Bytes, AllocError>
    requires { WritableControl control.now }
    ensures { IfOk result (λ text. text ≡ control_text control.now) }
{
    let mut out = Bytes::new(alloc);
    add_board(&mut out, control)?;
    add_packet(&mut out, control)?;
    add_conferences(&mut out, &control.conferences)?;
    add_files(&mut out, control)?;
    Ok(out)
}
