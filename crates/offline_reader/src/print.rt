//! Parts of a page, each added at its end.
ghost use Rattle.std.specs.Prelude.{◌≡◌, ◌++◌, IsTrue, OnOk};
ghost use Rattle.offline_reader.specs.Printed as spec;
ghost use Rattle.offline_reader.specs.Printed.{printed, printed_number, printed_line};

use byte_lists::Bytes;
use std::alloc::AllocError;
use text_fields::add_decimal;

fn printed_byte(b: u8) -> u8
    ensures { result ≡ spec.printed_byte b }
{
    if b < 32 || b == 127 { b'?' } else { b }
}

/// Whether a text is printed as it is.
fn is_printed(text: &[u8]) -> bool
    ensures { IsTrue result → printed text.now ≡ text.now }
{
    for b in text {
        if printed_byte(*b) != *b {
            return false;
        }
    }
    true
}

/// Adds a text of the packet, whose control bytes become `?`.
pub fn add_printed(page: &mut Bytes, text: &[u8]) -> Result<(), AllocError>
    ensures { OnOk result (page.new ≡ page.old ++ printed text.now) }
{
    if is_printed(text) {
        return page.add(text);
    }
    for b in text {
        page.add(&[printed_byte(*b)])?;
    }
    Ok(())
}

/// Adds the number of a field, or `-` where it doesn't read.
pub fn add_number(page: &mut Bytes, number: Option<u32>) -> Result<(), AllocError>
    ensures { OnOk result (page.new ≡ page.old ++ printed_number number) }
{
    match number {
        None => page.add(b"-"),
        Some(n) => add_decimal(page, u64::from(n)),
    }
}

/// Adds a line of a name and a text of the packet.
pub fn add_text_line(page: &mut Bytes, name: &[u8], text: &[u8]) -> Result<(), AllocError>
    ensures { OnOk result (page.new ≡ page.old ++ printed_line name.now (printed text.now)) }
{
    page.add(name)?;
    add_printed(page, text)?;
    page.add(b"\n")
}

/// Adds a line of a name and the number of a field.
pub fn add_number_line(page: &mut Bytes, name: &[u8], number: Option<u32>) -> Result<(), AllocError>
    ensures { OnOk result (page.new ≡ page.old ++ printed_line name.now (printed_number number)) }
{
    page.add(name)?;
    add_number(page, number)?;
    page.add(b"\n")
}
