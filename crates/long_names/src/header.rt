//! Parts of a message that are copied.
ghost use Rattle.std.specs.Prelude.{◌≡◌, ◌++◌, IfOk, OnOk};
ghost use Rattle.long_names.specs.Plain.{with_names as with_names_of};

use qwk_blocks::Header;
use std::alloc::{AllocError, Global};
use text_fields::{Bytes, Lines};

/// A copy of a header with other names and another subject.
pub(crate) fn with_names(
    alloc: Global,
    header: &Header,
    to: &[u8],
    from: &[u8],
    subject: &[u8],
) -> Result<Header, AllocError>
    ensures { IfOk result (λ made. made ≡ with_names_of to.now from.now subject.now header.now) }
{
    Ok(Header {
        status: header.status,
        number: header.number,
        date: header.date,
        time: header.time,
        to: Bytes::from_slice(alloc, to)?,
        from: Bytes::from_slice(alloc, from)?,
        subject: Bytes::from_slice(alloc, subject)?,
        password: header.password.copy(alloc)?,
        reference: header.reference,
        activity: header.activity,
        conference: header.conference,
        logical: header.logical,
        tag: header.tag,
    })
}

/// Adds copies of lines at the end of others.
pub(crate) fn add_lines(alloc: Global, to: &mut Lines, lines: &[Bytes]) -> Result<(), AllocError>
    ensures { OnOk result (to.new ≡ to.old ++ lines.now) }
{
    for line in lines {
        to.add(line.copy(alloc)?)?;
    }
    Ok(())
}
