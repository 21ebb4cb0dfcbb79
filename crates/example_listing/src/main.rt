//! Reads a conference from its four JAM files, and lists the messages that aren't deleted.
#![tactic(auto)]

ghost use Rattle.std.specs.Prelude.{◌<◌, ◌^◌, length, IfOk};
ghost use Rattle.jam_base.specs.Valid.{IsShape};

use anyhow::{Result, ensure};
use bstr::BStr;
use byte_lists::Bytes;
use jam_base::{BaseFiles, Reader, Readers, Shape, read_base};
use jam_records::{Kind, Slot};
use std::alloc::{AllocError, Global};

/// What the board says of its first conference: when it was made, and its members with their ids.
fn general(alloc: Global) -> Result<Shape, AllocError>
    ensures { IfOk result IsShape }
{
    let mut readers = Readers::new(alloc);
    let name = Bytes::from_slice(alloc, b"Ann Lee")?;
    readers.add(alloc, Reader { id: 1, name })?;
    let name = Bytes::from_slice(alloc, b"Bob Ray")?;
    readers.add(alloc, Reader { id: 2, name })?;
    Ok(Shape {
        place: 0,
        created: 1_795_963_499,
        kind: Kind::Local,
        readers,
    })
}

/// The bytes of a file of less than 2 GiB.
fn file(rt: &HostRuntime, path: &str) -> Result<Bytes>
    ensures { IfOk result (λ bytes. length bytes < 2 ^ 31) }
{
    let bytes = std::fs::read(rt, path)?;
    ensure!(bytes.len() < 1 << 31, "{path} is too long");
    Ok(Bytes::from_vec(bytes))
}

fn main(rt: HostRuntime) -> Result<()> {
    let files = BaseFiles {
        jhr: file(&rt, "board/C00.JHR")?,
        jdt: file(&rt, "board/C00.JDT")?,
        jdx: file(&rt, "board/C00.JDX")?,
        jlr: file(&rt, "board/C00.JLR")?,
    };
    let base = read_base(rt.alloc(), &files, &general(rt.alloc())?)?;
    for number in 1..=base.slot_count() {
        match base.slot(number) {
            Some(Slot::Held(message)) if !message.deleted => {
                let from = BStr::new(message.from.as_slice());
                let subject = BStr::new(message.subject.as_slice());
                println!(rt; "{number} {from}: {subject} ({})", base.reply_to(number))?;
            }
            _ => {}
        }
    }
    Ok(())
}
