// Whole files of a conference, of its slots' outline and of their bodies.
ghost use Rattle.std.specs.Prelude.{◌≡◌, ℕ, ◌++◌, List, IfOk, OnOk};
ghost use Rattle.std.specs.List.{flat_map};
ghost use Rattle.jam_layout.specs.Index.{index_records};
ghost use Rattle.jam_layout.specs.Layout.{base_header, layout};
ghost use Rattle.jam_layout.specs.jam_threads.Threading.{AreThreads};
ghost use Rattle.jam_writing.specs.Pieces.{body_piece};

use crate::last::{write_last_headers, write_last_records};
use jam_layout::{Shape, Threads};
use jam_records::{BaseHeader, Bytes, Slot, write_base_header};
use shared_slots::SharedSlots;
use std::alloc::{AllocError, Global};

/// The header of the base of this shape, counter and slots.
fn header_with(shape: &Shape, counter: u32, slots: &SharedSlots) -> BaseHeader
    ensures { (pointers : List ℕ) → result ≡ base_header shape.now (record { counter = counter; slots = slots.now; pointers = pointers }) }
{
    BaseHeader {
        created: shape.created,
        mod_counter: counter,
        active: slots.live_count(),
        password_crc: 0xFFFF_FFFF,
        base_number: 1,
    }
}

/// The bytes of .JHR of a conference of this shape and counter whose slots have this outline: the header of the base,
/// and those of its messages. The threads are those of its slots.
///
/// The error comes where there is no memory.
pub fn write_whole_headers(
    alloc: Global,
    shape: &Shape,
    counter: u32,
    slots: &SharedSlots,
    threads: &Threads,
) -> Result<Bytes, AllocError>
    requires { AreThreads slots.now threads.now }
    ensures { IfOk result (λ jhr. (pointers : List ℕ) → jhr ≡ (layout shape.now (record { counter = counter; slots = slots.now; pointers = pointers })).jhr) }
{
    // The slots are few, and both files are short enough.
    let count = slots.len();
    let _headers_end = slots.header_place(count);
    let _bodies_end = slots.body_place(count);
    let header = header_with(shape, counter, slots);
    let mut jhr = Bytes::from_slice(alloc, &write_base_header(&header))?;
    let headers = write_last_headers(alloc, shape.kind, slots, threads, 0, 0)?;
    jhr.add(headers.as_slice())?;
    Ok(jhr)
}

/// Adds the body of what a slot holds.
fn add_body(jdt: &mut Bytes, slot: &Slot) -> Result<(), AllocError>
    ensures { OnOk result (jdt.new ≡ jdt.old ++ body_piece slot.now) }
{
    match slot {
        Slot::Gone => Ok(()),
        Slot::Held(message) => jdt.add(message.body.as_slice()),
    }
}

/// The bytes of .JDT of these slots: the bodies of their messages, one after the other.
///
/// The error comes where there is no memory.
pub fn write_whole_bodies(alloc: Global, slots: &[Slot]) -> Result<Bytes, AllocError>
    ensures { IfOk result (λ jdt. jdt ≡ flat_map body_piece slots.now) }
{
    let mut jdt = Bytes::new(alloc);
    for slot in slots {
        add_body(&mut jdt, slot)?;
    }
    Ok(jdt)
}

/// The bytes of .JDX of slots of this outline: the record of each.
///
/// The error comes where there is no memory.
pub fn write_whole_records(alloc: Global, slots: &SharedSlots) -> Result<Bytes, AllocError>
    ensures { IfOk result (λ jdx. jdx ≡ index_records 1024 slots.now) }
{
    // The headers are short enough.
    let _first = slots.header_place(0);
    write_last_records(alloc, slots, 0, 1024)
}
