ghost use Rattle.std.specs.Prelude.{◌≡◌, [], IfOk};
ghost use Rattle.jam_layout.specs.Layout.{layout};

use crate::jlr::write_jlr;
use jam_layout::{BaseFiles, Shape};
use jam_records::{BaseHeader, Bytes, write_base_header};
use std::alloc::{AllocError, Global};

/// The header of a base without messages that never changed.
fn first_header(created: u32) -> BaseHeader
    ensures { result ≡ record { created = created; mod_counter = 0; active = 0; password_crc = 0xFFFF_FFFF; base_number = 1 } }
{
    BaseHeader {
        created,
        mod_counter: 0,
        active: 0,
        password_crc: 0xFFFF_FFFF,
        base_number: 1,
    }
}

/// The four files of a conference of this shape that has no slots and never changed (JAM message base proposal, revision
/// 1), whose readers have these pointers.
///
/// The error comes where there is no memory.
pub fn write_first(alloc: Global, shape: &Shape, pointers: &[u32]) -> Result<BaseFiles, AllocError>
    ensures { IfOk result (λ files. files ≡ layout shape.now (record { counter = 0; slots = []; pointers = pointers.now })) }
{
    let header = write_base_header(&first_header(shape.created));
    Ok(BaseFiles {
        jhr: Bytes::from_slice(alloc, &header)?,
        jdt: Bytes::new(alloc),
        jdx: Bytes::new(alloc),
        jlr: write_jlr(alloc, &shape.readers, pointers)?,
    })
}
