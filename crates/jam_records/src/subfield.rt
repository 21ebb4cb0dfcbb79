ghost use Rattle.std.specs.Prelude.{◌≡◌, ◌++◌, ◌<◌, ◌^◌, length, IfOk, OnOk};
ghost use Rattle.jam_records.specs.Subfields.{subfield_text, subfields_text};

use byteorder::{ByteOrder, LittleEndian};
use record_numbers::{Bytes, Duplicate, List};
use std::alloc::{AllocError, Global};

/// A subfield of a message header.
#[derive(Debug, Drop)]
pub struct Subfield {
    /// LoID: what the value is. 0 is the sender's address, 1 the recipient's, 2 the sender, 3 the recipient, 4 the message id,
    /// 5 the id that is answered, 6 the subject.
    pub lo: u16,
    /// HiID, which revision 1 reserves.
    pub hi: u16,
    /// The value, of which datlen states the length in 32 bits.
    pub value: Bytes,
}

/// Subfields in order.
pub type Subfields = List<Subfield>;

impl Duplicate for Subfield {
    fn duplicate(&self, alloc: Global) -> Result<Subfield, AllocError> {
        Ok(Subfield {
            lo: self.lo,
            hi: self.hi,
            value: self.value.copy(alloc)?,
        })
    }
}

/// Adds the subfield of two ids and a value, which has fewer than 2^31 bytes.
///
/// The error comes where there is no memory. The bytes may then have a part of it more.
#[tactic(auto, unfolding(crate::specs::Subfields::subfield_text))]
pub fn add_subfield(bytes: &mut Bytes, lo: u16, hi: u16, value: &[u8]) -> Result<(), AllocError>
    requires { length value.now < 2 ^ 31 }
    ensures { OnOk result (bytes.new ≡ bytes.old ++ subfield_text (record { lo = lo; hi = hi; value = value.now })) }
{
    let mut head = [0; 8];
    LittleEndian::write_u16_into(&[lo, hi], &mut head[..4]);
    LittleEndian::write_u32(&mut head[4..], value.len() as u32);
    bytes.add(&head)?;
    bytes.add(value)
}

/// The bytes of the subfields, one after the other, which are fewer than 2^31.
///
/// The error comes where there is no memory.
pub fn write_subfields(alloc: Global, value: &Subfields) -> Result<Bytes, AllocError>
    requires { length (subfields_text value.now) < 2 ^ 31 }
    ensures { IfOk result (λ bytes. bytes ≡ subfields_text value.now) }
{
    let mut bytes = Bytes::new(alloc);
    for subfield in value.as_slice() {
        add_subfield(
            &mut bytes,
            subfield.lo,
            subfield.hi,
            subfield.value.as_slice(),
        )?;
    }
    Ok(bytes)
}
