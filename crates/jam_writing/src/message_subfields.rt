ghost use Rattle.std.specs.Prelude.{◌≡◌, ◌++◌, ◌<◌, ◌^◌, length, OnOk};
ghost use Rattle.jam_records.specs.Subfields.{subfields_text};
ghost use Rattle.jam_layout.specs.Fields.{value_subfields, subfields_of};

use jam_records::{Bytes, Message, add_subfield};
use std::alloc::AllocError;

/// Adds the subfield of a value. A value that is empty has none.
#[tactic(auto, using(jam_layout::proofs::SizeLaws::field_length))]
fn add_value(jhr: &mut Bytes, id: u16, value: &Bytes) -> Result<(), AllocError>
    requires { length (subfields_text (value_subfields id value.now)) < 2 ^ 31 }
    ensures { OnOk result (jhr.new ≡ jhr.old ++ subfields_text (value_subfields id value.now)) }
{
    if value.as_slice().is_empty() {
        return Ok(());
    }
    add_subfield(jhr, id, 0, value.as_slice())
}

/// Adds the subfields of a message, in rising id, which have fewer than 2^31 bytes.
///
/// The error comes where there is no memory. The bytes may then have a part of them more.
#[tactic(auto, using(jam_layout::proofs::SizeLaws::whole_length))]
pub fn add_subfields(jhr: &mut Bytes, message: &Message) -> Result<(), AllocError>
    requires { length (subfields_text (subfields_of message.now)) < 2 ^ 31 }
    ensures { OnOk result (jhr.new ≡ jhr.old ++ subfields_text (subfields_of message.now)) }
{
    add_value(jhr, 0, &message.origin)?;
    add_value(jhr, 1, &message.destination)?;
    add_value(jhr, 2, &message.from)?;
    add_value(jhr, 3, &message.to)?;
    add_value(jhr, 4, &message.msgid)?;
    add_value(jhr, 5, &message.replyid)?;
    add_value(jhr, 6, &message.subject)?;
    Ok(())
}
