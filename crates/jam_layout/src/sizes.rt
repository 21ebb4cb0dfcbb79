ghost use Rattle.std.specs.Prelude.{◌≡◌, ◌+◌, ◌<◌, ◌^◌, ℕ, List, length};
ghost use Rattle.jam_records.specs.Subfields.{subfields_text};
ghost use Rattle.jam_records.specs.declared.message.Slot.TheVariants.{Held};
ghost use Rattle.jam_layout.specs.Fields.{value_subfields};
ghost use Rattle.jam_layout.specs.Headers.{header_size as size_of_header};
ghost use Rattle.jam_layout.specs.Sizes.{slot_size as size_of_slot};

use jam_records::{Bytes, Message};

/// The length of the subfield of a value with so many bytes. An empty value has none.
fn field_size(len: u64) -> u128
    ensures size { (id : ℕ) (value : List ℕ) → length value ≡ len → result ≡ length (subfields_text (value_subfields id value)) }
    ensures small { result < 2 ^ 65 }
{
    if len == 0 { 0 } else { 8 + u128::from(len) }
}

/// The length of the subfield of a text.
fn text_size(text: &Bytes) -> u128
    ensures size { (id : ℕ) → result ≡ length (subfields_text (value_subfields id text.now)) }
    ensures small { result < 2 ^ 65 }
{
    field_size(text.as_slice().len() as u64)
}

/// The length of the header with its subfields of a message, in bytes, where its msgid has so many.
fn header_with(message: &Message, msgid_len: u64) -> u128
    ensures size { (msgid : List ℕ) → length msgid ≡ msgid_len → result ≡ size_of_header (record message.now { msgid = msgid }) }
    ensures small { result < 2 ^ 69 }
{
    let addresses = text_size(&message.origin) + text_size(&message.destination);
    let names = text_size(&message.from) + text_size(&message.to);
    let ids = field_size(msgid_len) + text_size(&message.replyid);
    76 + (addresses + names + ids + text_size(&message.subject))
}

/// The length of the header of a message with its subfields, in bytes.
pub fn header_size(message: &Message) -> u32
    requires { size_of_header message.now < 2 ^ 31 }
    ensures { result ≡ size_of_header message.now }
{
    header_with(message, message.msgid.as_slice().len() as u64) as u32
}

/// How many bytes of a conference's files a message takes with a msgid of so many bytes: its header, its subfields, its
/// body and its index record. It takes no memory.
pub fn message_size(message: &Message, msgid_len: u64) -> u128
    ensures { (msgid : List ℕ) → length msgid ≡ msgid_len → result ≡ size_of_slot (Held (record message.now { msgid = msgid })) }
{
    8 + (header_with(message, msgid_len) + message.body.as_slice().len() as u128)
}
