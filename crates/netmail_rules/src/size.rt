ghost use Rattle.std.specs.Prelude.{◌≡◌};
ghost use Rattle.netmail_rules.specs.Rules.{new_bytes as new_bytes_of};

use jam_layout::message_size;
use jam_records::Message;

/// How many bytes of a conference's files a draft takes with a msgid of so many bytes: its header, its
/// subfields, its body and its index record. It takes no memory.
pub fn new_bytes(draft: &Message, msgid_len: u32) -> u128
    ensures { result ≡ new_bytes_of draft.now msgid_len }
{
    message_size(draft, u64::from(msgid_len))
}
