ghost use Rattle.std.specs.Prelude.{◌≡◌, ◌+◌, ◌<◌, ◌^◌, true, false, length, MatchOption};
ghost use Rattle.jam_adopt.specs.Leaps.{AreAllLeaps};
ghost use Rattle.jam_adopt.specs.Verdicts.{wrong_header, header_in, wrong_subfields as wrong_fields_of};

use crate::leaps::Leaps;
use jam_records::{MessageHeader, read_message_header};

/// The length of the fixed part of a header in bytes.
const HEADER: usize = 76;

/// The fixed part of the header at an offset, or None where it passes the end of .JHR, or its signature or its revision
/// is wrong.
#[tactic(auto, using(crate::proofs::HeaderTests::past_wrong))]
pub(crate) fn header_at(jhr: &[u8], offset: u32) -> Option<MessageHeader>
    ensures { MatchOption result (wrong_header jhr.now offset ≡ true) (λ header. (wrong_header jhr.now offset ≡ false) × (header ≡ header_in jhr.now offset)) }
{
    let at = offset as usize;
    if jhr.len() < at {
        return None;
    }
    read_message_header(&jhr[at..]).ok()
}

/// Where the subfields of a header at an offset begin and end.
pub(crate) fn field_places(offset: u32, header: &MessageHeader) -> (usize, usize)
    ensures { result ≡ (offset + 76, offset + 76 + header.now.subfield_len) }
{
    let from = offset as usize + HEADER;
    (from, from + header.subfield_len as usize)
}

/// Whether its subfields pass the end of .JHR, or don't fill SubfieldLen.
#[tactic(auto, unfolding(crate::specs::Verdicts::wrong_subfields))]
pub(crate) fn wrong_fields(jhr: &[u8], leaps: &Leaps, offset: u32, header: &MessageHeader) -> bool
    requires short { length jhr.now < 2 ^ 31 }
    requires leaps { AreAllLeaps jhr.now leaps.now }
    ensures { result ≡ wrong_fields_of jhr.now offset header.now }
{
    let (from, to) = field_places(offset, header);
    jhr.len() < to || !leaps.are_filled(jhr, from, to)
}
