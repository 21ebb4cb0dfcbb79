ghost use Rattle.std.specs.Prelude.{◌≡◌, ◌<◌, Some, length, MatchResult};
ghost use Rattle.text_fields.specs.Split.{SplitsAt};
ghost use Rattle.fts_packet.specs.Packet.{is_end as is_end_of};
ghost use Rattle.fts_packet.specs.Fault.{message_rule, field_fault as field_fault_of, field_rule, fields_rule, text_rule};
ghost use Rattle.fts_packet.specs.Answer.{FrontTaken, FieldsRead, PartsRead};

use crate::fault::FtsRule;
use record_numbers::u16_at;
use text_fields::split_at_byte;

/// The bytes of a packed message before To.
const FRONT: usize = 34;

/// A packed message before memory is taken for it, and the bytes behind it.
#[derive(Clone, Copy)]
pub struct Parts<'a> {
    /// The 34 bytes before To.
    pub front: &'a [u8],
    pub to: &'a [u8],
    pub from: &'a [u8],
    pub subject: &'a [u8],
    pub text: &'a [u8],
    /// What follows the message.
    pub rest: &'a [u8],
}

/// Whether the packet ends here: no bytes are left, or a number of 0 and free bytes.
pub fn is_end(rest: &[u8]) -> bool
    ensures { result ≡ is_end_of rest.now }
{
    if rest.len() < 2 {
        return rest.is_empty();
    }
    u16_at(rest, 0) == 0
}

/// The bytes before To, and what follows them; or the rule that they break.
fn front_of(bytes: &[u8]) -> Result<(&[u8], &[u8]), FtsRule>
    ensures { MatchResult result
        (λ parts. FrontTaken bytes.now parts.0.now parts.1.now)
        (λ rule. message_rule bytes.now ≡ Some rule) }
{
    if bytes.len() < 2 {
        return Err(FtsRule::Cut);
    }
    if u16_at(bytes, 0) != 2 {
        return Err(FtsRule::Kind);
    }
    if bytes.len() < FRONT {
        return Err(FtsRule::Cut);
    }
    Ok(bytes.split_at(FRONT))
}

/// The rule that a field breaks which has no NUL in so many bytes.
fn field_fault(bytes: &[u8], width: usize) -> FtsRule
    ensures { result ≡ field_fault_of width bytes.now }
{
    if bytes.len() < width {
        return FtsRule::Cut;
    }
    FtsRule::Field
}

/// A field that has at most so many bytes with its NUL, and what follows it; or the rule that it breaks. A
/// NUL that stands further behind ends the reading, so no byte is looked at for two fields.
fn field_of(bytes: &[u8], width: usize) -> Result<(&[u8], &[u8]), FtsRule>
    ensures { MatchResult result
        (λ parts. SplitsAt 0 bytes.now parts.0.now parts.1.now × (length parts.0.now < width))
        (λ rule. field_rule width bytes.now ≡ Some rule) }
{
    let Some((text, rest)) = split_at_byte(bytes, 0) else {
        return Err(field_fault(bytes, width));
    };
    if text.len() >= width {
        return Err(field_fault(bytes, width));
    }
    Ok((text, rest))
}

/// A text up to its NUL, and what follows it.
fn text_of(bytes: &[u8]) -> Result<(&[u8], &[u8]), FtsRule>
    ensures { MatchResult result
        (λ parts. SplitsAt 0 bytes.now parts.0.now parts.1.now)
        (λ rule. text_rule bytes.now ≡ Some rule) }
{
    match split_at_byte(bytes, 0) {
        Some(parts) => Ok(parts),
        None => Err(FtsRule::Cut),
    }
}

/// To, From, Subject and the text, which follow the front; or the first rule that they break.
fn fields_of<'a>(front: &'a [u8], bytes: &'a [u8]) -> Result<Parts<'a>, FtsRule>
    ensures { MatchResult result
        (λ parts. FieldsRead front.now bytes.now parts)
        (λ rule. fields_rule bytes.now ≡ Some rule) }
{
    let (to, behind_to) = field_of(bytes, 36)?;
    let (from, behind_from) = field_of(behind_to, 36)?;
    let (subject, behind_subject) = field_of(behind_from, 72)?;
    let (text, rest) = text_of(behind_subject)?;
    Ok(Parts {
        front,
        to,
        from,
        subject,
        text,
        rest,
    })
}

/// The parts of the message that begins the bytes, which don't end the packet; or the first rule that they
/// break. It takes no memory.
pub fn parts_of(bytes: &[u8]) -> Result<Parts<'_>, FtsRule>
    ensures { MatchResult result
        (PartsRead bytes.now)
        (λ rule. message_rule bytes.now ≡ Some rule) }
{
    let (front, behind) = front_of(bytes)?;
    fields_of(front, behind)
}
