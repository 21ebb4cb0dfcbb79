ghost use Rattle.std.specs.Prelude.{◌≡◌, IfOk};
ghost use Rattle.fts_packet.specs.Tossed.{toss_verdict as verdict_of};

use crate::conference::place_for;
use crate::draft::draft_of;
use crate::packet::FtsMessage;
use crate::rule::TossRule;
use crate::rules::{missing, refusal_of};
use crate::value::tag_of;
use jam_records::Message;
use setup_file::Setup;
use std::alloc::{AllocError, Global};

/// What becomes of a packed message, before the messages of its conference are looked at.
#[derive(Debug, Drop)]
pub enum TossDraft {
    /// The conference in this place, from 0, takes the message. Its msgid is empty where the text gives none.
    Post { place: u8, message: Message },
    /// This is the first rule that refuses the message, from `Area` to `Length`.
    Refused(TossRule),
}

/// What becomes of a packed message that is tossed at this moment, in Unix seconds. It is the first rule
/// that refuses the message, in the order of `TossRule` and up to `Length`. Where none does, it is its
/// draft and the place of the conference that takes it, below 64.
///
/// The error comes where there is no memory.
pub fn toss_draft(
    alloc: Global,
    setup: &Setup,
    message: &FtsMessage,
    now: u32,
) -> Result<TossDraft, AllocError>
    ensures { IfOk result (λ draft. draft ≡ verdict_of setup.now message.now now) }
{
    let tag = tag_of(message.lines.as_slice());
    let Some(place) = place_for(setup, tag) else {
        return Ok(TossDraft::Refused(missing(tag)));
    };
    let draft = draft_of(alloc, message, now)?;
    match refusal_of(message, &draft) {
        Some(rule) => Ok(TossDraft::Refused(rule)),
        None => Ok(TossDraft::Post {
            place,
            message: draft,
        }),
    }
}
