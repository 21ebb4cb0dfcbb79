ghost use Rattle.std.specs.Prelude.{◌≡◌, IfOk};
ghost use Rattle.netmail_rules.specs.Verdict.{plain_verdict, verdict};

use crate::draft::{draft_of, named};
use crate::rule::Rule;
use crate::rules::{first_refusing, refusal_in, rules_before};
use crate::view::View;
use jam_records::Message;
use long_names::{plain, reads_as_is};
use qwk_blocks::QwkMessage;
use std::alloc::{AllocError, Global};

/// What becomes of an uploaded message.
#[derive(Debug, Drop)]
pub enum Verdict {
    /// The board keeps this message. Its msgid is empty.
    Post(Message),
    /// This is the first rule that refuses the message.
    Refused(Rule),
}

/// The verdict on a message as it is read.
fn judge_plain(
    alloc: Global,
    view: &View,
    message: &QwkMessage,
    now: u32,
) -> Result<Verdict, AllocError>
    ensures { IfOk result (λ judged. judged ≡ plain_verdict view.now message.now now) }
{
    if let Some(rule) = first_refusing(&rules_before(view, message)) {
        return Ok(Verdict::Refused(rule));
    }
    let named = named(view, message);
    let draft = draft_of(alloc, view, message, named, now)?;
    match refusal_in(view, message, named, &draft) {
        Some(rule) => Ok(Verdict::Refused(rule)),
        None => Ok(Verdict::Post(draft)),
    }
}

/// The verdict on a message, uploaded at this moment in Unix seconds: the first rule that refuses, in the
/// order of `Rule`, or the draft of what the board keeps. The message is judged and kept with its long names
/// and its long subject in their fields. The rules are tried on the view in place of a board.
///
/// The error comes where there is no memory.
pub fn judge(
    alloc: Global,
    view: &View,
    message: &QwkMessage,
    now: u32,
) -> Result<Verdict, AllocError>
    ensures { IfOk result (λ judged. judged ≡ verdict view.now message.now now) }
{
    if reads_as_is(message) {
        return judge_plain(alloc, view, message, now);
    }
    let read = plain(alloc, message)?;
    judge_plain(alloc, view, &read, now)
}
