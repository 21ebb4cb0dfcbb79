// Reading the bytes of the journal.
ghost use Rattle.std.specs.Prelude.{◌≡◌, ℕ, ◌+◌, ◌<◌, ◌≤◌, ◌^◌, List, false, length, take, Some, None, IfSome, MatchOption};
ghost use Rattle.record_numbers.specs.Numbers.{u16_at};
ghost use Rattle.intent_journal.specs.Journal.{begins_patch, begins_body, front, patch_by, patches_of, are_once};
ghost use Rattle.intent_journal.specs.Found.{HasHead};

use crate::marks::FileMarks;
use crate::patch::{PUT, WHOLE};
use door_outside::FileId;
use record_numbers::{u16_at, u32_at};

/// How many bytes stand before those of a patch.
const PATCH_HEADER: usize = 11;

/// How many bytes stand before the patches.
pub(crate) const JOURNAL_HEADER: usize = 13;

/// What stands before the length of a patch.
#[derive(Clone, Copy)]
pub(crate) struct PatchHead {
    /// Whether its bytes become all bytes of the file.
    pub(crate) whole: bool,
    /// The file, which isn't the journal.
    pub(crate) file: FileId,
    /// Where in it the bytes begin.
    pub(crate) at: u32,
}

/// Whether a text of at least 11 bytes, which names this file, begins with a patch.
fn is_patch(file: FileId, text: &[u8]) -> bool
    requires long { 11 ≤ length text.now }
    requires names { file ≡ u16_at 1 text.now }
    ensures { result ≡ begins_patch text.now }
{
    let at = u32_at(text, 3) as usize;
    let len = u32_at(text, 7) as usize;
    let kind = text[0] == WHOLE && at == 0 || text[0] == PUT;
    let data = file != FileId::journal();
    PATCH_HEADER + len <= text.len() && kind && at + len < 0x8000_0000 && data
}

#[tactic(auto, unfolding(crate::specs::Journal::front))]
/// The patch at the front of a text: its head, its bytes and what follows them.
pub(crate) fn front_patch(text: &[u8]) -> Option<(PatchHead, &[u8], &[u8])>
    ensures in_range { IfSome result (λ r. r.0.at + length r.1.now < 2 ^ 31) }
    ensures value { MatchOption result (front text.now ≡ None) (λ r. front text.now ≡ Some (patch_by r.0.whole r.0.file r.0.at r.1.now, r.2.now)) }
{
    if text.len() < PATCH_HEADER {
        return None;
    }
    let file = FileId::new(u16_at(text, 1))?;
    if !is_patch(file, text) {
        return None;
    }
    let head = PatchHead {
        whole: text[0] == WHOLE,
        file,
        at: u32_at(text, 3),
    };
    let end = PATCH_HEADER + u32_at(text, 7) as usize;
    Some((head, &text[PATCH_HEADER..end], &text[end..]))
}

/// Whether a text spells so many patches of which no two clash.
pub(crate) fn is_intent(count: u32, text: &[u8]) -> bool
    ensures { result ≡ are_once (patches_of count text.now) }
{
    let mut seen = FileMarks::new();
    let mut rest = text;
    for _done in 0..count {
        let Some((head, _, after)) = front_patch(rest) else {
            return false;
        };
        if seen.clashes(head.file, head.whole) {
            return false;
        }
        seen.mark(head.file, head.whole);
        rest = after;
    }
    rest.is_empty()
}

/// What stands between the letters of a body and its patches.
#[derive(Clone, Copy)]
pub(crate) struct BodyHead {
    /// How many patches it says that there are.
    pub(crate) count: u32,
    /// How many bytes their text has.
    pub(crate) len: u32,
}

/// The head of the body, by the gate and the 12 bytes behind it, or by fewer where the journal has no more.
pub(crate) fn body_head(front: &[u8]) -> Option<BodyHead>
    ensures { (journal : List ℕ) → front.now ≡ take 13 journal → MatchOption result (begins_body journal ≡ false) (λ head. HasHead head.count head.len journal) }
{
    if front.len() < JOURNAL_HEADER {
        return None;
    }
    if !front[1..].starts_with(b"QDJ1") {
        return None;
    }
    Some(BodyHead {
        count: u32_at(front, 5),
        len: u32_at(front, 9),
    })
}
