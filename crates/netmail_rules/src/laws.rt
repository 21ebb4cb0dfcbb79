//! Laws of verdicts.
ghost use Rattle.std.specs.Prelude.{◌≡◌, ◌<◌, ◌≤◌, ℕ, List, Some, IsTrue};
ghost use Rattle.qwk_blocks.specs.declared.message.QwkMessage.{QwkMessage};
ghost use Rattle.jam_records.specs.declared.message.Message.{Message};
ghost use Rattle.jam_layout.specs.Fields.{is_text};
ghost use Rattle.jam_layout.specs.Limits.{slot_limit};
ghost use Rattle.jam_layout.specs.Messages.{IsMessage, IsTyped};
ghost use Rattle.netmail_rules.specs.Fits.{IsView, HasShortTexts, with_msgid};
ghost use Rattle.netmail_rules.specs.Verdict.{verdict};
ghost use Rattle.netmail_rules.specs.Rules.{new_bytes};
ghost use Rattle.netmail_rules.specs.declared.verdict.Verdict.TheVariants.{Post};
ghost use Rattle.netmail_rules.specs.declared.view.ConferenceView.{ConferenceView};
ghost use Rattle.netmail_rules.specs.declared.view.View.{View};

/// A posted draft, with the msgid that it gets, is a message that its conference may hold, and the conference
/// has a slot for it and the data files have room.
pub fn posted_fits()
    ensures message { (v : View) (c : ConferenceView) (m : QwkMessage) (now : ℕ) (draft : Message) (msgid : List ℕ)
        → v.conference ≡ Some c → IsView v → HasShortTexts m.header → verdict v m now ≡ Post draft
        → IsTrue (is_text 80 msgid) → IsTyped (with_msgid msgid draft) → IsMessage c.kind (with_msgid msgid draft) }
    ensures room { (v : View) (c : ConferenceView) (m : QwkMessage) (now : ℕ) (draft : Message)
        → v.conference ≡ Some c → verdict v m now ≡ Post draft → (c.slots < slot_limit) × (new_bytes draft c.msgid_len ≤ v.room) }
{}
