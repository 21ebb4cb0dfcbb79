//! Laws of packets.
ghost use Rattle.std.specs.Prelude.{◌≡◌, ◌↔◌, ℕ, List, length, Some, Contains, slice_get, IsTrue};
ghost use Rattle.jam_records.specs.declared.message.Message.{Message};
ghost use Rattle.jam_layout.specs.Fields.{is_text};
ghost use Rattle.jam_layout.specs.Messages.{EmptyOr, IsMessage, IsTyped};
ghost use Rattle.setup_file.specs.declared.conference.Conference.{Conference};
ghost use Rattle.setup_file.specs.declared.fields.SetupFields.{SetupFields};
ghost use Rattle.netmail_rules.specs.Fits.{with_msgid};
ghost use Rattle.fts_packet.specs.Packet.{FtsReads};
ghost use Rattle.fts_packet.specs.Date.{moment_of_date};
ghost use Rattle.fts_packet.specs.Spelled.{DateReads};
ghost use Rattle.fts_packet.specs.Fault.{FtsFault};
ghost use Rattle.fts_packet.specs.Tossed.{toss_verdict};
ghost use Rattle.fts_packet.specs.declared.fault.FtsRule.{FtsRule};
ghost use Rattle.fts_packet.specs.declared.packet.FtsMessage.{FtsMessage};
ghost use Rattle.fts_packet.specs.declared.toss.TossDraft.TheVariants.{Post};

/// Bytes read as one list of messages at most.
pub fn one_reading()
    ensures { (bytes : List ℕ) (a b : List FtsMessage) → FtsReads bytes a → FtsReads bytes b → a ≡ b }
{}

/// Bytes have one first fault at most, and none where they read as messages.
pub fn one_fault()
    ensures rule { (bytes : List ℕ) (p q : FtsRule) (m n : ℕ) → FtsFault bytes p m → FtsFault bytes q n → p ≡ q }
    ensures place { (bytes : List ℕ) (p q : FtsRule) (m n : ℕ) → FtsFault bytes p m → FtsFault bytes q n → m ≡ n }
    ensures none { (bytes : List ℕ) (messages : List FtsMessage) (rule : FtsRule) (at : ℕ) → FtsReads bytes messages → ¬ FtsFault bytes rule at }
{}

/// The 20 bytes of a date read as a moment exactly where they spell its second.
pub fn spelled_date_reads()
    ensures { (date : List ℕ) (seconds : ℕ) → length date ≡ 20 →
        (moment_of_date date ≡ Some seconds) ↔ DateReads date seconds }
{}

/// A posted draft of a packet's message, with a msgid, is a message that the conference in its place may hold; its own
/// msgid is one, or it has none.
pub fn posted_fits()
    ensures message { (bytes : List ℕ) (messages : List FtsMessage) (m : FtsMessage) (s : SetupFields) (c : Conference) (now place : ℕ) (draft : Message) (msgid : List ℕ)
        → FtsReads bytes messages → Contains messages m → toss_verdict s m now ≡ Post place draft → slice_get s.conferences place ≡ Some c
        → IsTrue (is_text 80 msgid) → IsTyped (with_msgid msgid draft) → IsMessage c.kind (with_msgid msgid draft) }
    ensures msgid { (s : SetupFields) (m : FtsMessage) (now place : ℕ) (draft : Message) → toss_verdict s m now ≡ Post place draft → EmptyOr (is_text 80) draft.msgid }
{}
