//! Laws of a conference's files, each the contract of a function that does nothing.
ghost use Rattle.jam_records.specs.declared.message.Message.{Message};
ghost use Rattle.jam_writing.specs.jam_layout.declared.conference.ConferenceContents.{ConferenceContents};
ghost use Rattle.jam_writing.specs.jam_layout.declared.shape.Shape.{Shape};
ghost use Rattle.jam_base.specs.OneAppend.{OneAppend};

pub use jam_writing::laws::{outlines, rising_subfields, unique_conference};

/// With one message more, .JHR is the old one with ActiveMsgs and at most one link number of an older header
/// replaced, and the new header with its subfields at the end. The new body is at the end of .JDT and the
/// new record at that of .JDX, and .JLR is the same. A change of several messages repeats this step, and
/// replaces ModCounter once.
pub fn one_append()
    ensures { (shape : Shape) (c : ConferenceContents) (m : Message) → OneAppend shape c m }
{}
