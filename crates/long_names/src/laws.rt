//! Laws of long names and subjects.
ghost use Rattle.std.specs.Prelude.{◌≡◌};
ghost use Rattle.long_names.specs.Fits.{FitsWithLong};
ghost use Rattle.long_names.specs.Plain.{plain, with_long, in_capitals, with_read_names};
ghost use Rattle.qwk_blocks.specs.Written.{Writable};
ghost use Rattle.qwk_blocks.specs.declared.message.QwkMessage.{QwkMessage};

/// What a reader sees of a message that goes with its long values as lines is that message.
pub fn plain_of_long()
    ensures { (m : QwkMessage) → plain (with_long m) ≡ m }
{}

/// Where the names in the header are put in capitals, a reader sees the long ones as they were, and the others in
/// capitals.
pub fn plain_of_capitals()
    ensures { (m : QwkMessage) → plain (in_capitals (with_long m)) ≡ with_read_names m }
{}

/// A message each of whose values fits its field or goes as a line can be written once the long ones go as lines, also
/// with the names in its header in capitals.
pub fn long_is_writable()
    ensures as_it_is { (m : QwkMessage) → FitsWithLong m → Writable (with_long m) }
    ensures in_capitals { (m : QwkMessage) → FitsWithLong m → Writable (in_capitals (with_long m)) }
{}
