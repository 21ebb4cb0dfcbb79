//! Laws of reply links, each the contract of a function that does nothing.
ghost use Rattle.std.specs.Prelude.{List};
ghost use Rattle.jam_records.specs.declared.message.Message.{Message};
ghost use Rattle.jam_records.specs.declared.message.Slot.{Slot};
ghost use Rattle.jam_threads.specs.LinkChanges.{IsLinkChange, link_change};

/// A message at the end changes at most one link number of one older message: Reply1st of its original,
/// where it is the first to answer that one, and else ReplyNext of the last message that did. It has its
/// original for ReplyTo, and no other links yet.
pub fn one_link()
    ensures { (slots : List Slot) (m : Message) → IsLinkChange slots m (link_change slots m.replyid) }
{}
