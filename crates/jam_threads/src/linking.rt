ghost use Rattle.std.specs.Prelude.{◌+◌, ◌<◌, ◌^◌, length, IfOk};
ghost use Rattle.jam_threads.specs.Links.{AreLinks};

use crate::link::Links;
use crate::threads::Threads;
use jam_records::Slots;
use std::alloc::{AllocError, Global};

/// The links of each slot, by place: ReplyTo, Reply1st and ReplyNext of its message (JAM message base proposal,
/// revision 1), and zeros for a slot that is gone. There are fewer than 4,294,967,295 slots.
///
/// The error comes where there is no memory.
#[tactic(auto, using(crate::proofs::ChangeLemmas::threads_links))]
pub fn links(alloc: Global, slots: &Slots) -> Result<Links, AllocError>
    requires { length slots.now + 1 < 2 ^ 32 }
    ensures { IfOk result (λ links. AreLinks slots.now links) }
{
    let threads = Threads::of(alloc, slots)?;
    Ok(Links {
        inner: threads.links,
    })
}
