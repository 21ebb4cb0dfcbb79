ghost use Rattle.std.specs.Prelude.{◌≡◌, List, ◌+◌, ◌-◌, ◌≤◌, ◌<◌, ◌==◌, ◌^◌, length, All, IfOk};
ghost use Rattle.jam_records.specs.declared.damage.DamageRule.TheVariants.{Links};
ghost use Rattle.jam_records.specs.declared.message.Slot.{Slot};
ghost use Rattle.jam_threads.specs.Links.{link_of};
ghost use Rattle.jam_threads.specs.Threading.{AreThreads};
ghost use Rattle.jam_layout.specs.Rules.{BaseGives};
ghost use Rattle.jam_layout.specs.SecondPass.{slots_of, active_in, same_link as is_same_link, links_at, second_pass, Numbered};

use crate::entry::HeaderEntry;
use crate::error::BaseError;
use crate::places::damaged;
use door_outside::FileId;
use jam_records::DamageRule;
use jam_threads::{Link, Threads};
use std::alloc::{AllocError, Global};

/// The threads of the slots of the messages, up to the last.
fn threads_of(alloc: Global, entries: &[HeaderEntry]) -> Result<Threads, AllocError>
    requires { Numbered 0 entries.now }
    ensures { IfOk result (AreThreads (slots_of 1 entries.now)) }
{
    let mut threads = Threads::new(alloc);
    for entry in entries {
        threads.fill(entry.number as usize - 1)?;
        threads.add(
            entry.message.msgid.as_slice(),
            entry.message.replyid.as_slice(),
        )?;
    }
    Ok(threads)
}

/// How many messages aren't deleted.
fn active(entries: &[HeaderEntry]) -> usize
    ensures { result ≡ active_in entries.now }
{
    entries
        .iter()
        .filter(|entry| !entry.message.deleted)
        .count()
}

/// Whether two messages have equal links.
fn same_link(a: Link, b: Link) -> bool
    ensures { result ≡ is_same_link a b }
{
    a.to == b.to && a.first == b.first && a.next == b.next
}

/// Whether a header has the links of its message.
fn has_links(entry: &HeaderEntry, threads: &Threads) -> bool
    requires { (slots : List Slot) × AreThreads slots threads.now × (1 ≤ entry.now.number) × (entry.now.number ≤ length slots) }
    ensures { (slots : List Slot) → AreThreads slots threads.now → result ≡ is_same_link entry.now.link (link_of slots entry.now.number) }
{
    same_link(entry.link, threads.link(entry.number as usize - 1))
}

/// Tests the links of each header.
fn check_links(place: u8, threads: &Threads, entries: &[HeaderEntry]) -> Result<(), BaseError>
    requires place { place < 64 }
    requires count { length entries.now < 2 ^ 31 }
    requires threads { AreThreads (slots_of 1 entries.now) threads.now }
    requires within { All (λ e. (1 ≤ e.number) × (e.number ≤ length (slots_of 1 entries.now))) entries.now }
    ensures { BaseGives (λ x. x) result (links_at place (slots_of 1 entries.now) 1 entries.now) }
{
    for (i, entry) in entries.iter().enumerate() {
        if !has_links(entry, threads) {
            return Err(damaged(FileId::jhr(place), i as u32 + 1, DamageRule::Links));
        }
    }
    Ok(())
}

/// Tests the count of messages that aren't deleted, and the links of each header, and answers the threads of the slots of
/// the messages, up to the last.
#[tactic(auto, unfolding(crate::specs::SecondPass::second_pass))]
pub fn check(
    alloc: Global,
    place: u8,
    stated: u32,
    entries: &[HeaderEntry],
) -> Result<Threads, BaseError>
    requires place { place < 64 }
    requires numbered { Numbered 0 entries.now }
    ensures gives { BaseGives (λ _. tt) result (second_pass place stated entries.now) }
    ensures threads { IfOk result (AreThreads (slots_of 1 entries.now)) }
{
    if stated as usize != active(entries) {
        return Err(damaged(FileId::jhr(place), 0, DamageRule::Active));
    }
    let threads = threads_of(alloc, entries)?;
    check_links(place, &threads, entries)?;
    Ok(threads)
}
