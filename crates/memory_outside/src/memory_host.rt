ghost use Rattle.std.specs.Prelude.{◌≡◌, ℕ, ◌<◌, ◌^◌, ◌∷◌, [], length, OnOk, OnErr};
ghost use Rattle.memory_outside.specs.Contents.{content, SameContents};
ghost use Rattle.memory_outside.specs.Events.{file_after, said_after};
ghost use Rattle.door_outside.specs.Disk.{AllNow, HoldsBytes, InFile, NothingPending, Passes};

mod crash;
mod host_calls;

use crate::calls::Calls;
use crate::contents::Contents;
use crate::event::Event;
use crate::plan::FaultPlan;
use byte_lists::Bytes;
use door_outside::FileId;
use std::alloc::{AllocError, Global};
use std::marker::Model;

/// A host in memory, which tells everything and counts its calls. It keeps a record of the calls that
/// changed what a crash may leave, and of no other.
#[derive(Drop)]
pub struct MemoryHost {
    alloc: Global,
    contents: Contents,
    said: Bytes,
    events: Vec<Event>,
    wrote: u64,
    disk_faults: u64,
    voice_faults: u64,
    calls: Calls,
}

impl Model for MemoryHost {
    ghost use Rattle.std.specs.Prelude.{reverse};
    ghost use Rattle.memory_outside.specs.MemoryHost.{Hosted, HostKeeps};

    ghost Value = { Hosted };

    ghost view = { λ h. record { events = reverse h.events.items; wrote = h.wrote; disk_faults = h.disk_faults; voice_faults = h.voice_faults; counts = h.calls } };

    ghost invariant = { λ h. HostKeeps h.contents h.said (reverse h.events.items) };
}

/// What an event makes of the files and of what was said. Where there is no memory, nothing changes.
fn take_in(contents: &mut Contents, said: &mut Bytes, event: &Event) -> Result<(), AllocError>
    ensures files { OnOk result ((file : ℕ) → content contents.new file ≡ file_after event.now file (content contents.old file)) }
    ensures said { OnOk result (said.new ≡ said_after event.now said.old) }
    ensures err { OnErr result (SameContents contents.old contents.new × (said.new ≡ said.old)) }
{
    match event {
        Event::Say { bytes } => said.add(bytes.as_slice()),
        _ => contents.change(event),
    }
}

impl MemoryHost {
    ghost use Rattle.memory_outside.specs.MemoryHost.{disk_of};
    ghost use Rattle.memory_outside.specs.Events.{IsShortEvent};
    ghost use Rattle.memory_outside.specs.declared.event.Event.TheVariants.{Put};

    /// A host whose files are all empty, with nothing said and nothing pending, whose calls fail as the
    /// plan says.
    pub fn new(alloc: Global, plan: FaultPlan) -> MemoryHost
        ensures value { result ≡ record { events = []; wrote = 0; disk_faults = 0; voice_faults = 0; counts = record { plan = plan; calls = 0; starved = 0 } } }
        ensures pending { NothingPending (disk_of result) }
    {
        MemoryHost {
            alloc,
            contents: Contents::new(alloc),
            said: Bytes::new(alloc),
            events: Vec::new(alloc),
            wrote: 0,
            disk_faults: 0,
            voice_faults: 0,
            calls: Calls::new(plan),
        }
    }

    /// Takes an event in and records it. Where there is no memory, nothing changes.
    fn note(&mut self, event: Event) -> Result<(), AllocError>
        requires { IsShortEvent event }
        ensures ok { OnOk result (self.new ≡ record self.old { events = event ∷ self.old.events }) }
        ensures err { OnErr result (self.new ≡ self.old) }
    {
        self.events.reserve(1)?;
        take_in(&mut self.contents, &mut self.said, &event)?;
        self.events.push(event)?;
        Ok(())
    }

    /// Gives a file this content, as if it were written and synced. It is no call of the plan. Where there is
    /// no memory, the host is unchanged.
    pub fn put(&mut self, file: FileId, bytes: &[u8]) -> Result<(), AllocError>
        requires { length bytes.now < 2 ^ 31 }
        ensures ok { OnOk result (self.new ≡ record self.old { events = Put file bytes.now ∷ self.old.events }) }
        ensures err { OnErr result (self.new ≡ self.old) }
        ensures holds { OnOk result (HoldsBytes file bytes.now (disk_of self.old).files (disk_of self.new).files) }
        ensures durable { OnOk result (AllNow (disk_of self.new) (λ image. image.files file ≡ bytes.now)) }
        ensures crash { OnOk result (let step = InFile file (λ old new. new ≡ bytes.now) in Passes step step (disk_of self.old) (disk_of self.new)) }
    {
        let bytes = Bytes::from_slice(self.alloc, bytes)?;
        self.note(Event::Put { file, bytes })
    }

    /// The bytes of a file, as a read gives them.
    pub fn file(&self, file: FileId) -> &[u8]
        ensures { result.now ≡ (disk_of self.now).files file }
    {
        self.contents.get(file)
    }

    /// All that was said.
    pub fn said(&self) -> &[u8]
        ensures { result.now ≡ (disk_of self.now).said }
    {
        self.said.as_slice()
    }

    /// How many bytes were given to writes, or 18,446,744,073,709,551,615 where they are more.
    pub fn wrote(&self) -> u64
        ensures { result ≡ self.now.wrote }
    {
        self.wrote
    }

    /// How many calls failed because there was no memory.
    pub fn starved(&self) -> u64
        ensures { result ≡ self.now.counts.starved }
    {
        self.calls.starved()
    }
}
