ghost use Rattle.std.specs.Prelude.{◌≡◌, ◌+◌, ◌-◌, ◌≤◌, ◌<◌, ◌^◌, ◌∷◌, ◌++◌, true, length, take, min, IfOk, OnOk, OnErr, IsErr, IsTrue, ◌↔◌};
ghost use Rattle.door_outside.specs.Cause.{HasCause};
ghost use Rattle.door_outside.specs.Disk.{AllNow, as_read, Passes, InFile, Same, Torn, Cut, Says, HoldsBytes, Unchanged, written, read_count, read_into};
ghost use Rattle.memory_outside.specs.Events.{IsShortEvent};
ghost use Rattle.memory_outside.specs.MemoryHost.{disk_of, Recorded};
ghost use Rattle.memory_outside.specs.Plan.{ByPlan, ByPlanOrMemory, FailsNext, Faulted, one_more};
ghost use Rattle.memory_outside.specs.declared.event.Event.TheVariants.{Write, Shorten, Sync, Say};

use super::MemoryHost;
use crate::event::Event;
use crate::pieces::read_piece;
use byte_lists::Bytes;
use door_outside::{DiskFault, FileId, Host, VoiceFault};
use std::alloc::{AllocError, Global};

/// The event of a write.
fn write_event(alloc: Global, file: FileId, at: u32, bytes: &[u8]) -> Result<Event, AllocError>
    ensures { IfOk result (λ event. event ≡ Write file at bytes.now) }
{
    let bytes = Bytes::from_slice(alloc, bytes)?;
    Ok(Event::Write { file, at, bytes })
}

/// The event of saying something.
fn say_event(alloc: Global, bytes: &[u8]) -> Result<Event, AllocError>
    ensures { IfOk result (λ event. event ≡ Say bytes.now) }
{
    let bytes = Bytes::from_slice(alloc, bytes)?;
    Ok(Event::Say { bytes })
}

impl MemoryHost {
    /// Counts a call, and answers whether it is to fail.
    fn fails(&mut self) -> bool
        ensures planned { IsTrue result ↔ FailsNext self.old.counts }
        ensures counted { self.new ≡ record self.old { counts = record self.old.counts { calls = one_more self.old.counts.calls } } }
    {
        self.calls.fails()
    }

    /// Counts a disk fault.
    fn fault(&mut self) -> DiskFault
        ensures counted { self.new ≡ record self.old { disk_faults = one_more self.old.disk_faults } }
        ensures later { self.old.disk_faults ≤ self.new.disk_faults }
    {
        self.disk_faults = self.disk_faults.saturating_add(1);
        DiskFault
    }

    /// Counts a fault of the voice.
    fn voice_fault(&mut self) -> VoiceFault
        ensures counted { self.new ≡ record self.old { voice_faults = one_more self.old.voice_faults } }
        ensures later { self.old.voice_faults ≤ self.new.voice_faults }
    {
        self.voice_faults = self.voice_faults.saturating_add(1);
        VoiceFault
    }

    /// Counts want of memory.
    fn starve(&mut self)
        ensures { self.new ≡ record self.old { counts = record self.old.counts { starved = one_more self.old.counts.starved } } }
    {
        self.calls.starve();
    }

    /// Takes in and records an event, where there was memory to make it.
    fn note_made(&mut self, event: Result<Event, AllocError>) -> Result<(), AllocError>
        requires { IfOk event IsShortEvent }
        ensures ok { OnOk result (IfOk event (λ event. self.new ≡ record self.old { events = event ∷ self.old.events })) }
        ensures made { IsErr event → IsErr result }
        ensures err { OnErr result (self.new ≡ self.old) }
    {
        let event = event?;
        self.note(event)
    }

    /// A file call that takes in an event.
    fn perform(&mut self, event: Result<Event, AllocError>) -> Result<(), DiskFault>
        requires { IfOk event IsShortEvent }
        ensures ok { OnOk result (IfOk event (λ event. self.new.events ≡ event ∷ self.old.events)) }
        ensures made { IsErr event → IsErr result }
        ensures err { OnErr result (self.new.events ≡ self.old.events) }
        ensures cause { HasCause self.old.disk_faults self.new.disk_faults result }
        ensures faults { Faulted self.old.disk_faults self.new.disk_faults result }
        ensures planned { ByPlanOrMemory self.old.counts self.new.counts result }
        ensures voice { self.new.voice_faults ≡ self.old.voice_faults }
        ensures wrote { self.new.wrote ≡ self.old.wrote }
    {
        if self.fails() {
            return Err(self.fault());
        }
        match self.note_made(event) {
            Ok(()) => Ok(()),
            Err(_) => {
                self.starve();
                Err(self.fault())
            }
        }
    }

    /// The length of a file.
    fn file_len(&self, file: FileId) -> u32
        ensures value { result ≡ length ((disk_of self.now).files file) }
        ensures bound { result < 2 ^ 31 }
    {
        let bytes = self.contents.get(file);
        bytes.len() as u32
    }

    /// A write, but for the count of the bytes that were given to writes.
    fn write_down(&mut self, file: FileId, at: u32, bytes: &[u8]) -> Result<(), DiskFault>
        requires { at + length bytes.now < 2 ^ 31 }
        ensures recorded { Recorded (Write file at bytes.now) self.old.events self.new.events result }
        ensures cause { HasCause self.old.disk_faults self.new.disk_faults result }
        ensures faults { Faulted self.old.disk_faults self.new.disk_faults result }
        ensures planned { ByPlanOrMemory self.old.counts self.new.counts result }
        ensures voice { self.new.voice_faults ≡ self.old.voice_faults }
        ensures wrote { self.new.wrote ≡ self.old.wrote }
    {
        let event = write_event(self.alloc, file, at, bytes);
        self.perform(event)
    }

    /// A call of the voice that takes in an event.
    fn speak(&mut self, event: Result<Event, AllocError>) -> Result<(), VoiceFault>
        requires { IfOk event IsShortEvent }
        ensures ok { OnOk result (IfOk event (λ event. self.new.events ≡ event ∷ self.old.events)) }
        ensures made { IsErr event → IsErr result }
        ensures err { OnErr result (self.new.events ≡ self.old.events) }
        ensures cause { HasCause self.old.voice_faults self.new.voice_faults result }
        ensures faults { Faulted self.old.voice_faults self.new.voice_faults result }
        ensures planned { ByPlanOrMemory self.old.counts self.new.counts result }
        ensures disk { self.new.disk_faults ≡ self.old.disk_faults }
        ensures wrote { self.new.wrote ≡ self.old.wrote }
    {
        if self.fails() {
            return Err(self.voice_fault());
        }
        match self.note_made(event) {
            Ok(()) => Ok(()),
            Err(_) => {
                self.starve();
                Err(self.voice_fault())
            }
        }
    }
}

impl Host for MemoryHost {
    ghost tells = { true };

    ghost disk = { disk_of };

    ghost disk_faults = { λ h. h.disk_faults };

    ghost voice_faults = { λ h. h.voice_faults };

    fn length(&mut self, file: FileId) -> Result<u32, DiskFault>
        ensures bound { IfOk result (λ len. len < 2 ^ 31) }
        ensures value { IfOk result (λ len. len ≡ length ((disk_of self.old).files file)) }
        ensures unchanged { Unchanged (disk_of self.old) (disk_of self.new) }
        ensures recorded { self.new.events ≡ self.old.events }
        ensures cause { HasCause self.old.disk_faults self.new.disk_faults result }
        ensures faults { Faulted self.old.disk_faults self.new.disk_faults result }
        ensures planned { ByPlan self.old.counts self.new.counts result }
        ensures voice { self.new.voice_faults ≡ self.old.voice_faults }
    {
        if self.fails() {
            return Err(self.fault());
        }
        Ok(self.file_len(file))
    }

    fn read_at(&mut self, file: FileId, at: u32, buf: &mut [u8]) -> Result<usize, DiskFault>
        ensures bound { IfOk result (λ count. count ≤ length buf.old) }
        ensures count { IfOk result (λ count. count ≡ read_count ((disk_of self.old).files file) at (length buf.old)) }
        ensures bytes { OnOk result (buf.new ≡ read_into ((disk_of self.old).files file) at buf.old) }
        ensures given { OnErr result (buf.new ≡ buf.old) }
        ensures unchanged { Unchanged (disk_of self.old) (disk_of self.new) }
        ensures recorded { self.new.events ≡ self.old.events }
        ensures cause { HasCause self.old.disk_faults self.new.disk_faults result }
        ensures faults { Faulted self.old.disk_faults self.new.disk_faults result }
        ensures planned { ByPlan self.old.counts self.new.counts result }
        ensures voice { self.new.voice_faults ≡ self.old.voice_faults }
    {
        if self.fails() {
            return Err(self.fault());
        }
        Ok(read_piece(self.file(file), at, buf))
    }

    fn write_at(&mut self, file: FileId, at: u32, bytes: &[u8]) -> Result<(), DiskFault>
        requires { at + length bytes.now < 2 ^ 31 }
        ensures done { OnOk result (HoldsBytes file (written ((disk_of self.old).files file) at bytes.now) (disk_of self.old).files (disk_of self.new).files) }
        ensures torn { InFile file (Torn at (length bytes.now)) (as_read (disk_of self.old)) (as_read (disk_of self.new)) }
        ensures crash { Passes (InFile file (Torn at (length bytes.now))) (InFile file (Torn at (length bytes.now))) (disk_of self.old) (disk_of self.new) }
        ensures wrote { self.new.wrote ≡ min (self.old.wrote + length bytes.now) (2 ^ 64 - 1) }
        ensures recorded { Recorded (Write file at bytes.now) self.old.events self.new.events result }
        ensures cause { HasCause self.old.disk_faults self.new.disk_faults result }
        ensures faults { Faulted self.old.disk_faults self.new.disk_faults result }
        ensures planned { ByPlanOrMemory self.old.counts self.new.counts result }
        ensures voice { self.new.voice_faults ≡ self.old.voice_faults }
    {
        let done = self.write_down(file, at, bytes);
        self.wrote = self.wrote.saturating_add(bytes.len() as u64);
        done
    }

    fn cut(&mut self, file: FileId, len: u32) -> Result<(), DiskFault>
        ensures done { OnOk result (HoldsBytes file (take len ((disk_of self.old).files file)) (disk_of self.old).files (disk_of self.new).files) }
        ensures torn { InFile file (Cut len) (as_read (disk_of self.old)) (as_read (disk_of self.new)) }
        ensures crash { Passes (InFile file (Cut len)) (InFile file (Cut len)) (disk_of self.old) (disk_of self.new) }
        ensures wrote { self.new.wrote ≡ self.old.wrote }
        ensures recorded { Recorded (Shorten file len) self.old.events self.new.events result }
        ensures cause { HasCause self.old.disk_faults self.new.disk_faults result }
        ensures faults { Faulted self.old.disk_faults self.new.disk_faults result }
        ensures planned { ByPlanOrMemory self.old.counts self.new.counts result }
        ensures voice { self.new.voice_faults ≡ self.old.voice_faults }
    {
        self.perform(Ok(Event::Shorten { file, len }))
    }

    fn sync(&mut self, file: FileId) -> Result<(), DiskFault>
        ensures durable { OnOk result (AllNow (disk_of self.new) (λ image. image.files file ≡ (disk_of self.old).files file)) }
        ensures same { as_read (disk_of self.new) ≡ as_read (disk_of self.old) }
        ensures crash { Passes Same Same (disk_of self.old) (disk_of self.new) }
        ensures wrote { self.new.wrote ≡ self.old.wrote }
        ensures recorded { Recorded (Sync file) self.old.events self.new.events result }
        ensures cause { HasCause self.old.disk_faults self.new.disk_faults result }
        ensures faults { Faulted self.old.disk_faults self.new.disk_faults result }
        ensures planned { ByPlanOrMemory self.old.counts self.new.counts result }
        ensures voice { self.new.voice_faults ≡ self.old.voice_faults }
    {
        self.perform(Ok(Event::Sync { file }))
    }

    fn say(&mut self, bytes: &[u8]) -> Result<(), VoiceFault>
        ensures done { OnOk result ((disk_of self.new).said ≡ (disk_of self.old).said ++ bytes.now) }
        ensures partly { Says bytes.now (as_read (disk_of self.old)) (as_read (disk_of self.new)) }
        ensures crash { Passes (Says bytes.now) (Says bytes.now) (disk_of self.old) (disk_of self.new) }
        ensures wrote { self.new.wrote ≡ self.old.wrote }
        ensures recorded { Recorded (Say bytes.now) self.old.events self.new.events result }
        ensures cause { HasCause self.old.voice_faults self.new.voice_faults result }
        ensures faults { Faulted self.old.voice_faults self.new.voice_faults result }
        ensures planned { ByPlanOrMemory self.old.counts self.new.counts result }
        ensures disk { self.new.disk_faults ≡ self.old.disk_faults }
    {
        let event = say_event(self.alloc, bytes);
        self.speak(event)
    }
}
