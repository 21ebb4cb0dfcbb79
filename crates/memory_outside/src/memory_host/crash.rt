ghost use Rattle.std.specs.Prelude.{◌≡◌, ◌≢◌, ℕ, ◌<◌, ◌^◌, None, [], length, reverse, All, IfOk, OnOk};
ghost use Rattle.memory_outside.specs.Contents.{content};
ghost use Rattle.door_outside.specs.Disk.{NothingPending, Now, as_read};
ghost use Rattle.memory_outside.specs.Events.{IsShortEvent, Left, read, spoken, synced};
ghost use Rattle.memory_outside.specs.Images.{Chosen, IsFresh};
ghost use Rattle.memory_outside.specs.MemoryHost.{OnlyReads, disk_of};

use super::MemoryHost;
use crate::contents::Contents;
use crate::draws::Draws;
use crate::event::Event;
use crate::image::ImageChoice;
use crate::plan::FaultPlan;
use crate::tears::take_in_image;
use byte_lists::Bytes;
use door_outside::FileId;
use std::alloc::{AllocError, Global};

/// The files of an image that a crash after these events, the oldest first, may leave. Without draws they are as
/// of their last syncs.
fn image_of(alloc: Global, events: &[Event], draws: Option<Draws>) -> Result<Contents, AllocError>
    requires { All IsShortEvent events.now }
    ensures left { IfOk result (λ files. Left (reverse events.now) (record { files = content files; said = spoken (reverse events.now) })) }
    ensures synced { draws ≡ None → IfOk result (λ files. (file : ℕ) → content files file ≡ synced (reverse events.now) file) }
{
    let mut draws = draws;
    let mut read = Contents::new(alloc);
    let mut image = Contents::new(alloc);
    for event in events {
        take_in_image(&mut image, &mut draws, &read, event)?;
        read.change(event)?;
    }
    Ok(image)
}

impl MemoryHost {
    /// Has said these bytes.
    fn begin_with(&mut self, said: &[u8]) -> Result<(), AllocError>
        requires { self.old.events ≡ [] }
        ensures rest { OnOk result (self.new ≡ record self.old { events = self.new.events }) }
        ensures said { OnOk result (spoken self.new.events ≡ said.now) }
        ensures files { OnOk result ((file : ℕ) → read self.new.events file ≡ []) }
        ensures pending { OnOk result (OnlyReads self.new.events) }
    {
        if said.is_empty() {
            return Ok(());
        }
        let bytes = Bytes::from_slice(self.alloc, said)?;
        self.note(Event::Say { bytes })
    }

    /// Puts one of the files.
    fn put_from(&mut self, files: &Contents, number: u16) -> Result<(), AllocError>
        requires known { number < 258 }
        requires short { length (content files.now number) < 2 ^ 31 }
        requires empty { read self.old.events number ≡ [] }
        ensures rest { OnOk result (self.new ≡ record self.old { events = self.new.events }) }
        ensures here { OnOk result (read self.new.events number ≡ content files.now number) }
        ensures others { OnOk result ((file : ℕ) → file ≢ number → read self.new.events file ≡ read self.old.events file) }
        ensures said { OnOk result (spoken self.new.events ≡ spoken self.old.events) }
        ensures pending { OnlyReads self.old.events → OnOk result (OnlyReads self.new.events) }
    {
        let Some(file) = FileId::new(number) else {
            return Ok(());
        };
        let bytes = files.get(file);
        if bytes.is_empty() {
            return Ok(());
        }
        self.put(file, bytes)
    }

    /// A host on an image, with nothing pending.
    fn on_image(
        alloc: Global,
        plan: FaultPlan,
        files: &Contents,
        said: &[u8],
    ) -> Result<MemoryHost, AllocError>
        requires { (file : ℕ) → length (content files.now file) < 2 ^ 31 }
        ensures files { IfOk result (λ host. (file : ℕ) → read host.events file ≡ content files.now file) }
        ensures said { IfOk result (λ host. spoken host.events ≡ said.now) }
        ensures pending { IfOk result (λ host. OnlyReads host.events) }
        ensures fresh { IfOk result (λ host. IsFresh plan host) }
    {
        let mut host = MemoryHost::new(alloc, plan);
        host.begin_with(said)?;
        for number in 0..files.len() as u16 {
            host.put_from(files, number)?;
        }
        Ok(host)
    }

    /// A host on one of the images that a crash now may leave, with nothing pending, no call made and all counts
    /// 0, whose calls fail as the plan says.
    pub fn after_crash(
        &self,
        alloc: Global,
        choice: ImageChoice,
        plan: FaultPlan,
    ) -> Result<MemoryHost, AllocError>
        ensures image { IfOk result (λ host. Now (disk_of self.now) (as_read (disk_of host))) }
        ensures chosen { IfOk result (λ host. Chosen choice self.now.events (disk_of host).files) }
        ensures pending { IfOk result (λ host. NothingPending (disk_of host)) }
        ensures fresh { IfOk result (λ host. IsFresh plan host) }
    {
        let said = self.said.as_slice();
        let draws = match choice {
            ImageChoice::Written => return MemoryHost::on_image(alloc, plan, &self.contents, said),
            ImageChoice::Synced => None,
            ImageChoice::Mixed(seed) => Some(Draws::new(seed)),
        };
        let image = image_of(alloc, self.events.as_slice(), draws)?;
        MemoryHost::on_image(alloc, plan, &image, said)
    }
}
