//! What a crash may make of the writes and cuts since a file's last sync.
ghost use Rattle.std.specs.Prelude.{◌≡◌, ℕ, ◌+◌, ◌-◌, ◌<◌, ◌^◌, None, length, OnOk};
ghost use Rattle.memory_outside.specs.Contents.{content};
ghost use Rattle.door_outside.specs.Disk.{Torn, Cut};
ghost use Rattle.memory_outside.specs.Events.{IsShortEvent, synced_after};
ghost use Rattle.memory_outside.specs.Images.{OneFile, TakesEvent};

use crate::contents::Contents;
use crate::draws::Draws;
use crate::event::Event;
use door_outside::FileId;
use std::alloc::AllocError;

/// None of a write, all of it, or a run of its bytes.
fn tear_write(
    image: &mut Contents,
    draws: &mut Draws,
    file: FileId,
    at: u32,
    bytes: &[u8],
) -> Result<(), AllocError>
    requires { at + length bytes.now < 2 ^ 31 }
    ensures { OnOk result (OneFile file (Torn at (length bytes.now)) (content image.old) (content image.new)) }
{
    match draws.below(4) {
        0 => Ok(()),
        1 => image.write(file, at, bytes),
        _ => {
            let from = draws.place(bytes.len() + 1);
            let rest = &bytes[from..];
            let count = draws.place(rest.len() + 1);
            image.write(file, at + from as u32, &rest[..count])
        }
    }
}

/// None of a cut, all of it, or a part.
fn tear_cut(image: &mut Contents, draws: &mut Draws, file: FileId, len: u32)
    ensures { OneFile file (Cut len) (content image.old) (content image.new) }
{
    match draws.below(4) {
        0 => {}
        1 => image.cut(file, len),
        _ => {
            let spare = image.get(file).len().saturating_sub(len as usize);
            let kept = draws.place(spare.saturating_add(1));
            let kept = u32::try_from(kept).unwrap_or(u32::MAX);
            image.cut(file, len.saturating_add(kept));
        }
    }
}

/// What an event makes of an image, where the files read so before it. Without draws nothing takes hold that
/// wasn't synced.
pub(crate) fn take_in_image(
    image: &mut Contents,
    draws: &mut Option<Draws>,
    read: &Contents,
    event: &Event,
) -> Result<(), AllocError>
    requires { IsShortEvent event.now }
    ensures taken { OnOk result (TakesEvent event.now (content read.now) (content image.old) (content image.new)) }
    ensures synced { draws.old ≡ None → OnOk result ((file : ℕ) → content image.new file ≡ synced_after event.now (content read.now) file (content image.old file)) }
    ensures none { draws.old ≡ None → draws.new ≡ None }
{
    match event {
        Event::Write { file, at, bytes } => match draws {
            Some(draws) => tear_write(image, draws, *file, *at, bytes.as_slice()),
            None => Ok(()),
        },
        Event::Shorten { file, len } => {
            if let Some(draws) = draws {
                tear_cut(image, draws, *file, *len);
            }
            Ok(())
        }
        Event::Sync { file } => image.set(*file, read.get(*file)),
        Event::Put { file, bytes } => image.set(*file, bytes.as_slice()),
        Event::Say { .. } => Ok(()),
    }
}
