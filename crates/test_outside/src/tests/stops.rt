//! Commits and recoveries that are stopped at each of their calls.
ghost use Rattle.std.specs.Prelude.{◌≡◌, ◌<◌, ◌^◌, ◌∷◌, ◌++◌, [], length, IfOk, OnOk, IsTrue};
ghost use Rattle.memory_outside.specs.MemoryHost.{disk_of};
ghost use Rattle.intent_journal.specs.Hosts.{IsSettled};
ghost use Rattle.intent_journal.specs.Patches.{HostFiles, are_within};

use super::examples::{Miss, expect};
use super::memory_host::empty;
use byte_lists::Bytes;
use door_outside::FileId;
use intent_journal::{Intent, Patch, commit, recover};
use memory_outside::{CallNumbers, FaultPlan, ImageChoice, MemoryHost};
use std::alloc::{AllocError, Global};

/// A host on what a crash left of another, whose calls fail from one on.
#[tactic(auto, using(intent_journal::proofs::Hosts::at_rest_is_settled))]
fn crashed(
    alloc: Global,
    host: &MemoryHost,
    choice: ImageChoice,
    stop: Option<u32>,
) -> Result<MemoryHost, AllocError>
    ensures { IfOk result (λ host. IsSettled (disk_of host)) }
{
    let fails = CallNumbers::new(alloc);
    host.after_crash(alloc, choice, FaultPlan { fails, stop })
}

/// Recovers and commits, and answers whether both were done.
fn recover_and_commit(alloc: Global, host: &mut MemoryHost, intent: &Intent) -> bool
    requires settled { IsSettled (disk_of host.old) }
    requires within { (files : HostFiles) → IsTrue (are_within intent.now files) }
{
    match recover(alloc, host) {
        Ok(()) => commit(host, intent).is_ok(),
        Err(_) => false,
    }
}

/// Recovers what a crash left, by calls that fail from one on.
fn recovered(
    alloc: Global,
    host: &MemoryHost,
    choice: ImageChoice,
    stop: Option<u32>,
) -> Result<MemoryHost, AllocError> {
    let mut last = crashed(alloc, host, choice, stop)?;
    let _ = recover(alloc, &mut last);
    Ok(last)
}

/// Recovers what a crash left, by a recovery that is stopped and one that isn't.
fn recovered_twice(
    alloc: Global,
    host: &MemoryHost,
    choice: ImageChoice,
    stop: u32,
) -> Result<MemoryHost, AllocError> {
    let first = recovered(alloc, host, choice, Some(stop))?;
    recovered(alloc, &first, choice, None)
}

/// Whether a file has these bytes.
fn has(host: &MemoryHost, file: FileId, bytes: &[u8]) -> bool {
    host.file(file) == bytes
}

/// Whether the .JHR and the .JDT of place 0, files 2 and 3, are both patched, or as they were where the
/// commit wasn't done.
fn is_whole(host: &MemoryHost, done: bool) -> bool {
    let jhr = FileId::jhr(0);
    let jdt = FileId::jdt(0);
    let patched = has(host, jhr, b"patchover") && has(host, jdt, b"new");
    let old = has(host, jhr, b"old") && has(host, jdt, b"file");
    patched || old && !done
}

/// Adds a patch.
fn add(intent: &mut Intent, patch: Patch) -> Result<(), Miss>
    ensures { OnOk result (intent.new ≡ intent.old ++ patch ∷ []) }
{
    if !intent.takes(&patch) {
        return Err(Miss {
            line: "a patch is taken",
            round: 0,
        });
    }
    intent.add(patch)?;
    Ok(())
}

/// Two puts into file 2 that overlap and lengthen it, and all bytes of file 3.
fn three_patches(alloc: Global, intent: &mut Intent) -> Result<(), Miss>
    requires { intent.old ≡ [] }
    ensures { OnOk result ((files : HostFiles) → IsTrue (are_within intent.new files)) }
{
    let file = FileId::jhr(0);
    let bytes = Bytes::from_slice(alloc, b"patched")?;
    add(intent, Patch::Put { file, at: 0, bytes })?;
    let bytes = Bytes::from_slice(alloc, b"over")?;
    add(intent, Patch::Put { file, at: 5, bytes })?;
    let file = FileId::jdt(0);
    let bytes = Bytes::from_slice(alloc, b"new")?;
    add(intent, Patch::Whole { file, bytes })
}

/// The image of a seed below 10, of which the first and the last are those without draws.
fn choice_of(seed: u32) -> ImageChoice {
    match seed {
        0 => ImageChoice::Synced,
        9 => ImageChoice::Written,
        _ => ImageChoice::Mixed(seed),
    }
}

/// Whether an image of a host is recovered to whole files, wherever a first recovery is stopped.
fn image_ends_whole(
    alloc: Global,
    host: &MemoryHost,
    choice: ImageChoice,
    done: bool,
) -> Result<bool, AllocError> {
    let mut whole = true;
    for stop in 1..14 {
        let last = recovered_twice(alloc, host, choice, stop)?;
        whole = whole && is_whole(&last, done);
    }
    Ok(whole)
}

/// Whether each image of a host is.
fn ends_whole(alloc: Global, host: &MemoryHost, done: bool) -> Result<bool, AllocError> {
    let mut whole = true;
    for seed in 0..10 {
        whole = image_ends_whole(alloc, host, choice_of(seed), done)? && whole;
    }
    Ok(whole)
}

/// Whether a recovery and a commit that are stopped at a call leave all of the intent or nothing.
fn stop_is_whole(
    alloc: Global,
    start: &MemoryHost,
    intent: &Intent,
    stop: u32,
) -> Result<bool, AllocError>
    requires { (files : HostFiles) → IsTrue (are_within intent.now files) }
{
    let mut host = crashed(alloc, start, ImageChoice::Written, Some(stop))?;
    let done = recover_and_commit(alloc, &mut host, intent);
    ends_whole(alloc, &host, done)
}

/// Stops them at each call.
fn stop_each(alloc: Global, start: &MemoryHost, intent: &Intent) -> Result<(), Miss>
    requires { (files : HostFiles) → IsTrue (are_within intent.now files) }
{
    for stop in 1..32 {
        let so = stop_is_whole(alloc, start, intent, stop)?;
        expect(Some(so), "a stopped commit", stop)?;
    }
    Ok(())
}

/// Puts files 2 and 3, and stops the commit of three patches at each call.
fn stop_on(alloc: Global, start: &mut MemoryHost, intent: &mut Intent) -> Result<(), Miss>
    requires { intent.old ≡ [] }
{
    start.put(FileId::jhr(0), b"old")?;
    start.put(FileId::jdt(0), b"file")?;
    three_patches(alloc, intent)?;
    stop_each(alloc, start, intent)
}

#[test]
fn each_stop_leaves_all_or_nothing(rt: HostRuntime) -> Result<(), Miss> {
    let mut start = empty(rt.alloc());
    let mut intent = Intent::new(rt.alloc());
    stop_on(rt.alloc(), &mut start, &mut intent)
}

/// Puts an open journal of one put of 01 00 00 00 at a place of file 2, and the bytes of that file.
fn put_pending(host: &mut MemoryHost, at: u16, old: &[u8]) -> Result<(), AllocError>
    requires { length old.now < 2 ^ 31 }
{
    let mut journal = *b"OQDJ1\x01\0\0\0\x0F\0\0\0\x01\x02\0\0\0\0\0\x04\0\0\0\x01\0\0\0";
    journal[16..18].copy_from_slice(&at.to_le_bytes());
    host.put(FileId::journal(), &journal)?;
    host.put(FileId::jhr(0), old)
}

/// Whether a recovery is done, shuts the gate and leaves file 2 so.
fn leaves(alloc: Global, start: &MemoryHost, bytes: &[u8]) -> Result<bool, AllocError> {
    let mut host = crashed(alloc, start, ImageChoice::Written, None)?;
    let done = recover(alloc, &mut host).is_ok();
    let is_shut = host.file(FileId::journal()).starts_with(b"C");
    Ok(done && is_shut && has(&host, FileId::jhr(0), bytes))
}

/// Recovers a put that begins past the end of its file.
fn recover_past(alloc: Global, start: &mut MemoryHost) -> Result<(), Miss> {
    put_pending(start, 2000, &[7; 1024])?;
    let so = leaves(alloc, start, &[7; 1024])?;
    expect(Some(so), "a put past the end", 0)
}

#[test]
fn a_put_past_the_end_is_not_carried_out(rt: HostRuntime) -> Result<(), Miss> {
    recover_past(rt.alloc(), &mut empty(rt.alloc()))
}

/// Whether a recovery of an image, stopped at a call, and one more leave the put carried out.
fn ends_patched(
    alloc: Global,
    start: &MemoryHost,
    seed: u32,
    stop: u32,
) -> Result<bool, AllocError> {
    let last = recovered_twice(alloc, start, ImageChoice::Mixed(seed), stop)?;
    Ok(has(
        &last,
        FileId::jhr(0),
        b"\x07\x07\x07\x07\x07\x07\x07\x07\x01\0\0\0",
    ))
}

/// Stops the recovery of an image at each call. The round of a miss is a hundred times the seed, and the stop.
fn stop_recovery(alloc: Global, start: &MemoryHost, seed: u32) -> Result<(), Miss>
    requires { seed < 9 }
{
    for stop in 1..12 {
        let so = ends_patched(alloc, start, seed, stop)?;
        expect(Some(so), "a stopped recovery", seed * 100 + stop)?;
    }
    Ok(())
}

/// Stops it so on each image.
fn stop_recoveries(alloc: Global, start: &mut MemoryHost) -> Result<(), Miss> {
    put_pending(start, 8, &[7; 10])?;
    for seed in 1..9 {
        stop_recovery(alloc, start, seed)?;
    }
    Ok(())
}

#[test]
fn a_stopped_recovery_of_a_put_ends_the_same(rt: HostRuntime) -> Result<(), Miss> {
    stop_recoveries(rt.alloc(), &mut empty(rt.alloc()))
}
