ghost use Rattle.std.specs.Prelude.{◌≡◌, ℕ, ◌≤◌, List, [], ◌∷◌, ◌++◌, ◌<◌, length, IfOk};
ghost use Rattle.jam_writing.specs.jam_layout.Layout.{layout};
ghost use Rattle.jam_base.specs.Change.{message_files, whole_files};
ghost use Rattle.jam_base.specs.MarkPuts.{pointer_patch as pointer_patch_of, record_patch as record_patch_of};
ghost use Rattle.jam_base.specs.Puts.{counts_put, end_puts};

use crate::base::Base;
use crate::pointers::{pointer_patch, record_patch};
use intent_journal::{FileId, Patch, Patches};
use jam_records::Bytes;
use jam_writing::BaseFiles;
use std::alloc::{AllocError, Global};

/// A base after a change, and the change of its files.
#[derive(Debug, Drop)]
pub struct BaseChange {
    /// The base after the change.
    pub base: Base,
    /// What makes its files of those before the change. No other file is touched, and no file twice.
    pub patches: Patches,
}

impl BaseChange {
    /// The change to this base that touches no file.
    pub(crate) fn of_nothing(alloc: Global, base: Base) -> BaseChange
        ensures base { result.base ≡ base }
        ensures patches { result.patches ≡ [] }
    {
        BaseChange {
            base,
            patches: Patches::new(alloc),
        }
    }

    /// The change to this base that writes these marks, and its counts.
    pub(crate) fn of_marks(
        alloc: Global,
        base: Base,
        marks: Patches,
    ) -> Result<BaseChange, AllocError>
        ensures base { IfOk result (λ change. change.base ≡ base) }
        ensures patches { IfOk result (λ change. change.patches ≡ marks ++ counts_put base.shape.place base.conference ∷ []) }
    {
        let patches = counted(alloc, &base, marks)?;
        Ok(BaseChange { base, patches })
    }

    /// The change to this base that writes the record of the reader in a place from 0, whose bytes these are.
    pub(crate) fn of_record(
        alloc: Global,
        base: Base,
        reader: usize,
        bytes: &[u8],
    ) -> Result<BaseChange, AllocError>
        ensures base { IfOk result (λ change. change.base ≡ base) }
        ensures patches { IfOk result (λ change. change.patches ≡ record_patch_of base reader 0 bytes.now ∷ []) }
    {
        let patches = recorded_of(alloc, &base, reader, bytes)?;
        Ok(BaseChange { base, patches })
    }

    /// The change to this base that writes the pointer of the reader in a place from 0, behind these patches.
    pub(crate) fn of_pointer(
        alloc: Global,
        base: Base,
        before: Patches,
        reader: usize,
        number: u32,
    ) -> Result<BaseChange, AllocError>
        ensures base { IfOk result (λ change. change.base ≡ base) }
        ensures patches { IfOk result (λ change. change.patches ≡ before ++ pointer_patch_of base reader number ∷ []) }
    {
        let patches = pointed_of(alloc, &base, before, reader, number)?;
        Ok(BaseChange { base, patches })
    }

    /// The change to this base that writes what the slots behind so many others add to its files, of which these are the
    /// bodies, and these patches of links before.
    pub(crate) fn of_appended(
        alloc: Global,
        base: Base,
        count: usize,
        links: Patches,
        bodies: Bytes,
    ) -> Result<BaseChange, AllocError>
        requires { count ≤ length base.conference.slots }
        ensures base { IfOk result (λ change. change.base ≡ base) }
        ensures patches { IfOk result (λ change. change.patches ≡ links ++ (counts_put base.shape.place base.conference ∷ end_puts base.shape count base.conference bodies)) }
    {
        let patches = ends_of(alloc, &base, count, links, bodies)?;
        Ok(BaseChange { base, patches })
    }

    /// The change to this base that writes its four files, which these are.
    pub(crate) fn of_files(
        alloc: Global,
        base: Base,
        files: BaseFiles,
    ) -> Result<BaseChange, AllocError>
        requires { files ≡ layout base.shape base.conference }
        ensures base { IfOk result (λ change. change.base ≡ base) }
        ensures patches { IfOk result (λ change. change.patches ≡ whole_files base.shape.place (layout base.shape base.conference)) }
    {
        let patches = whole_of(alloc, base.place(), files)?;
        Ok(BaseChange { base, patches })
    }
}

/// The patch that gives a file these bytes.
fn whole(file: FileId, bytes: Bytes) -> Patch
    ensures { result ≡ Patch.Whole file bytes }
{
    Patch::Whole { file, bytes }
}

/// These patches, and behind them the one of a base's counts.
fn counted(alloc: Global, base: &Base, before: Patches) -> Result<Patches, AllocError>
    ensures { IfOk result (λ patches. patches ≡ before ++ counts_put base.now.shape.place base.now.conference ∷ []) }
{
    let mut patches = before;
    patches.add(base.counts(alloc)?)?;
    Ok(patches)
}

/// These patches, and behind them the one of the pointer of the reader in a place from 0.
fn pointed_of(
    alloc: Global,
    base: &Base,
    before: Patches,
    reader: usize,
    number: u32,
) -> Result<Patches, AllocError>
    ensures { IfOk result (λ patches. patches ≡ before ++ pointer_patch_of base.now reader number ∷ []) }
{
    let mut patches = before;
    patches.add(pointer_patch(alloc, base, reader, number)?)?;
    Ok(patches)
}

/// These patches, and behind them those of a base's counts and of what the slots behind so many others add, of which
/// these are the bodies.
fn ends_of(
    alloc: Global,
    base: &Base,
    count: usize,
    before: Patches,
    bodies: Bytes,
) -> Result<Patches, AllocError>
    requires { count ≤ length base.now.conference.slots }
    ensures { IfOk result (λ patches. patches ≡ before ++ (counts_put base.now.shape.place base.now.conference ∷ end_puts base.now.shape count base.now.conference bodies)) }
{
    let mut patches = before;
    patches.add(base.counts(alloc)?)?;
    patches.add(base.last_headers(alloc, count)?)?;
    patches.add(base.added_bodies(count, bodies))?;
    patches.add(base.last_records(alloc, count)?)?;
    Ok(patches)
}

/// What writes the record of the reader in a place from 0, whose bytes these are.
fn recorded_of(
    alloc: Global,
    base: &Base,
    reader: usize,
    bytes: &[u8],
) -> Result<Patches, AllocError>
    ensures { IfOk result (λ patches. patches ≡ record_patch_of base.now reader 0 bytes.now ∷ []) }
{
    let mut patches = Patches::new(alloc);
    patches.add(record_patch(alloc, base, reader, 0, bytes)?)?;
    Ok(patches)
}

/// What writes the four files of a place.
fn whole_of(alloc: Global, place: u8, files: BaseFiles) -> Result<Patches, AllocError>
    requires { place < 64 }
    ensures { IfOk result (λ patches. patches ≡ whole_files place files) }
{
    let mut patches = Patches::new(alloc);
    patches.add(whole(FileId::jhr(place), files.jhr))?;
    patches.add(whole(FileId::jdt(place), files.jdt))?;
    patches.add(whole(FileId::jdx(place), files.jdx))?;
    patches.add(whole(FileId::jlr(place), files.jlr))?;
    Ok(patches)
}

/// What writes .JHR, .JDT and .JDX of a place, in one change.
pub(crate) fn messages_of(
    alloc: Global,
    place: u8,
    jhr: Bytes,
    jdt: Bytes,
    jdx: Bytes,
) -> Result<Patches, AllocError>
    requires { place < 64 }
    ensures { IfOk result (λ patches. (jlr : List ℕ) → patches ≡ message_files place (record { jhr = jhr; jdt = jdt; jdx = jdx; jlr = jlr })) }
{
    let mut patches = Patches::new(alloc);
    patches.add(whole(FileId::jhr(place), jhr))?;
    patches.add(whole(FileId::jdt(place), jdt))?;
    patches.add(whole(FileId::jdx(place), jdx))?;
    Ok(patches)
}
