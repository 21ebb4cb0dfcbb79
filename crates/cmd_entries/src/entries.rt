//! The entries that words are.
ghost use Rattle.std.specs.Prelude.{◌≡◌, ◌∷◌, [], ℕ, List, All, IfOk, IsErrOf, IsTrue};
ghost use Rattle.shelf_files.specs.ShelfFile.{file_within};
ghost use Rattle.cmd_entries.specs.Batch.{BatchReads, AreReadEntries, batch_limit};
ghost use Rattle.cmd_entries.specs.Entries.{AreEntries, EntriesRead, EntryCanRun, UnreadCauses};
ghost use Rattle.cmd_entries.specs.Words.{CommandReads, IsNoCommand};

use crate::batch::entries_in;
use crate::command::Command;
use crate::entry::{Entries, Entry, Usage};
use crate::unread::Unread;
use crate::words::Words;
use door_outside::{Shelf, ShelfName};
use shelf_files::{Halt, file_in};
use std::alloc::{AllocError, Global};

/// The most bytes of a batch's file.
const BATCH_LIMIT: u32 = 1_048_576;

/// One entry alone.
fn only(alloc: Global, entry: Entry) -> Result<Entries, AllocError>
    ensures { IfOk result (λ entries. entries ≡ entry ∷ []) }
{
    let mut entries = Entries::new(alloc);
    entries.add(entry)?;
    Ok(entries)
}

/// The entries of the batch in a file.
fn entries_of_batch<S: Shelf>(
    alloc: Global,
    shelf: &mut S,
    file: &ShelfName,
) -> Result<Entries, Unread>
    ensures reads { IsTrue S.tells → IfOk result (BatchReads (file_within (S.files shelf.old) file.now batch_limit)) }
    ensures some { IfOk result AreReadEntries }
    ensures can_run { IfOk result (All EntryCanRun) }
    ensures unchanged { IsTrue S.tells → S.files shelf.new ≡ S.files shelf.old }
    ensures causes { UnreadCauses (S.faults shelf.old) (S.faults shelf.new) result }
{
    match file_in(alloc, shelf, file, BATCH_LIMIT) {
        Ok(bytes) => Ok(entries_in(alloc, bytes.as_slice())?),
        Err(Halt::Refused(refusal)) => Ok(only(alloc, Entry::Refuse(refusal))?),
        Err(Halt::ShelfFault) => Err(Unread::ShelfFault),
        Err(Halt::OutOfMemory) => Err(Unread::OutOfMemory),
    }
}

/// The entries that words are: one command, or those of a batch. A batch's are the commands of its file as the shelf
/// holds it now, up to and with the first line that is none. Where the file isn't there or has more than 1,048,576
/// bytes, that refusal is the one entry. Words that are no command are an entry too. The shelf is only read, and only
/// for a batch.
///
/// `ShelfFault` comes only where the shelf's count of faults rose, and `OutOfMemory` where there is no memory.
pub fn entries_of<S: Shelf>(alloc: Global, words: &Words, shelf: &mut S) -> Result<Entries, Unread>
    ensures reads { IsTrue S.tells → IfOk result (EntriesRead words.now (S.files shelf.old)) }
    ensures some { IfOk result (AreEntries words.now) }
    ensures can_run { IfOk result (All EntryCanRun) }
    ensures unchanged { IsTrue S.tells → S.files shelf.new ≡ S.files shelf.old }
    ensures causes { UnreadCauses (S.faults shelf.old) (S.faults shelf.new) result }
    ensures no_command { IsNoCommand words.now → ¬ IsErrOf result Unread.ShelfFault }
    ensures no_batch { ((file : List ℕ) → ¬ CommandReads words.now (Command.Batch file)) → shelf.new ≡ shelf.old }
{
    match Command::parse(alloc, words)? {
        Some(Command::Batch { file }) => entries_of_batch(alloc, shelf, &file),
        Some(command) => Ok(only(alloc, Entry::Run(command))?),
        None => Ok(only(alloc, Entry::Wrong(Usage::Words))?),
    }
}
