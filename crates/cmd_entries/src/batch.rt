//! The entries of a batch's lines.
ghost use Rattle.std.specs.Prelude.{◌<◌, ◌^◌, All, IfOk, length};
ghost use Rattle.std.specs.Str.Lines.{lines};
ghost use Rattle.cmd_entries.specs.Batch.{LineEntry, BatchLinesRead};
ghost use Rattle.cmd_entries.specs.Entries.{EntryCanRun};

use crate::command::Command;
use crate::entry::{Entries, Entry, Usage};
use crate::words::Words;
use std::alloc::{AllocError, Global};
use text_fields::{is_skipped, next_line};

/// The entry that a line of a number is. A batch in a batch is no command.
fn entry_of(alloc: Global, number: u32, line: &[u8]) -> Result<Entry, AllocError>
    ensures reads { IfOk result (LineEntry number line.now) }
    ensures can_run { IfOk result EntryCanRun }
{
    let Some(words) = Words::of_line(alloc, line)? else {
        return Ok(Entry::Wrong(Usage::Line(number)));
    };
    match Command::parse(alloc, &words)? {
        Some(Command::Batch { .. }) => Ok(Entry::Wrong(Usage::Line(number))),
        Some(command) => Ok(Entry::Run(command)),
        None => Ok(Entry::Wrong(Usage::Line(number))),
    }
}

/// The entries of a batch, up to and with the first line that is no command.
pub(crate) fn entries_in(alloc: Global, text: &[u8]) -> Result<Entries, AllocError>
    requires { length text.now < 2 ^ 31 }
    ensures reads { IfOk result (BatchLinesRead 1 (lines text.now)) }
    ensures can_run { IfOk result (All EntryCanRun) }
{
    let mut entries = Entries::new(alloc);
    let mut rest = text;
    let mut number = 1;
    while let Some((line, behind)) = next_line(rest) {
        if !is_skipped(line) {
            let entry = entry_of(alloc, number, line)?;
            let is_last = entry.is_wrong();
            entries.add(entry)?;
            if is_last {
                return Ok(entries);
            }
        }
        rest = behind;
        number += 1;
    }
    Ok(entries)
}
