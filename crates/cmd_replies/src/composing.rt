//! The command `compose`.
ghost use Rattle.std.specs.Prelude.{◌≡◌, IsTrue, IfOk};
ghost use Rattle.door_outside.specs.Name.{HasParts};
ghost use Rattle.entry_runs.specs.Entry.{Serves};
ghost use Rattle.qwk_control.specs.Line.{IsId};
ghost use Rattle.shelf_files.specs.Halts.{Comes, ShelfCauses, served};
ghost use Rattle.cmd_replies.specs.Compose.{SheetMakes, ComposeMakes, composes, composed_line};
ghost use Rattle.cmd_replies.specs.RepFile.{MayBeWritten};

use crate::drafted::halt_of;
use crate::enlarging::{Enlarged, enlarge};
use crate::putting::{Added, put};
use cmd_packets::control_in;
use door_outside::{Shelf, ShelfName, control_name};
use offline_writer::{draft_entries, listed_conference};
use qwk_control::Control;
use shelf_files::{Halt, Refusal, sheet_in};
use std::alloc::Global;

/// The reply packet with the messages of the sheet under a name to a conference.
fn composed<S: Shelf>(
    alloc: Global,
    shelf: &mut S,
    control: &Control,
    conference: u16,
    sheet: &ShelfName,
    rep: &ShelfName,
    now: u32,
) -> Result<Enlarged, Halt>
    requires { IsId control.now.bbsid }
    ensures made { IsTrue S.tells → Comes result (SheetMakes control.now conference sheet.now rep.now now (S.files shelf.old)) }
    ensures may_be_written { IfOk result MayBeWritten }
    ensures unchanged { IsTrue S.tells → S.files shelf.new ≡ S.files shelf.old }
    ensures causes { ShelfCauses (S.faults shelf.old) (S.faults shelf.new) result }
{
    let entries = sheet_in(alloc, shelf, sheet)?;
    match draft_entries(alloc, control, conference, &entries, now) {
        Ok(drafts) => enlarge(alloc, shelf, rep, control.bbsid.as_slice(), drafts),
        Err(error) => Err(halt_of(error)),
    }
}

/// The reply packet with the messages of a sheet to a conference of a packet's folder. Nothing is written.
fn made_messages<S: Shelf>(
    alloc: Global,
    shelf: &mut S,
    folder: &ShelfName,
    conference: u32,
    sheet: &ShelfName,
    rep: &ShelfName,
    now: u32,
) -> Result<Enlarged, Halt>
    requires { HasParts 3 folder.now }
    ensures made { IsTrue S.tells → Comes result (ComposeMakes folder.now conference sheet.now rep.now now (S.files shelf.old)) }
    ensures may_be_written { IfOk result MayBeWritten }
    ensures unchanged { IsTrue S.tells → S.files shelf.new ≡ S.files shelf.old }
    ensures causes { ShelfCauses (S.faults shelf.old) (S.faults shelf.new) result }
{
    let name = control_name(alloc, folder)?;
    let control = control_in(alloc, shelf, &name)?;
    match listed_conference(&control, conference) {
        Some(number) => composed(alloc, shelf, &control, number, sheet, rep, now),
        None => Err(Halt::Refused(Refusal::NoConference)),
    }
}

/// Adds the messages of a sheet to a conference of a packet's folder to the reply packet under a name, and
/// writes it anew. `now` is in seconds since 1970, in UTC.
pub fn compose<S: Shelf>(
    alloc: Global,
    shelf: &mut S,
    folder: &ShelfName,
    conference: u32,
    sheet: &ShelfName,
    rep: &ShelfName,
    now: u32,
) -> Result<Added, Halt>
    requires { HasParts 3 folder.now }
    ensures serves { IsTrue S.tells → Serves (composes folder.now conference sheet.now rep.now now) (S.files shelf.old) (S.files shelf.new) (served (composed_line rep.now) result) }
    ensures causes { ShelfCauses (S.faults shelf.old) (S.faults shelf.new) result }
{
    let made = made_messages(alloc, shelf, folder, conference, sheet, rep, now)?;
    put(alloc, shelf, rep, &made)
}
