//! The command `reply`.
ghost use Rattle.std.specs.Prelude.{◌≡◌, IsTrue, IfOk};
ghost use Rattle.door_outside.specs.Name.{HasParts};
ghost use Rattle.entry_runs.specs.Entry.{Serves};
ghost use Rattle.offline_writer.specs.Drafts.{reply_envelope};
ghost use Rattle.offline_writer.specs.Fitting.{IsClean};
ghost use Rattle.qwk_control.specs.Line.{IsId};
ghost use Rattle.shelf_files.specs.Halts.{Comes, ShelfCauses, served};
ghost use Rattle.cmd_replies.specs.RepFile.{MayBeWritten};
ghost use Rattle.cmd_replies.specs.Reply.{AnswerMakes, ReplyMakes, replies, reply_line};

use crate::drafted::halt_of;
use crate::enlarging::{Enlarged, enlarge};
use crate::putting::{Added, put};
use cmd_packets::folder_in;
use door_outside::{Shelf, ShelfName};
use offline_writer::{draft_reply, message_at};
use qwk_blocks::QwkMessage;
use qwk_control::Control;
use shelf_files::{FILE_LIMIT, Halt, Refusal, file_in};
use std::alloc::Global;

/// The reply packet with the text under a name as the reply to a message.
fn answer<S: Shelf>(
    alloc: Global,
    shelf: &mut S,
    control: &Control,
    answered: &QwkMessage,
    text: &ShelfName,
    rep: &ShelfName,
    now: u32,
) -> Result<Enlarged, Halt>
    requires id { IsId control.now.bbsid }
    requires clean { IsClean (reply_envelope answered.now.header) }
    ensures made { IsTrue S.tells → Comes result (AnswerMakes control.now answered.now text.now rep.now now (S.files shelf.old)) }
    ensures may_be_written { IfOk result MayBeWritten }
    ensures unchanged { IsTrue S.tells → S.files shelf.new ≡ S.files shelf.old }
    ensures causes { ShelfCauses (S.faults shelf.old) (S.faults shelf.new) result }
{
    let bytes = file_in(alloc, shelf, text, FILE_LIMIT)?;
    match draft_reply(alloc, control, answered, bytes.as_slice(), now) {
        Ok(drafts) => enlarge(alloc, shelf, rep, control.bbsid.as_slice(), drafts),
        Err(error) => Err(halt_of(error)),
    }
}

/// The reply packet with the reply to the message in a place of a packet's folder. Nothing is written.
fn made_reply<S: Shelf>(
    alloc: Global,
    shelf: &mut S,
    folder: &ShelfName,
    place: u32,
    text: &ShelfName,
    rep: &ShelfName,
    now: u32,
) -> Result<Enlarged, Halt>
    requires { HasParts 3 folder.now }
    ensures made { IsTrue S.tells → Comes result (ReplyMakes folder.now place text.now rep.now now (S.files shelf.old)) }
    ensures may_be_written { IfOk result MayBeWritten }
    ensures unchanged { IsTrue S.tells → S.files shelf.new ≡ S.files shelf.old }
    ensures causes { ShelfCauses (S.faults shelf.old) (S.faults shelf.new) result }
{
    let packet = folder_in(alloc, shelf, folder)?;
    match message_at(&packet.messages, place) {
        Some(answered) => answer(alloc, shelf, &packet.control, answered, text, rep, now),
        None => Err(Halt::Refused(Refusal::NoMessage)),
    }
}

/// Adds the reply to the message in a place of a packet's folder, from 1, to the reply packet under a name,
/// and writes it anew. The text is the file of a name, and `now` is in seconds since 1970, in UTC.
pub fn reply<S: Shelf>(
    alloc: Global,
    shelf: &mut S,
    folder: &ShelfName,
    place: u32,
    text: &ShelfName,
    rep: &ShelfName,
    now: u32,
) -> Result<Added, Halt>
    requires { HasParts 3 folder.now }
    ensures serves { IsTrue S.tells → Serves (replies folder.now place text.now rep.now now) (S.files shelf.old) (S.files shelf.new) (served (reply_line place rep.now) result) }
    ensures causes { ShelfCauses (S.faults shelf.old) (S.faults shelf.new) result }
{
    let made = made_reply(alloc, shelf, folder, place, text, rep, now)?;
    put(alloc, shelf, rep, &made)
}
