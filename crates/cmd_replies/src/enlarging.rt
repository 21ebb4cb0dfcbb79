//! Drafts at the end of the reply packet under a name.
ghost use Rattle.std.specs.Prelude.{◌≡◌, All, IsTrue, IfOk};
ghost use Rattle.long_names.specs.Fits.{FitsWithLong};
ghost use Rattle.qwk_control.specs.Line.{IsId};
ghost use Rattle.shelf_files.specs.Halts.{Comes, ShelfCauses};
ghost use Rattle.cmd_replies.specs.RepFile.{EnlargesRep, MayBeWritten};

use crate::rep_file::rep_in;
use door_outside::{Shelf, ShelfName};
use offline_writer::add_drafts;
use qwk_blocks::QwkMessages;
use rep_packet::Rep;
use shelf_files::{Halt, REP_LIMIT, Refusal};
use std::alloc::Global;

/// A reply packet with drafts at its end.
#[derive(Drop)]
pub struct Enlarged {
    /// How many drafts were added.
    pub added: u64,
    /// The reply packet with them.
    pub rep: Rep,
}

/// The reply packet under a name with drafts at its end, refused as `rep_in` says, and where its written form
/// is longer than a reply packet may be.
pub(crate) fn enlarge<S: Shelf>(
    alloc: Global,
    shelf: &mut S,
    name: &ShelfName,
    bbsid: &[u8],
    drafts: QwkMessages,
) -> Result<Enlarged, Halt>
    requires id { IsId bbsid.now }
    requires writable { All FitsWithLong drafts }
    ensures made { IsTrue S.tells → Comes result (EnlargesRep (S.files shelf.old) name.now bbsid.now drafts) }
    ensures may_be_written { IfOk result MayBeWritten }
    ensures unchanged { IsTrue S.tells → S.files shelf.new ≡ S.files shelf.old }
    ensures causes { ShelfCauses (S.faults shelf.old) (S.faults shelf.new) result }
{
    let mut rep = rep_in(alloc, shelf, name, bbsid)?;
    let added = drafts.len() as u64;
    add_drafts(alloc, &mut rep, drafts)?;
    if rep.size() > u64::from(REP_LIMIT) {
        return Err(Halt::Refused(Refusal::TooLarge(name.copy(alloc)?)));
    }
    Ok(Enlarged { added, rep })
}
