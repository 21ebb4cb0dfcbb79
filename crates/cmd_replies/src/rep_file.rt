//! The reply packet under a name.
ghost use Rattle.std.specs.Prelude.{◌≡◌, ◌≤◌, length, IsTrue, IfOk, IsErrOf};
ghost use Rattle.qwk_control.specs.Line.{IsId};
ghost use Rattle.rep_packet.specs.Written.{IsRep};
ghost use Rattle.shelf_files.specs.Halts.{Comes, ShelfCauses};
ghost use Rattle.shelf_files.specs.ShelfFile.{rep_limit};
ghost use Rattle.cmd_replies.specs.RepFile.{RepIn, RepOf, no_replies as no_replies_of, rep_halt};

use byte_lists::Bytes;
use door_outside::{FetchError, Fetched, Shelf, ShelfName, fetch_whole};
use qwk_blocks::QwkMessages;
use rep_packet::{Rep, RepError, read_rep};
use shelf_files::{Halt, REP_LIMIT, Refusal};
use std::alloc::{AllocError, Global};

/// Why a command stops at a fault of a reply packet.
fn halt_of(error: RepError) -> Halt
    ensures { result ≡ rep_halt error }
{
    match error {
        RepError::Fault(fault) => Halt::Refused(Refusal::Broken(fault)),
        RepError::NoBoardId => Halt::Refused(Refusal::NoBoardId),
        RepError::OutOfMemory => Halt::OutOfMemory,
    }
}

/// A new reply packet for a board.
fn no_replies(alloc: Global, bbsid: &[u8]) -> Result<Rep, AllocError>
    ensures { IfOk result (λ rep. rep ≡ no_replies_of bbsid.now) }
{
    Ok(Rep {
        bbsid: Bytes::from_slice(alloc, bbsid)?,
        messages: QwkMessages::new(alloc),
    })
}

/// The reply packet that bytes are, refused where they have a fault, or where it is for another board.
fn rep_of(alloc: Global, bytes: &[u8], bbsid: &[u8]) -> Result<Rep, Halt>
    requires { length bytes.now ≤ rep_limit }
    ensures rep { Comes result (RepIn bbsid.now bytes.now) }
    ensures writable { IfOk result IsRep }
    ensures no_fault { ¬ IsErrOf result Halt.ShelfFault }
{
    let rep = match read_rep(alloc, bytes) {
        Ok(rep) => rep,
        Err(error) => return Err(halt_of(error)),
    };
    if !rep.bbsid.as_slice().eq_ignore_ascii_case(bbsid) {
        return Err(Halt::Refused(Refusal::OtherBoard));
    }
    Ok(rep)
}

/// The reply packet under a name, or a new one where there is no file. It is refused where the file is too
/// long or has a fault, or where it is for another board.
pub(crate) fn rep_in<S: Shelf>(
    alloc: Global,
    shelf: &mut S,
    name: &ShelfName,
    bbsid: &[u8],
) -> Result<Rep, Halt>
    requires { IsId bbsid.now }
    ensures rep { IsTrue S.tells → Comes result (RepOf (S.files shelf.old) name.now bbsid.now) }
    ensures writable { IfOk result IsRep }
    ensures unchanged { IsTrue S.tells → S.files shelf.new ≡ S.files shelf.old }
    ensures causes { ShelfCauses (S.faults shelf.old) (S.faults shelf.new) result }
{
    match fetch_whole(alloc, shelf, name, REP_LIMIT) {
        Ok(Fetched::Missing) => Ok(no_replies(alloc, bbsid)?),
        Ok(Fetched::TooLarge) => Err(Halt::Refused(Refusal::TooLarge(name.copy(alloc)?))),
        Ok(Fetched::Whole(bytes)) => rep_of(alloc, bytes.as_slice(), bbsid),
        Err(FetchError::ShelfFault) => Err(Halt::ShelfFault),
        Err(FetchError::OutOfMemory) => Err(Halt::OutOfMemory),
    }
}
