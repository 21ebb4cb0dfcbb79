ghost use Rattle.std.specs.Prelude.{◌≡◌, ◌≤◌, ◌<◌, ◌^◌, ℕ, List, length, Ok, Err, IfOk, MatchOption};
ghost use Rattle.byte_lists.specs.Memory.{UnlessMemory};
ghost use Rattle.qwk_blocks.specs.declared.fault.QwkFault.{QwkFault};
ghost use Rattle.rep_packet.specs.Answer.{RepOrFault};
ghost use Rattle.rep_packet.specs.Rep.{HasBoardId, RepReads, RepFault};
ghost use Rattle.rep_packet.specs.Written.{IsRep};
ghost use Rattle.rep_packet.specs.declared.fault.RepError.TheVariants.{Fault, NoBoardId};
ghost use Rattle.rep_packet.specs.declared.rep.Rep.{Rep};

use crate::fault::RepError;
use crate::rep::Rep;
use byte_lists::Bytes;
use qwk_blocks::{QwkFault, read_messages};
use std::alloc::Global;
use text_fields::{Blank, trimmed_end};

/// The bytes of the first block.
const BLOCK: usize = 128;

/// The board id at the front of the first block, or None where it is empty.
fn board_id(bytes: &[u8]) -> Option<&[u8]>
    requires { 8 ≤ length bytes.now }
    ensures { MatchOption result ((id : List ℕ) → ¬ HasBoardId bytes.now id) (λ id. HasBoardId bytes.now id.now) }
{
    let id = trimmed_end(&bytes[..8], Blank::SpacesAndNuls);
    if id.is_empty() {
        return None;
    }
    Some(id)
}

/// The reply packet of a file, or its fault.
fn rep_of(alloc: Global, bytes: &[u8]) -> Result<Rep, RepError>
    requires { length bytes.now < 2 ^ 31 }
    ensures reads { RepOrFault bytes.now result }
    ensures writable { length bytes.now ≤ 1048576 → IfOk result IsRep }
{
    if bytes.len() < BLOCK {
        return Err(RepError::Fault(QwkFault::Truncated { at: 0 }));
    }
    let Some(id) = board_id(bytes) else {
        return Err(RepError::NoBoardId);
    };
    let messages = read_messages(alloc, bytes)?;
    let bbsid = Bytes::from_slice(alloc, id)?;
    Ok(Rep { bbsid, messages })
}

/// The reply packet of the bytes of BBSID.MSG, by Lee's QWK Mail Packet File Layout of 1992, or their
/// fault: fewer than 128 bytes, else the first 8 as spaces and NULs alone, else the first fault of the
/// blocks. The answer may be want of memory in place of either. The bytes are fewer than 2^31; the 120
/// behind the board id are free.
pub fn read_rep(alloc: Global, bytes: &[u8]) -> Result<Rep, RepError>
    requires { length bytes.now < 2 ^ 31 }

    // A packet is answered exactly where the bytes read as it, unless memory runs out.
    ensures ok { IfOk result (λ rep. RepReads bytes.now rep) }
    ensures only_ok { (rep : Rep) → RepReads bytes.now rep → UnlessMemory RepError.OutOfMemory result (Ok rep) }

    // So is a fault of the blocks, exactly where it is the fault of the packet.
    ensures fault { (fault : QwkFault) → result ≡ Err (Fault fault) → RepFault bytes.now (Fault fault) }
    ensures only_fault { (fault : QwkFault) → RepFault bytes.now (Fault fault) → UnlessMemory RepError.OutOfMemory result (Err (Fault fault)) }

    // So is a missing board id.
    ensures no_board { result ≡ Err NoBoardId → RepFault bytes.now NoBoardId }
    ensures only_no_board { RepFault bytes.now NoBoardId → UnlessMemory RepError.OutOfMemory result (Err NoBoardId) }

    // What is read of at most a mebibyte can be written.
    ensures writable { length bytes.now ≤ 1048576 → IfOk result (λ rep. IsRep rep) }
{
    rep_of(alloc, bytes)
}
