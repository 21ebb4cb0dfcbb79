ghost use Rattle.std.specs.Prelude.{◌≡◌, ◌<◌, ◌≤◌, ◌^◌, ◌-◌, ℕ, List, Ok, Err, length, MatchResult, IfOk};
ghost use Rattle.byte_lists.specs.Memory.{UnlessMemory};
ghost use Rattle.fts_packet.specs.Packet.{FtsReads};
ghost use Rattle.fts_packet.specs.Fault.{FtsFault};
ghost use Rattle.fts_packet.specs.Answer.{HeaderTaken, FtsFaultOrMemory};
ghost use Rattle.fts_packet.specs.declared.fault.FtsError.TheVariants.{Fault};
ghost use Rattle.fts_packet.specs.declared.fault.FtsRule.{FtsRule};
ghost use Rattle.fts_packet.specs.declared.packet.FtsMessage.{FtsMessage};

use crate::fault::{FtsError, FtsRule};
use crate::message::message_of;
use crate::packet::FtsPacket;
use crate::parts::{is_end, parts_of};
use record_numbers::u16_at;
use std::alloc::Global;

/// The bytes of a packet's header.
const HEADER: usize = 58;

/// The header of a packet, and what follows it; or its fault.
fn header_of(bytes: &[u8]) -> Result<(&[u8], &[u8]), FtsError>
    ensures { MatchResult result
        (λ parts. HeaderTaken bytes.now parts.0.now parts.1.now)
        (FtsFaultOrMemory (FtsFault bytes.now)) }
{
    if bytes.len() < HEADER {
        return Err(FtsError::Fault {
            rule: FtsRule::Short,
            at: 0,
        });
    }
    let (header, behind) = bytes.split_at(HEADER);
    if u16_at(header, 18) != 2 {
        return Err(FtsError::Fault {
            rule: FtsRule::WrongType,
            at: 18,
        });
    }
    Ok((header, behind))
}

/// That the message which begins the last so many bytes of a packet breaks a rule.
fn breaks(bytes: &[u8], rest: &[u8], rule: FtsRule) -> FtsError
    requires within { length rest.now ≤ length bytes.now }
    requires small { length bytes.now < 2 ^ 31 }
    ensures { result ≡ Fault rule (length bytes.now - length rest.now) }
{
    let at = bytes.len() - rest.len();
    FtsError::Fault {
        rule,
        at: at as u32,
    }
}

/// The messages of a packet, or its first fault.
fn packet_in(alloc: Global, bytes: &[u8]) -> Result<FtsPacket, FtsError>
    requires { length bytes.now < 2 ^ 31 }
    ensures { MatchResult result (FtsReads bytes.now) (FtsFaultOrMemory (FtsFault bytes.now)) }
{
    let (header, behind) = header_of(bytes)?;
    let mut packet = FtsPacket::new(alloc);
    let mut rest = behind;
    while !is_end(rest) {
        let parts = match parts_of(rest) {
            Ok(parts) => parts,
            Err(rule) => return Err(breaks(bytes, rest, rule)),
        };
        packet.add(message_of(alloc, header, parts)?)?;
        rest = parts.rest;
    }
    Ok(packet)
}

/// The messages of a type 2 packet of FTS-0001, or the first fault of its bytes, which are fewer than 2^31.
/// The answer may be want of memory in place of either. It takes time linear in the bytes.
pub fn read_packet(alloc: Global, bytes: &[u8]) -> Result<FtsPacket, FtsError>
    requires { length bytes.now < 2 ^ 31 }

    // Messages are answered exactly where the bytes read as these, unless memory runs out.
    ensures ok { IfOk result (λ messages. FtsReads bytes.now messages) }
    ensures only_ok { (messages : List FtsMessage) → FtsReads bytes.now messages → UnlessMemory FtsError.OutOfMemory result (Ok messages) }

    // So is a fault, exactly where it is the first one.
    ensures fault { (rule : FtsRule) (at : ℕ) → result ≡ Err (Fault rule at) → FtsFault bytes.now rule at }
    ensures only_fault { (rule : FtsRule) (at : ℕ) → FtsFault bytes.now rule at → UnlessMemory FtsError.OutOfMemory result (Err (Fault rule at)) }
{
    packet_in(alloc, bytes)
}
