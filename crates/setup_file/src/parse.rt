ghost use Rattle.std.specs.Prelude.{◌≡◌, ◌<◌, ◌^◌, length, IfOk, MatchResult, IsTrue};
ghost use Rattle.setup_file.specs.Words.{number_of as number_in, is_number};
ghost use Rattle.setup_file.specs.Reads.{SetupReads};
ghost use Rattle.setup_file.specs.Fault.{SetupFault};
ghost use Rattle.setup_file.specs.State.{SetupFaultOrMemory, IsMadeOf};

use crate::conference::Conferences;
use crate::conference_line::conferences_of;
use crate::error::SetupError;
use crate::fields::SetupFields;
use crate::head::{Head, head_of};
use crate::setup::Setup;
use crate::word::number_of;
use crate::zones::Zones;
use crate::zones_line::zones_of;
use jam_records::Bytes;
use std::alloc::{AllocError, Global};
use text_fields::Unread;

/// The number of a serial, which is 1 to 5 digits.
fn serial_of(digits: &[u8]) -> u32
    ensures { IsTrue (is_number digits.now) → result ≡ number_in digits.now }
{
    number_of(digits).unwrap_or(0)
}

/// The fields of these values, zones and conferences.
fn fields_of(
    alloc: Global,
    head: Head<'_>,
    zones: Zones,
    conferences: Conferences,
) -> Result<SetupFields, AllocError>
    ensures { IfOk result (IsMadeOf head.entry zones conferences) }
{
    Ok(SetupFields {
        board: Bytes::from_slice(alloc, head.board)?,
        city: Bytes::from_slice(alloc, head.city)?,
        phone: Bytes::from_slice(alloc, head.phone)?,
        sysop: Bytes::from_slice(alloc, head.sysop)?,
        bbsid: Bytes::from_slice(alloc, head.bbsid)?,
        serial: serial_of(head.serial),
        zones,
        conferences,
    })
}

/// The setup of a file, or its first fault.
pub fn setup_in(alloc: Global, bytes: &[u8]) -> Result<Setup, SetupError>
    requires { length bytes.now < 2 ^ 31 }
    ensures { MatchResult result (SetupReads bytes.now) (SetupFaultOrMemory (SetupFault bytes.now)) }
{
    let start = Unread {
        text: bytes,
        line: 1,
    };
    let (head, behind_head) = head_of(start)?;
    let (zones, behind_zones) = zones_of(alloc, behind_head)?;
    let conferences = conferences_of(alloc, behind_zones)?;
    let fields = fields_of(alloc, head, zones, conferences)?;
    Ok(Setup::of(fields))
}
