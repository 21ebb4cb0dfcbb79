ghost use Rattle.std.specs.Prelude.{◌≡◌, IfOk};

use crate::conference::Conferences;
use crate::zones::Zones;
use jam_records::Bytes;
use std::alloc::{AllocError, Global};

/// What a setup file or a ledger says of its board. In a setup the fields keep the rules that are named here.
#[derive(Debug, Drop)]
pub struct SetupFields {
    /// The board's name, at most 60 bytes from 20h to 7Eh.
    pub board: Bytes,
    /// Its city, at most 60 bytes from 20h to 7Eh.
    pub city: Bytes,
    /// Its phone number, at most 60 bytes from 20h to 7Eh.
    pub phone: Bytes,
    /// The sysop's name, a user name.
    pub sysop: Bytes,
    /// The board id, 1 to 8 ASCII letters and digits.
    pub bbsid: Bytes,
    /// The serial number, at most 99,999.
    pub serial: u32,
    /// The zones of net mail.
    pub zones: Zones,
    /// The conferences, 1 to 64, whose numbers rise.
    pub conferences: Conferences,
}

impl SetupFields {
    /// Equal fields. The error comes where there is no memory.
    pub(crate) fn copy(&self, alloc: Global) -> Result<SetupFields, AllocError>
        ensures { IfOk result (λ copy. copy ≡ self.now) }
    {
        Ok(SetupFields {
            board: self.board.copy(alloc)?,
            city: self.city.copy(alloc)?,
            phone: self.phone.copy(alloc)?,
            sysop: self.sysop.copy(alloc)?,
            bbsid: self.bbsid.copy(alloc)?,
            serial: self.serial,
            zones: self.zones.copy(alloc)?,
            conferences: self.conferences.copy(alloc)?,
        })
    }
}
