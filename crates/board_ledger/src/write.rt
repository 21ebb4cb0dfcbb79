ghost use Rattle.std.specs.Prelude.{◌≡◌, ◌++◌, IfOk, OnOk};
ghost use Rattle.std.specs.List.{flat_map};
ghost use Rattle.byteorder.specs.Endian.{little_bytes};
ghost use Rattle.board_ledger.specs.Opening.{fixed_text, setup_text};
ghost use Rattle.board_ledger.specs.Ledger.{ledger_text as text_of};
ghost use Rattle.open_offers.specs.declared.version.Version.TheVariants.{Second};
ghost use Rattle.board_ledger.specs.Valid.{IsLedger, today};

use crate::conferences::add_conferences;
use crate::ledger::Ledger;
use crate::uploads::add_uploads;
use crate::users::add_users;
use byteorder::{ByteOrder, LittleEndian};
use jam_records::Bytes;
use open_offers::{add_text, add_u16};
use setup_file::Setup;
use std::alloc::{AllocError, Global};

/// Adds the first 24 bytes: the magic, version 2, the counts, the moment and the serial number.
#[tactic(auto, unfolding(crate::specs::Opening::fixed_text))]
fn add_fixed(out: &mut Bytes, ledger: &Ledger) -> Result<(), AllocError>
    requires { IsLedger (today ledger.now) }
    ensures { OnOk result (out.new ≡ out.old ++ fixed_text Second ledger.now) }
{
    let setup = ledger.setup.fields();
    let counts = [
        2,
        setup.conferences.len() as u16,
        ledger.users.len() as u16,
        setup.zones.len() as u16,
    ];
    let numbers = [ledger.uploads.len() as u32, ledger.created, setup.serial];
    let mut small = [0; 8];
    LittleEndian::write_u16_into(&counts, &mut small);
    let mut large = [0; 12];
    LittleEndian::write_u32_into(&numbers, &mut large);
    out.add(b"QMDL")?;
    out.add(&small)?;
    out.add(&large)
}

/// Adds the zones.
fn add_zones(out: &mut Bytes, zones: &[u16]) -> Result<(), AllocError>
    ensures { OnOk result (out.new ≡ out.old ++ flat_map (little_bytes 2) zones.now) }
{
    for zone in zones {
        add_u16(out, *zone)?;
    }
    Ok(())
}

/// Adds the texts and the zones of a setup.
fn add_setup(out: &mut Bytes, setup: &Setup) -> Result<(), AllocError>
    ensures { OnOk result (out.new ≡ out.old ++ setup_text setup.now) }
{
    let fields = setup.fields();
    add_text(out, fields.board.as_slice())?;
    add_text(out, fields.city.as_slice())?;
    add_text(out, fields.phone.as_slice())?;
    add_text(out, fields.sysop.as_slice())?;
    add_text(out, fields.bbsid.as_slice())?;
    add_zones(out, fields.zones.as_slice())
}

/// The text of a ledger in version 2.
#[tactic(auto, unfolding(crate::specs::Ledger::text_in))]
pub(crate) fn ledger_text(alloc: Global, ledger: &Ledger) -> Result<Bytes, AllocError>
    requires { IsLedger (today ledger.now) }
    ensures { IfOk result (λ bytes. bytes ≡ text_of ledger.now) }
{
    let conferences = ledger.setup.fields().conferences.as_slice();
    let mut out = Bytes::new(alloc);
    add_fixed(&mut out, ledger)?;
    add_setup(&mut out, &ledger.setup)?;
    add_conferences(&mut out, conferences)?;
    add_users(&mut out, conferences.len() as u16, ledger.users.as_slice())?;
    add_uploads(&mut out, ledger.uploads.as_slice())?;
    Ok(out)
}
