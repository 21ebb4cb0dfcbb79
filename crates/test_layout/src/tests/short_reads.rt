//! A read that comes short gives what came, and no zeros in place of the rest.
ghost use Rattle.std.specs.Prelude.{◌<◌, false};
ghost use Rattle.door_outside.specs.Disk.{silent};

use board_layout::{ReadError, read_board};
use door_outside::{DiskFault, FileId, Host, VoiceFault};
use jam_records::{Damage, DamageRule};
use std::test::Fail;

/// The ledger of a board of three conferences, without users.
const LEDGER: [u8; 119] =
    *b"QMDL\x01\0\x03\0\0\0\x02\0\0\0\0\0\0\xCA\x9A;90\0\0\x0A\0Test Board\x0B\0Springfield\x08\0555-0100\x09\0Sam Sysop\x07\0TESTBBS\x01\0\x02\0\0\0\0\x02\x07\0GENERAL\x01\0\x02\0\x07\0NETMAIL\x07\0\0\x01\x04\0NEWS";

/// A host with a ledger alone, of which a read gives all bytes but the last.
#[derive(Drop)]
struct ShortHost;

impl Host for ShortHost {
    ghost tells = { false };

    ghost disk = { λ _. silent };

    ghost disk_faults = { λ _. 0 };

    ghost voice_faults = { λ _. 0 };

    fn length(&mut self, file: FileId) -> Result<u32, DiskFault> {
        if file == FileId::ledger() {
            Ok(119)
        } else {
            Ok(0)
        }
    }

    fn read_at(&mut self, _file: FileId, _at: u32, buf: &mut [u8]) -> Result<usize, DiskFault> {
        let count = buf.len().min(118);
        buf[..count].copy_from_slice(&LEDGER[..count]);
        Ok(count)
    }

    fn write_at(&mut self, _file: FileId, _at: u32, _bytes: &[u8]) -> Result<(), DiskFault> {
        Ok(())
    }

    fn cut(&mut self, _file: FileId, _len: u32) -> Result<(), DiskFault> {
        Ok(())
    }

    fn sync(&mut self, _file: FileId) -> Result<(), DiskFault> {
        Ok(())
    }

    fn say(&mut self, _bytes: &[u8]) -> Result<(), VoiceFault> {
        Ok(())
    }
}

#[test]
fn a_short_read_makes_no_zeros(rt: HostRuntime) -> Result<(), Fail> {
    // The last byte is that of the third conference, which is record 3.
    let short = Damage {
        file: 0,
        item: 3,
        rule: DamageRule::Short,
    };
    let error = read_board(rt.alloc(), &mut ShortHost).err();
    assert_eq!(rt; error, Some(ReadError::Damaged(short)));
    Ok(())
}
