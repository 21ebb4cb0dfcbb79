ghost use Rattle.std.specs.Prelude.{◌≡◌, length, IfOk, Some, Ok, Err};
ghost use Rattle.jam_records.specs.byte_lists.Memory.{UnlessMemory};
ghost use Rattle.jam_records.specs.declared.damage.Damage.{Damage};
ghost use Rattle.board_ledger.specs.Ledger.{ledger_text, ledger_damage, stored_text};
ghost use Rattle.board_ledger.specs.Valid.{IsStored};

use crate::error::LedgerError;
use crate::read::ledger_of;
use crate::size::ledger_size;
use crate::upload::Uploads;
use crate::user::Users;
use crate::write::ledger_text as text_of;
use jam_records::Bytes;
use setup_file::Setup;
use std::alloc::{AllocError, Global};

/// How many users a board may have.
pub const USER_LIMIT: usize = 500;

/// How many upload records a board may keep.
pub const UPLOAD_LIMIT: usize = 100_000;

/// All of a board but its messages. A valid ledger has version 2 and a valid setup. It has at most 500 users, whose
/// names differ ignoring ASCII case. It has at most 100,000 upload records of these users, no two of one user and
/// digest.
///
/// A ledger of version 1 is valid but for its version. In it each user has at most one open offer, which is that of his
/// last packet.
#[derive(Debug, Drop)]
pub struct Ledger {
    /// The version of its file: 1 or 2 where it was read, and 2 where it is made.
    pub version: u8,
    /// What the board is made of.
    pub setup: Setup,
    /// When it was made, in Unix seconds.
    pub created: u32,
    /// Its users.
    pub users: Users,
    /// Its upload records.
    pub uploads: Uploads,
}

impl Ledger {
    /// The ledger whose text the bytes are, in version 1 or 2.
    ///
    /// `Damaged` comes where they are the text of no such ledger, with the first rule that they break, in file 0.
    /// Record 0 is all before the conferences. Then there is one record for each conference, user and upload.
    ///
    /// `OutOfMemory` comes where there is no memory. Where both meet, either may be answered.
    pub fn read(alloc: Global, bytes: &[u8]) -> Result<Ledger, LedgerError>
        ensures ok { IfOk result (λ l. IsStored l × (bytes.now ≡ stored_text l)) }
        ensures only_ok { (l : Ledger) → IsStored l → bytes.now ≡ stored_text l → UnlessMemory LedgerError.OutOfMemory result (Ok l) }
        ensures damaged { (d : Damage) → result ≡ Err (LedgerError.Damaged d) → ledger_damage bytes.now ≡ Some d }
        ensures only_damaged { (d : Damage) → ledger_damage bytes.now ≡ Some d → UnlessMemory LedgerError.OutOfMemory result (Err (LedgerError.Damaged d)) }
    {
        ledger_of(alloc, bytes)
    }

    /// The version of its file: 1 or 2 where it was read, and 2 where it is made.
    pub fn version(&self) -> u8
        ensures { result ≡ self.now.version }
    {
        self.version
    }

    /// The text of the ledger in version 2. The ledger is valid, or is of version 1.
    ///
    /// The error comes where there is no memory.
    pub fn write(&self, alloc: Global) -> Result<Bytes, AllocError>
        requires { IsStored self.now }
        ensures { IfOk result (λ bytes. bytes ≡ ledger_text self.now) }
    {
        text_of(alloc, self)
    }

    /// How many bytes the text of the ledger in version 2 has. The ledger is valid, or is of version 1. The call takes
    /// no memory.
    pub fn size(&self) -> u64
        requires { IsStored self.now }
        ensures { result ≡ length (ledger_text self.now) }
    {
        ledger_size(self)
    }
}
