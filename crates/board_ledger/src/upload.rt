ghost use Rattle.std.specs.Prelude.{◌≡◌, ◌≤◌, ◌<◌, ◌^◌, ◌++◌, length, OnOk};
ghost use Rattle.board_ledger.specs.Uploads.{upload_text, upload_in_record as upload_in, wrong_user as user_wrong, too_many as counts_wrong, upload_size};

use jam_records::{Bytes, Duplicate, List, u16_at, u32_at};
use open_offers::{add_u16, add_u32};
use std::alloc::{AllocError, Global};

/// How many bytes an upload record has.
pub const UPLOAD_SIZE: usize = 42;

/// How many messages an upload record may count.
pub const VERDICT_LIMIT: usize = 8191;

/// What became of the messages of an upload. Together they are at most 8,191.
#[derive(Debug, Clone, Copy, PartialEq, Eq)]
pub struct Counts {
    /// How many were posted.
    pub posted: u32,
    /// How many were refused.
    pub refused: u32,
}

/// A reply packet that a user sent.
#[derive(Debug, Clone, Copy, PartialEq, Eq)]
pub struct UploadRecord {
    /// The id of the user, from 1.
    pub user: u32,
    /// The SHA-256 of the packet.
    pub digest: [u8; 32],
    /// What became of its messages.
    pub counts: Counts,
}

/// The upload records of a board, in the order of the uploads.
pub type Uploads = List<UploadRecord>;

impl Duplicate for UploadRecord {
    fn duplicate(&self, _alloc: Global) -> Result<UploadRecord, AllocError> {
        Ok(*self)
    }
}

impl Counts {
    /// Whether they are above 8,191 together.
    pub(crate) fn too_many(&self) -> bool
        ensures { result ≡ counts_wrong self.now }
    {
        u64::from(self.posted) + u64::from(self.refused) > VERDICT_LIMIT as u64
    }
}

impl UploadRecord {
    /// Whether there is no user of that id, where there are so many users.
    pub(crate) fn wrong_user(&self, users: u16) -> bool
        ensures { result ≡ user_wrong users self.now }
    {
        self.user == 0 || self.user > u32::from(users)
    }

    /// The record at the front.
    #[tactic(auto, unfolding(crate::specs::Uploads::upload_in_record))]
    pub(crate) fn read(bytes: &[u8]) -> UploadRecord
        requires { upload_size ≤ length bytes.now }
        ensures { result ≡ upload_in bytes.now }
    {
        let mut digest = [0; 32];
        digest.copy_from_slice(&bytes[2..34]);
        UploadRecord {
            user: u32::from(u16_at(bytes, 0)),
            digest,
            counts: Counts {
                posted: u32_at(bytes, 34),
                refused: u32_at(bytes, 38),
            },
        }
    }

    /// Adds the record.
    #[tactic(auto, unfolding(crate::specs::Uploads::upload_text))]
    pub(crate) fn write(&self, out: &mut Bytes) -> Result<(), AllocError>
        requires { self.now.user < 2 ^ 16 }
        ensures { OnOk result (out.new ≡ out.old ++ upload_text self.now) }
    {
        add_u16(out, self.user as u16)?;
        out.add(&self.digest)?;
        add_u32(out, self.counts.posted)?;
        add_u32(out, self.counts.refused)
    }
}
