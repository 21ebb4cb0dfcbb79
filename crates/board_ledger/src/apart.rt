//! Whether the digests of upload records begin unlike: by one sort, where each look-up of a pair would be a walk.
ghost use Rattle.std.specs.Prelude.{◌≡◌, ◌≤◌, length, nat_eq, IfOk};
ghost use Rattle.std.specs.Bool.{OnTrue};
ghost use Rattle.std.specs.List.{IsDistinct};
ghost use Rattle.std.specs.List.Sorted.{IsStrictlyIncreasing};
ghost use Rattle.board_ledger.specs.Apart.{digest_number, digest_numbers};
ghost use Rattle.board_ledger.specs.Uploads.{upload_in_record, upload_size};

use crate::upload::UPLOAD_SIZE;
use jam_records::u32_at;
use std::alloc::{AllocError, Global};

/// The number that the digest of the record at the front begins with.
#[tactic(auto, unfolding(crate::specs::Uploads::upload_in_record))]
fn number_of(bytes: &[u8]) -> u64
    requires { upload_size ≤ length bytes.now }
    ensures { result ≡ digest_number (upload_in_record bytes.now) }
{
    let digest = &bytes[2..34];
    u64::from(u32_at(digest, 0)) * 0x1_0000_0000 + u64::from(u32_at(digest, 4))
}

/// The numbers that the digests of so many records begin with, or of as many as there are.
pub(crate) fn numbers_of(alloc: Global, count: u32, bytes: &[u8]) -> Result<Vec<u64>, AllocError>
    ensures { IfOk result (λ numbers. numbers.items ≡ digest_numbers count bytes.now) }
{
    let mut numbers = Vec::new(alloc);
    let mut rest = bytes;
    for _ in 0..count {
        if rest.len() < UPLOAD_SIZE {
            return Ok(numbers);
        }
        numbers.push(number_of(rest))?;
        rest = &rest[UPLOAD_SIZE..];
    }
    Ok(numbers)
}

/// Whether each number is below the next.
fn rise(numbers: &[u64]) -> bool
    ensures { OnTrue result (IsStrictlyIncreasing numbers.now) }
{
    for place in 1..numbers.len() {
        if numbers[place - 1] >= numbers[place] {
            return false;
        }
    }
    true
}

/// Whether no two numbers are equal. They are sorted.
pub(crate) fn are_apart(numbers: &mut Vec<u64>) -> bool
    ensures { OnTrue result (IsDistinct nat_eq numbers.old.items) }
{
    numbers.sort_unstable();
    rise(numbers.as_slice())
}
