//! Laws of numbers in records, each the contract of a function that does nothing.
ghost use Rattle.std.specs.Prelude.{◌≡◌, ◌≤◌, ℕ, List, length, take, All};
ghost use Rattle.byteorder.specs.Endian.{little_number, little_bytes};
ghost use Rattle.byte_lists.specs.Byte.{IsByte};

/// The bytes that read as a number, the low byte first, are that number's bytes. Numbers of 2, 4 and 8
/// bytes are instances. That a written number reads back is a law of `byteorder`.
#[tactic(auto, using(crate::proofs::NumberLemmas::bytes_of_number))]
pub fn number_bytes()
    ensures { (width : ℕ) (bytes : List ℕ) → All IsByte bytes → width ≤ length bytes → little_bytes width (little_number width bytes) ≡ take width bytes }
{}
