//! Laws of another tool's base, each the contract of a function that does nothing.
ghost use Rattle.std.specs.Prelude.{◌≡◌, ◌↔◌, ◌<◌, ◌^◌, ℕ, List, length, All, Some};
ghost use Rattle.byte_lists.specs.Byte.{IsByte};
ghost use Rattle.jam_records.specs.Subfields.{SubfieldsRead};
ghost use Rattle.jam_records.specs.declared.subfield.Subfield.{Subfield};
ghost use Rattle.jam_adopt.specs.Fields.{fields_of};

/// The subfields that fill bytes are those that the bytes read as, and are nothing else.
pub fn subfields_fill()
    ensures { (bytes : List ℕ) (fields : List Subfield) → All IsByte bytes → length bytes < 2 ^ 31 → (fields_of bytes ≡ Some fields) ↔ SubfieldsRead bytes fields }
{}
