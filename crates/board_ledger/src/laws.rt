//! The laws of the ledger, each the contract of a function that does nothing.
ghost use Rattle.std.specs.Prelude.{◌≡◌, ◌↔◌, ◌<◌, ◌^◌, ℕ, List, length, All, None, Some};
ghost use Rattle.jam_records.specs.declared.damage.Damage.{Damage};
ghost use Rattle.damage_rules.specs.Tests.{AllHold, IsFirstBroken};
ghost use Rattle.board_ledger.specs.LedgerTests.{ledger_tests};
ghost use Rattle.jam_records.specs.byte_lists.Byte.{IsByte};
ghost use Rattle.board_ledger.specs.Ledger.{ledger_text, ledger_damage, stored_text};
ghost use Rattle.board_ledger.specs.Valid.{IsLedger, IsStored, today};
ghost use Rattle.board_ledger.specs.declared.ledger.Ledger.{Ledger};

/// Bytes have no damage exactly where they are the text of a ledger in version 1 or 2, and ledger and version are
/// unique. The text of each such ledger is bytes, of which there are fewer than 2^31.
pub fn unique_ledger()
    ensures undamaged { (bytes : List ℕ) → All IsByte bytes → (ledger_damage bytes ≡ None) ↔ ((l : Ledger) × IsStored l × (bytes ≡ stored_text l)) }
    ensures unique { (a b : Ledger) → IsStored a → IsStored b → stored_text a ≡ stored_text b → a ≡ b }
    ensures fit { (l : Ledger) → IsStored l → All IsByte (stored_text l) × (length (stored_text l) < 2 ^ 31) }
{}

/// A ledger of version 1 or 2 is valid once it has version 2, and what is written of it is the text of that. The text of
/// a valid ledger in its version is the text that is written.
pub fn same_today()
    ensures valid { (l : Ledger) → IsStored l → IsLedger (today l) }
    ensures text { (l : Ledger) → ledger_text (today l) ≡ ledger_text l }
    ensures written { (l : Ledger) → IsLedger l → stored_text l ≡ ledger_text l }
{}

/// The damage of a ledger is the first of its rules that is broken, in the order of its records, and there is none where
/// all hold.
pub fn named_damage()
    ensures first { (bytes : List ℕ) (d : Damage) → (ledger_damage bytes ≡ Some d) ↔ IsFirstBroken (ledger_tests bytes) d }
    ensures none { (bytes : List ℕ) → (ledger_damage bytes ≡ None) ↔ AllHold (ledger_tests bytes) }
{}
