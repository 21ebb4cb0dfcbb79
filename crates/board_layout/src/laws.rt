//! The laws of the data files of a board, each the contract of a function that does nothing.
ghost use Rattle.std.specs.Prelude.{◌≡◌, ◌↔◌, None, Ok, Some};
ghost use Rattle.board_ledger.specs.damage_rules.Tests.{AllHold, IsFirstBroken};
ghost use Rattle.board_layout.specs.BoardTests.{board_tests};
ghost use Rattle.jam_records.specs.declared.damage.Damage.{Damage};
ghost use Rattle.board_ledger.specs.intent_journal.Patches.{HostFiles};
ghost use Rattle.board_layout.specs.Board.{Board};
ghost use Rattle.board_layout.specs.Damage.{board_of, board_damage};
ghost use Rattle.board_layout.specs.Layout.{AreFileBytes, AreEmpty, IsLayout, board_size, data_size};
ghost use Rattle.board_layout.specs.OldLayout.{old_size, IsOldLayout, IsStoredIn};
ghost use Rattle.board_layout.specs.Valid.{IsBoard};

/// Files have no damage exactly where they are the layout of a valid board in either version of the ledger. Board and
/// version are unique, and the board is the one that the files are read as. A layout is bytes, as many as its size says,
/// and so not empty.
pub fn unique_board()
    ensures undamaged { (files : HostFiles) → AreFileBytes files → (board_damage files ≡ None) ↔ ((b : Board) × IsBoard b × IsStoredIn b files) }
    ensures unique { (a b : Board) (files : HostFiles) → IsBoard a → IsBoard b → IsStoredIn a files → IsStoredIn b files → a ≡ b }
    ensures version { (a b : Board) (files : HostFiles) → IsBoard a → IsBoard b → IsLayout a files → ¬ IsOldLayout b files }
    ensures read { (b : Board) (files : HostFiles) → IsBoard b → IsStoredIn b files → board_of files ≡ Ok b }
    ensures size { (b : Board) (files : HostFiles) → IsBoard b → IsLayout b files → data_size files ≡ board_size b }
    ensures old_size { (b : Board) (files : HostFiles) → IsBoard b → IsOldLayout b files → data_size files ≡ old_size b }
    ensures bytes { (b : Board) (files : HostFiles) → IsBoard b → IsStoredIn b files → AreFileBytes files }
    ensures some { (b : Board) (files : HostFiles) → IsBoard b → IsStoredIn b files → ¬ AreEmpty files }
    ensures empty { (files : HostFiles) → (data_size files ≡ 0) ↔ AreEmpty files }
{}

/// The damage of data files is the first of their rules that is broken, in the order of the parts, the files and their
/// records, and there is none where all hold.
pub fn named_damage()
    ensures first { (files : HostFiles) (d : Damage) → (board_damage files ≡ Some d) ↔ IsFirstBroken (board_tests files) d }
    ensures none { (files : HostFiles) → (board_damage files ≡ None) ↔ AllHold (board_tests files) }
{}
