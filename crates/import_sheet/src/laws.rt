//! Laws of import sheets.
ghost use Rattle.std.specs.Prelude.{◌≡◌, ℕ, List};
ghost use Rattle.import_sheet.specs.Sheet.{SheetReads};
ghost use Rattle.import_sheet.specs.Fault.{SheetFault};
ghost use Rattle.import_sheet.specs.declared.fault.SheetRule.{SheetRule};
ghost use Rattle.import_sheet.specs.declared.sheet.Sheet.{Sheet};

/// Bytes read as one list of messages at most.
pub fn one_reading()
    ensures { (bytes : List ℕ) (a b : List Sheet) → SheetReads bytes a → SheetReads bytes b → a ≡ b }
{}

/// Bytes have one first failing line at most, with one rule, and none where they read as messages.
pub fn one_fault()
    ensures line { (bytes : List ℕ) (m n : ℕ) (q r : SheetRule) → SheetFault bytes m q → SheetFault bytes n r → m ≡ n }
    ensures rule { (bytes : List ℕ) (m n : ℕ) (q r : SheetRule) → SheetFault bytes m q → SheetFault bytes n r → q ≡ r }
    ensures none { (bytes : List ℕ) (sheets : List Sheet) (line : ℕ) (rule : SheetRule) → SheetReads bytes sheets → ¬ SheetFault bytes line rule }
{}
