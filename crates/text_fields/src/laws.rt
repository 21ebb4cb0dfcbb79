//! Laws of fields and lines.
ghost use Rattle.std.specs.Prelude.{◌≡◌, ℕ, List, All};
ghost use Rattle.std.specs.Str.Lines.{lines};
ghost use Rattle.text_fields.specs.Blank.{IsBlank};
ghost use Rattle.text_fields.specs.Lines.{text_of_lines};
ghost use Rattle.text_fields.specs.Number.{Digits, Number};
ghost use Rattle.text_fields.specs.declared.blank.Blank.{Blank};
ghost use Rattle.text_fields.specs.Split.{Lacks};
ghost use Rattle.text_fields.specs.Trim.{Trimmed, TrimmedEnd};

/// Whichever bytes are blanks, a field without its blanks is one text.
pub fn one_trim()
    ensures end { (blank : Blank) (field a b : List ℕ) → TrimmedEnd (IsBlank blank) field a → TrimmedEnd (IsBlank blank) field b → a ≡ b }
    ensures both { (blank : Blank) (field a b : List ℕ) → Trimmed (IsBlank blank) field a → Trimmed (IsBlank blank) field b → a ≡ b }
{}

/// A text of digits has one value, and a field one number.
pub fn one_number()
    ensures digits { (text : List ℕ) (m n : ℕ) → Digits text m → Digits text n → m ≡ n }
    ensures field { (blank : Blank) (most : ℕ) (text : List ℕ) (m n : ℕ) → Number (IsBlank blank) most text m → Number (IsBlank blank) most text n → m ≡ n }
{}

/// Lines that are written, and have no LF in them, read as these lines.
pub fn lines_back()
    ensures { (all : List (List ℕ)) → All (Lacks 10) all → lines (text_of_lines all) ≡ all }
{}
