//! Laws of setup files.
ghost use Rattle.std.specs.Prelude.{◌≡◌, ◌⊎◌, ℕ, List};
ghost use Rattle.setup_file.specs.Valid.{IsSetup};
ghost use Rattle.setup_file.specs.Reads.{SetupReads};
ghost use Rattle.setup_file.specs.Fault.{SetupFault};
ghost use Rattle.setup_file.specs.declared.error.SetupRule.{SetupRule};
ghost use Rattle.setup_file.specs.declared.fields.SetupFields.{SetupFields};

/// Bytes read as one setup at most, which is valid.
pub fn one_setup()
    ensures one { (bytes : List ℕ) (a b : SetupFields) → SetupReads bytes a → SetupReads bytes b → a ≡ b }
    ensures valid { (bytes : List ℕ) (setup : SetupFields) → SetupReads bytes setup → IsSetup setup }
{}

/// Bytes have one first failing line at most, with one rule, and none where they read as a setup.
pub fn one_fault()
    ensures line { (bytes : List ℕ) (m n : ℕ) (q r : SetupRule) → SetupFault bytes m q → SetupFault bytes n r → m ≡ n }
    ensures rule { (bytes : List ℕ) (m n : ℕ) (q r : SetupRule) → SetupFault bytes m q → SetupFault bytes n r → q ≡ r }
    ensures none { (bytes : List ℕ) (setup : SetupFields) (line : ℕ) (rule : SetupRule) → SetupReads bytes setup → ¬ SetupFault bytes line rule }
{}

/// Bytes read as a setup, or have a first failing line.
pub fn setup_or_fault()
    ensures { (bytes : List ℕ) → ((setup : SetupFields) × SetupReads bytes setup) ⊎ ((line : ℕ) × (rule : SetupRule) × SetupFault bytes line rule) }
{}
