//! Laws of the lines of CONTROL.DAT.
ghost use Rattle.std.specs.Prelude.{◌≡◌, ℕ, List};
ghost use Rattle.qwk_control.specs.Control.{ControlReads};
ghost use Rattle.qwk_control.specs.Fault.{ControlFault};
ghost use Rattle.qwk_control.specs.Written.{control_text, WritableControl};
ghost use Rattle.qwk_control.specs.declared.control.Control.{Control};
ghost use Rattle.qwk_control.specs.declared.fault.ControlError.{ControlError};

/// Bytes read as one value at most.
pub fn one_control()
    ensures { (bytes : List ℕ) (a b : Control) → ControlReads bytes a → ControlReads bytes b → a ≡ b }
{}

/// Bytes have one first fault at most, and none where they read as a value.
pub fn one_fault()
    ensures one { (bytes : List ℕ) (a b : ControlError) → ControlFault bytes a → ControlFault bytes b → a ≡ b }
    ensures none { (bytes : List ℕ) (control : Control) (fault : ControlError) → ControlReads bytes control → ¬ ControlFault bytes fault }
{}

/// The written form of a writable value reads as it, and as no other.
pub fn written_reads_back()
    ensures reads { (control : Control) → WritableControl control → ControlReads (control_text control) control }
    ensures no_others { (control other : Control) → WritableControl control → ControlReads (control_text control) other → other ≡ control }
{}
