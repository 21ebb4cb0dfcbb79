//! Laws of reply packets.
ghost use Rattle.std.specs.Prelude.{◌≡◌, ℕ, List};
ghost use Rattle.rep_packet.specs.Rep.{RepReads, RepFault};
ghost use Rattle.rep_packet.specs.Written.{IsRep, rep_text};
ghost use Rattle.rep_packet.specs.declared.rep.Rep.{Rep};
ghost use Rattle.rep_packet.specs.declared.fault.RepError.{RepError};

/// Bytes read as one reply packet at most.
pub fn one_rep()
    ensures { (bytes : List ℕ) (a b : Rep) → RepReads bytes a → RepReads bytes b → a ≡ b }
{}

/// Bytes have one fault at most, and none where they read as a reply packet.
pub fn one_fault()
    ensures one { (bytes : List ℕ) (a b : RepError) → RepFault bytes a → RepFault bytes b → a ≡ b }
    ensures none { (bytes : List ℕ) (rep : Rep) (fault : RepError) → RepReads bytes rep → ¬ RepFault bytes fault }
{}

/// What is written of a reply packet reads as it, and as no other.
pub fn written_reads_back()
    ensures reads { (rep : Rep) → IsRep rep → RepReads (rep_text rep) rep }
    ensures no_others { (rep other : Rep) → IsRep rep → RepReads (rep_text rep) other → other ≡ rep }
{}
