//! Laws of the layout of MESSAGES.DAT.
ghost use Rattle.std.specs.Prelude.{◌≡◌, ◌≤◌, ℕ, List, length, All};
ghost use Rattle.qwk_blocks.specs.Packet.{PacketReads, FirstFault};
ghost use Rattle.qwk_blocks.specs.Written.{Writable, spelling};
ghost use Rattle.qwk_blocks.specs.declared.fault.QwkFault.{QwkFault};
ghost use Rattle.qwk_blocks.specs.declared.message.QwkMessage.{QwkMessage};

/// Bytes read as one list of messages at most.
pub fn one_reading()
    ensures { (bytes : List ℕ) (a b : List QwkMessage) → PacketReads bytes a → PacketReads bytes b → a ≡ b }
{}

/// Bytes have one first fault at most, and none where they read as messages.
pub fn one_fault()
    ensures one { (bytes : List ℕ) (a b : QwkFault) → FirstFault bytes a → FirstFault bytes b → a ≡ b }
    ensures none { (bytes : List ℕ) (messages : List QwkMessage) (fault : QwkFault) → PacketReads bytes messages → ¬ FirstFault bytes fault }
{}

/// What is written of writable messages reads as these, and as no others.
pub fn written_reads_back()
    ensures reads { (notice : List ℕ) (messages : List QwkMessage) → length notice ≤ 128 → All Writable messages → PacketReads (spelling notice messages) messages }
    ensures no_others { (notice : List ℕ) (messages others : List QwkMessage) → length notice ≤ 128 → All Writable messages → PacketReads (spelling notice messages) others → others ≡ messages }
{}
