//! Laws of exports, each the contract of a function that does nothing.
ghost use Rattle.std.specs.Prelude.{◌≡◌, ◌↔◌, ℕ, List, Some, Ok, map};
ghost use Rattle.board_layout.specs.Board.{Board};
ghost use Rattle.board_layout.specs.Valid.{IsBoard};
ghost use Rattle.door_export.specs.Export.{export_of, Handout};
ghost use Rattle.long_names.specs.Plain.{plain};
ghost use Rattle.mail_board.specs.Readers.{user_id};
ghost use Rattle.offered_packets.specs.Shown.{packet, packet_read};
ghost use Rattle.qwk_blocks.specs.Packet.{PacketReads};
ghost use Rattle.qwk_blocks.specs.declared.message.QwkMessage.{QwkMessage};

/// What is handed out as MESSAGES.DAT to a user of a valid board reads as the messages that he is offered, each as it
/// is shown, and as no other list. Its reader sees of each the sender, the recipient, the subject and the lines of its
/// body. The first three are as the board keeps them where they are long or fit their fields (a name in its field in
/// ASCII capitals). Else he sees what fits of them.
pub fn exported_reads()
    ensures reads { (name : List ℕ) (limit now : ℕ) (b : Board) (p : Handout) → IsBoard b → export_of name limit now b ≡ Ok p → (id : ℕ) × (user_id name b ≡ Some id) × ((messages : List QwkMessage) → PacketReads p.messages messages ↔ (messages ≡ packet b id limit)) }
    ensures seen { (name : List ℕ) (limit now : ℕ) (b : Board) (p : Handout) → IsBoard b → export_of name limit now b ≡ Ok p → (id : ℕ) × (user_id name b ≡ Some id) × ((messages : List QwkMessage) → PacketReads p.messages messages → map plain messages ≡ packet_read b id limit) }
{}
