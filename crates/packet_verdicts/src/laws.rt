//! Laws of verdicts and of the drafts of a packet, each the contract of a function that does nothing.
ghost use Rattle.std.specs.Prelude.{◌≡◌, ◌≤◌, ◌+◌, ℕ, List, length, All, IsSome};
ghost use Rattle.board_layout.specs.Board.{Board};
ghost use Rattle.board_layout.specs.Layout.{board_size};
ghost use Rattle.board_layout.specs.Lookups.{user_of};
ghost use Rattle.board_layout.specs.Outlines.{board_outline};
ghost use Rattle.board_layout.specs.Valid.{IsBoard, board_limit};
ghost use Rattle.board_ledger.specs.Uploads.{upload_size};
ghost use Rattle.jam_records.specs.declared.message.Message.{Message};
ghost use Rattle.netmail_rules.specs.Fits.{HasShortTexts};
ghost use Rattle.packet_verdicts.specs.Judged.{judged, refused_count};
ghost use Rattle.post_changes.specs.Posted.{spread};
ghost use Rattle.packet_verdicts.specs.Typed.{IsTypedPost};
ghost use Rattle.packet_verdicts.specs.Views.{view_of};
ghost use Rattle.qwk_blocks.specs.declared.message.QwkMessage.{QwkMessage};

/// Where the data files of a valid board have room for an upload record, they have it behind the drafts of a packet
/// too, and the board with the drafts is valid, whose bytes and moments are of their types. To and Subject of the
/// messages aren't longer than a message may have them.
pub fn drafts_fit()
    ensures room { (b : Board) (user now : ℕ) (messages : List QwkMessage) → IsBoard b → board_size b + upload_size ≤ board_limit → board_size (spread (judged b user now messages).1 b) + upload_size ≤ board_limit }
    ensures board { (b : Board) (user now : ℕ) (messages : List QwkMessage) → IsBoard b → IsSome (user_of user b) → board_size b + upload_size ≤ board_limit → All (λ m. HasShortTexts m.header) messages → All IsTypedPost (judged b user now messages).1 → IsBoard (spread (judged b user now messages).1 b) }
{}

/// Each message of a packet has an outcome, and is posted or refused.
pub fn each_is_judged()
    ensures outcomes { (b : Board) (user now : ℕ) (messages : List QwkMessage) → length (judged b user now messages).0 ≡ length messages }
    ensures counts { (b : Board) (user now : ℕ) (messages : List QwkMessage) → length (judged b user now messages).1 + refused_count (judged b user now messages).0 ≡ length messages }
{}

/// On the outline of a board the rules see what they see on the board, the messages of a packet are judged alike, and
/// posts lead to one outline.
pub fn outlines_judge_alike()
    ensures view { (b : Board) (user : ℕ) (m : QwkMessage) → view_of (board_outline b) user m ≡ view_of b user m }
    ensures judged { (b : Board) (user now : ℕ) (messages : List QwkMessage) → judged (board_outline b) user now messages ≡ judged b user now messages }
    ensures posts { (b : Board) (posts : List (ℕ × Message)) → board_outline (spread posts (board_outline b)) ≡ board_outline (spread posts b) }
{}
