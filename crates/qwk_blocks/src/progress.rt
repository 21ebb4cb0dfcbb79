//! How far a reader of blocks has come.
ghost use Rattle.std.specs.Prelude.{◌≡◌, ◌≤◌, ◌<◌, ◌+◌, ◌-◌, ℕ, List, length, drop, IfSome, IsTrue, MatchResult, ◌↔◌};
ghost use Rattle.qwk_blocks.specs.Packet.{FirstFault};
ghost use Rattle.qwk_blocks.specs.Reader.{CountsMessages, IsProgress, AwaitsText, FollowsBlock, MovesFront};

use crate::event::Event;
use crate::fault::QwkFault;
use crate::header::count_of;

/// What the next block is to be.
#[derive(Clone, Copy, Debug, PartialEq, Eq)]
pub enum Awaited {
    /// The producer's notice.
    Notice,
    /// A header, or the end of the file.
    Header,
    /// A text block, which so many more of the same message follow.
    Text { left: u32 },
    /// None, since the last header had a faulty count.
    Nothing,
}

/// What a reader knows of the blocks that are full.
#[derive(Clone, Copy, Debug, PartialEq, Eq)]
pub struct Progress {
    /// Where the message at hand begins, or the place behind the last message where none is at hand.
    pub front: u32,
    /// How many messages are whole.
    pub messages: u32,
    /// What the next block is to be.
    pub awaited: Awaited,
}

impl Progress {
    /// Whether the last header had a faulty count.
    pub fn is_stopped(self) -> bool
        ensures { IsTrue result ↔ (self.awaited ≡ Awaited.Nothing) }
    {
        matches!(self.awaited, Awaited::Nothing)
    }

    /// The progress behind a block that ends at a place, where so many text blocks of its message are to
    /// come.
    fn with_text(self, blocks: u32, end: u32) -> Progress
        requires { self.messages < end }
        ensures { AwaitsText self blocks end result }
    {
        match blocks.checked_sub(1) {
            None => Progress {
                front: end,
                messages: self.messages + 1,
                awaited: Awaited::Header,
            },
            Some(left) => Progress {
                front: self.front,
                messages: self.messages,
                awaited: Awaited::Text { left },
            },
        }
    }

    /// The progress behind a block that ends at a place, and the block's event, or None where the block is
    /// a header with a faulty count.
    pub fn after(self, block: &[u8], end: u32) -> Option<(Progress, Event)>
        requires block { length block.now ≡ 128 }
        requires messages { self.messages ≤ self.front }
        requires end { self.front < end }
        ensures goes_on { (stream : List ℕ) → length stream ≡ end → drop (end - 128) stream ≡ block.now → IsProgress self 128 stream → FollowsBlock self stream result }
        ensures moves { IfSome result (λ next. MovesFront self end (Some next.1) next.0) }
    {
        match self.awaited {
            Awaited::Notice => {
                let next = Progress {
                    front: end,
                    messages: self.messages,
                    awaited: Awaited::Header,
                };
                Some((next, Event::Notice))
            }
            Awaited::Header => {
                let blocks = count_of(block)?;
                Some((self.with_text(blocks - 1, end), Event::Head { blocks }))
            }
            Awaited::Text { left } => Some((self.with_text(left, end), Event::Text { left })),
            Awaited::Nothing => None,
        }
    }

    /// How many messages there are where the file ends at a place, or the fault of its end.
    pub fn finish(self, end: u32) -> Result<u32, QwkFault>
        ensures { (gathered : ℕ) (stream : List ℕ) → gathered < 128 → length stream ≡ end → IsProgress self gathered stream → MatchResult result (CountsMessages stream) (FirstFault stream) }
    {
        let at = self.front;
        match self.awaited {
            Awaited::Notice | Awaited::Text { .. } => Err(QwkFault::Truncated { at }),
            Awaited::Header if at < end => Err(QwkFault::Truncated { at }),
            Awaited::Header => Ok(self.messages),
            Awaited::Nothing => Err(QwkFault::BadBlocks { at }),
        }
    }
}
