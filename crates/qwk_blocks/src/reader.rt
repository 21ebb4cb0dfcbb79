use crate::event::{Event, Fed};
use crate::fault::{BlocksFault, QwkFault};
use crate::header::BLOCK;
use crate::progress::{Awaited, Progress};
use std::marker::Model;

/// A reader of the blocks of MESSAGES.DAT, which takes the file in pieces of any size, and needs no memory
/// but its own: the last full block, and the bytes behind it. What it answers doesn't depend on how the
/// file is cut.
#[derive(Drop)]
pub struct BlockReader {
    /// The last full block.
    block: [u8; BLOCK],
    /// The block at hand, of which so many bytes are there.
    gathered: [u8; BLOCK],
    count: usize,
    /// How many bytes were taken.
    taken: u32,
    progress: Progress,
}

impl Model for BlockReader {
    ghost use Rattle.std.specs.Prelude.{◌<◌, ◌≤◌, take};
    ghost use Rattle.qwk_blocks.specs.Reader.{ReaderState};

    ghost Value = { ReaderState };

    ghost view = { λ r. record { block = r.block; part = take r.count r.gathered; taken = r.taken; progress = r.progress } };

    ghost invariant = { λ r. (r.count < 128) × (r.progress.messages ≤ r.progress.front) × (r.progress.front ≤ r.taken) };
}

impl BlockReader {
    ghost use Rattle.std.specs.Prelude.{◌≡◌, ◌↔◌, ℕ, ◌+◌, ◌<◌, ◌≤◌, ◌^◌, ◌++◌, List, [], length, Ok, Err, IfOk, IfSome, IsSome, MatchResult};
    ghost use Rattle.qwk_blocks.specs.Packet.{FirstFault};
    ghost use Rattle.qwk_blocks.specs.Reader.{HoldsStream, HasBadCount, CountsMessages, IsLastBlock, FillsBlock, IsEvent, MovesFront, next_bytes};
    ghost use Rattle.qwk_blocks.specs.declared.fault.QwkFault.{QwkFault};
    ghost use Rattle.qwk_blocks.specs.declared.fault.QwkFault.TheVariants.{BadBlocks};

    /// A reader that has taken nothing.
    pub fn new() -> BlockReader
        ensures { HoldsStream result [] }
    {
        BlockReader {
            block: [0; BLOCK],
            gathered: [0; BLOCK],
            count: 0,
            taken: 0,
            progress: Progress {
                front: 0,
                messages: 0,
                awaited: Awaited::Notice,
            },
        }
    }

    /// Takes from the front of the piece the rest of the block at hand, or the whole piece where it is less.
    /// The event is that of a block that became full. The stream is all that was taken so far; with the piece it
    /// has fewer than 2^31 bytes.
    ///
    /// `BlocksFault` comes where the block is a header whose count of blocks is no number or is 0, with the
    /// place of that header. Every later feed answers it again and takes nothing.
    pub fn feed(&mut self, piece: &[u8]) -> Result<Fed, BlocksFault>
        requires { self.old.taken + length piece.now < 2 ^ 31 }

        // The bytes that are taken are the next ones of the stream, unless it had a fault before.
        ensures holds { (stream : List ℕ) → HoldsStream self.old stream → ¬ HasBadCount stream → HoldsStream self.new (stream ++ next_bytes stream piece.now) }
        ensures bound { IfOk result (λ fed. (fed.used ≤ length piece.now) × (1 ≤ length piece.now → 1 ≤ fed.used)) }
        ensures taken { MatchResult result (λ fed. self.new.taken ≡ self.old.taken + fed.used) (λ _. self.new.taken ≤ self.old.taken + length piece.now) }
        ensures used { (stream : List ℕ) → HoldsStream self.old stream → IfOk result (λ fed. fed.used ≡ length (next_bytes stream piece.now)) }

        // An event is that of a block that became full.
        ensures full { (stream : List ℕ) → HoldsStream self.old stream → IfOk result (λ fed. IsSome fed.event ↔ FillsBlock stream (next_bytes stream piece.now)) }
        ensures event { (stream : List ℕ) → HoldsStream self.old stream → IfOk result (λ fed. IfSome fed.event (IsEvent self.old.progress.front (stream ++ next_bytes stream piece.now))) }
        ensures moves { IfOk result (λ fed. MovesFront self.old.progress self.new.taken fed.event self.new.progress) }

        // A fault is the first one of the stream with the taken bytes.
        ensures fault { (stream : List ℕ) → HoldsStream self.old stream → ¬ HasBadCount stream → (at : ℕ) → (result ≡ Err (record { at = at })) ↔ FirstFault (stream ++ next_bytes stream piece.now) (BadBlocks at) }
        ensures later { (stream : List ℕ) → HoldsStream self.old stream → (at : ℕ) → FirstFault stream (BadBlocks at) → (result ≡ Err (record { at = at })) × (self.new ≡ self.old) }
    {
        if self.progress.is_stopped() {
            return Err(BlocksFault {
                at: self.progress.front,
            });
        }
        let used = piece.len().min(BLOCK - self.count);
        let end = self.count + used;
        self.gathered[self.count..end].copy_from_slice(&piece[..used]);
        self.count = end;
        self.taken += used as u32;
        if end < BLOCK {
            return Ok(Fed { used, event: None });
        }
        self.count = 0;
        let block = self.gathered;
        self.block = block;
        match self.progress.after(&block, self.taken) {
            Some((progress, event)) => {
                self.progress = progress;
                Ok(Fed {
                    used,
                    event: Some(event),
                })
            }
            None => {
                let at = self.progress.front;
                self.progress.awaited = Awaited::Nothing;
                Err(BlocksFault { at })
            }
        }
    }

    /// The last full block, also while the next one is gathered, or zeros before the first one. For callers of the
    /// library; the program doesn't call it.
    pub fn block(&self) -> &[u8; BLOCK]
        ensures { (stream : List ℕ) → HoldsStream self.now stream → IsLastBlock stream result.now }
    {
        &self.block
    }

    /// How many messages the stream has, where nothing follows, or its first fault. It takes no memory, and may be
    /// asked at any time.
    pub fn finish(&self) -> Result<u32, QwkFault>
        ensures count { (stream : List ℕ) → HoldsStream self.now stream → (n : ℕ) → (result ≡ Ok n) ↔ CountsMessages stream n }
        ensures fault { (stream : List ℕ) → HoldsStream self.now stream → (fault : QwkFault) → (result ≡ Err fault) ↔ FirstFault stream fault }
    {
        self.progress.finish(self.taken)
    }
}
