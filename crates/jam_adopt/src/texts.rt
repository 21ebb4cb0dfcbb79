ghost use Rattle.std.specs.Prelude.{◌≡◌, ◌+◌, ◌≤◌, ◌<◌, ◌^◌, ◌++◌, [], ◌∷◌, length, slice_range, slice_index, IfOk, OnOk, MatchOption};
ghost use Rattle.jam_adopt.specs.Bodies.{without_feeds};
ghost use Rattle.jam_adopt.specs.Texts.{AreTexts};

use std::alloc::{AllocError, Global};

/// The bytes of .JDT without line feeds, by which a text without them is found in no more time than it has bytes then:
/// of 16,777,216 line feeds each of 2,097,152 headers may make its text.
#[derive(Debug, Drop)]
pub(crate) struct Texts {
    /// The bytes that aren't line feeds.
    pub(crate) kept: Vec<u8>,
    /// How many of them stand before each place of .JDT, and before its end.
    pub(crate) counts: Vec<u32>,
}

/// Adds a byte that isn't a line feed.
fn add_kept(kept: &mut Vec<u8>, byte: u8) -> Result<(), AllocError>
    ensures { OnOk result (kept.new.items ≡ kept.old.items ++ without_feeds (byte ∷ [])) }
{
    if byte == b'\n' {
        return Ok(());
    }
    kept.push(byte)?;
    Ok(())
}

impl Texts {
    /// Those of .JDT.
    #[tactic(auto, using(crate::proofs::Feeds::kept_small))]
    pub(crate) fn of(alloc: Global, jdt: &[u8]) -> Result<Texts, AllocError>
        requires { length jdt.now < 2 ^ 31 }
        ensures { IfOk result (AreTexts jdt.now) }
    {
        let mut kept = Vec::with_capacity(alloc, jdt.len())?;
        let mut counts = Vec::with_capacity(alloc, jdt.len() + 1)?;
        for byte in jdt {
            counts.push(kept.len() as u32)?;
            add_kept(&mut kept, *byte)?;
        }
        counts.push(kept.len() as u32)?;
        Ok(Texts { kept, counts })
    }

    /// How many bytes that aren't line feeds stand before a place.
    fn kept_before(&self, place: usize) -> usize
        requires { place < length self.now.counts.items }
        ensures { result ≡ slice_index self.now.counts.items place }
    {
        self.counts[place] as usize
    }

    /// The bytes that aren't line feeds from the one at a place among them up to another.
    fn part(&self, start: usize, end: usize) -> &[u8]
        requires rising { start ≤ end }
        requires within { end ≤ length self.now.kept.items }
        ensures { result.now ≡ slice_range self.now.kept.items start end }
    {
        &self.kept[start..end]
    }

    /// The text from a place on, so many bytes of .JDT without line feeds, or None where it passes the end.
    pub(crate) fn text(&self, jdt: &[u8], offset: u32, len: u32) -> Option<&[u8]>
        requires { AreTexts jdt.now self.now }
        ensures { MatchOption result (length jdt.now < offset + len) (λ text. (offset + len ≤ length jdt.now) × (text.now ≡ without_feeds (slice_range jdt.now offset (offset + len)))) }
    {
        let from = offset as usize;
        let to = from + len as usize;
        if jdt.len() < to {
            return None;
        }
        let start = self.kept_before(from);
        let end = self.kept_before(to);
        Some(self.part(start, end))
    }
}
