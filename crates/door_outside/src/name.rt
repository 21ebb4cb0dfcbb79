ghost use Rattle.std.specs.Prelude.{◌≡◌, ℕ, List, ◌∷◌, ◌++◌, ◌<◌, ◌≤◌, ◌==◌, ◌↔◌, length, count_by, All, IsTrue, IfOk, MatchOption};
ghost use Rattle.door_outside.specs.Name.{IsNameByte, IsNamePart, parts, HasParts, IsShelfName};

use byte_lists::{Bytes, Duplicate};
use std::alloc::{AllocError, Global};
use std::marker::Model;

/// The most parts of a shelf name.
const MOST_PARTS: usize = 4;

/// The most bytes of a part.
const LONGEST_PART: usize = 32;

/// The name of a file of a shelf: 1 to 4 parts joined by `/`, each of 1 to 32 letters, digits, `.`, `_` and
/// `-`, and none beginning with `.`.
#[derive(Debug, Drop)]
pub struct ShelfName {
    text: Bytes,
}

impl Model for ShelfName {
    ghost Value = { List ℕ };

    ghost view = { λ s. s.text };

    ghost invariant = { λ s. IsShelfName s.text };
}

fn is_name_byte(b: u8) -> bool
    ensures { IsTrue result ↔ IsNameByte b }
{
    matches!(b, b'0'..=b'9' | b'A'..=b'Z' | b'a'..=b'z' | b'.' | b'_' | b'-')
}

fn is_part(part: &[u8]) -> bool
    ensures { IsTrue result ↔ IsNamePart part.now }
{
    let [first, ..] = part else {
        return false;
    };
    *first != b'.' && part.len() <= LONGEST_PART && part.iter().all(|b| is_name_byte(*b))
}

fn slash_count(text: &[u8]) -> usize
    ensures { result ≡ count_by (λ b. b == 47) text.now }
{
    text.iter().filter(|b| **b == b'/').count()
}

/// Whether a text has so many parts at most between its `/`.
fn has_few_parts(text: &[u8], most: usize) -> bool
    ensures { IsTrue result ↔ (length (parts text.now) ≤ most) }
{
    slash_count(text) < most
}

/// Whether each of them may stand in a name.
fn are_parts(text: &[u8]) -> bool
    ensures { IsTrue result ↔ All IsNamePart (parts text.now) }
{
    text.split(|b| *b == b'/').all(is_part)
}

/// Whether a text is so many parts at most, joined by `/`.
fn has_parts(text: &[u8], most: usize) -> bool
    ensures { IsTrue result ↔ HasParts most text.now }
{
    has_few_parts(text, most) && are_parts(text)
}

impl ShelfName {
    /// The name that a text is, or None where it is no shelf name. The error comes where there is no memory.
    pub fn parse(alloc: Global, text: &[u8]) -> Result<Option<ShelfName>, AllocError>
        ensures { IfOk result (λ found. MatchOption found (¬ IsShelfName text.now) (λ name. IsShelfName text.now × (name ≡ text.now))) }
    {
        if !has_parts(text, MOST_PARTS) {
            return Ok(None);
        }
        let text = Bytes::from_slice(alloc, text)?;
        Ok(Some(ShelfName { text }))
    }

    /// The name, `/` and a further part, or None where that is no shelf name. For callers of the library; the program
    /// doesn't call it.
    pub fn join(&self, alloc: Global, part: &[u8]) -> Result<Option<ShelfName>, AllocError>
        ensures { let text = self.now ++ 47 ∷ part.now in IfOk result (λ found. MatchOption found (¬ IsShelfName text) (λ name. IsShelfName text × (name ≡ text))) }
    {
        let mut text = self.text.copy(alloc)?;
        text.add(b"/")?;
        text.add(part)?;
        if !has_parts(text.as_slice(), MOST_PARTS) {
            return Ok(None);
        }
        Ok(Some(ShelfName { text }))
    }

    /// The name of a file in this folder, which has at most 3 parts. The part is one of a name. The error comes where there is
    /// no memory.
    pub fn file(&self, alloc: Global, part: &[u8]) -> Result<ShelfName, AllocError>
        requires folder { HasParts 3 self.now }
        requires part { IsNamePart part.now }
        ensures { IfOk result (λ name. name ≡ self.now ++ 47 ∷ part.now) }
    {
        let mut text = self.text.copy(alloc)?;
        text.add(b"/")?;
        text.add(part)?;
        Ok(ShelfName { text })
    }

    /// Whether the name has at most 3 parts, and so may name a folder.
    pub fn is_folder(&self) -> bool
        ensures { IsTrue result ↔ HasParts 3 self.now }
    {
        has_parts(self.text.as_slice(), 3)
    }

    /// The text of the name.
    pub fn as_slice(&self) -> &[u8]
        ensures text { result.now ≡ self.now }
        ensures named { IsShelfName self.now }
    {
        self.text.as_slice()
    }

    /// An equal name. The error comes where there is no memory.
    pub fn copy(&self, alloc: Global) -> Result<ShelfName, AllocError>
        ensures { IfOk result (λ copy. copy ≡ self.now) }
    {
        let text = self.text.copy(alloc)?;
        Ok(ShelfName { text })
    }
}

impl Duplicate for ShelfName {
    fn duplicate(&self, alloc: Global) -> Result<ShelfName, AllocError> {
        self.copy(alloc)
    }
}
