// An intent, as its patches are spelled.
ghost use Rattle.std.specs.Prelude.{◌≡◌, ◌≤◌, [], ◌∷◌, ◌++◌, ◌↔◌, length, OnOk, OnErr, IsTrue};
ghost use Rattle.intent_journal.specs.Journal.{journal_text, spelled, IsSpelled, TakesPatch};

use crate::headers::patch_header;
use crate::marks::FileMarks;
use crate::patch::Patch;
use door_outside::FileId;
use std::alloc::{AllocError, Global};
use std::marker::Model;

/// How long the spelled intent is at most.
const LONGEST: u64 = 41_943_040;

/// Patches that are to be carried out together.
#[derive(Drop)]
pub struct Intent {
    count: u32,
    text: Vec<u8>,
    marks: FileMarks,
}

impl Model for Intent {
    ghost use Rattle.std.specs.Prelude.{List};
    ghost use Rattle.intent_journal.specs.declared.patch.Patch.{Patch};
    ghost use Rattle.intent_journal.specs.Journal.{spelled, IsSpelled, Marks};

    ghost Value = { List Patch };

    ghost view = { λ s. spelled s.count s.text.items };

    ghost invariant = { λ s. IsSpelled s.count s.text.items × Marks s.marks.touched s.marks.replaced (spelled s.count s.text.items) };
}

/// Adds two parts at the end of a text, or leaves it as it was.
fn append(text: &mut Vec<u8>, header: &[u8], bytes: &[u8]) -> Result<(), AllocError>
    ensures ok { OnOk result (text.new.items ≡ (text.old.items ++ header.now) ++ bytes.now) }
    ensures err { OnErr result (text.new.items ≡ text.old.items) }
{
    let end = text.len();
    text.extend_from_slice(header)?;
    match text.extend_from_slice(bytes) {
        Ok(()) => Ok(()),
        Err(error) => {
            text.truncate(end);
            Err(error)
        }
    }
}

impl Intent {
    /// The intent of no patches.
    pub fn new(alloc: Global) -> Intent
        ensures { result ≡ [] }
    {
        Intent {
            count: 0,
            text: Vec::new(alloc),
            marks: FileMarks::new(),
        }
    }

    #[tactic(auto, using(crate::proofs::Spelling::size_more))]
    /// Whether a patch may be added, which asks all of these:
    ///
    /// - Its file isn't the journal.
    /// - The file has no patch for all its bytes yet, and none at all where this is one.
    /// - Its end is below 2^31.
    /// - The spelled intent stays within 41,943,040 bytes.
    ///
    /// For callers of the library; the program doesn't call it.
    pub fn takes(&self, patch: &Patch) -> bool
        ensures { IsTrue result ↔ TakesPatch self.now patch.now }
    {
        let file = patch.file();
        let len = patch.bytes().len() as u64;
        let clashes = self.marks.clashes(file, patch.is_whole());
        let short = self.size() + 11 + len <= LONGEST;
        file != FileId::journal()
            && !clashes
            && short
            && u64::from(patch.place()) + len < 0x8000_0000
    }

    /// The length in bytes of the journal that holds the intent.
    pub fn size(&self) -> u64
        ensures length { result ≡ length (journal_text self.now) }
        ensures bound { result ≤ LONGEST }
    {
        13 + self.text.len() as u64
    }

    /// Adds at the end a patch that may be added, as `takes` says. Where there is no memory for it, the intent is
    /// unchanged.
    pub fn add(&mut self, patch: Patch) -> Result<(), AllocError>
        requires { TakesPatch self.old patch }
        ensures ok { OnOk result (self.new ≡ self.old ++ patch ∷ []) }
        ensures err { OnErr result (self.new ≡ self.old) }
    {
        let file = patch.file();
        let bytes = patch.bytes();
        let header = patch_header(
            patch.kind(),
            file.number(),
            patch.place(),
            bytes.len() as u32,
        );
        append(&mut self.text, &header, bytes)?;
        self.count += 1;
        self.marks.mark(file, patch.is_whole());
        Ok(())
    }

    /// The count of the patches and their text.
    pub(crate) fn parts(&self) -> (u32, &[u8])
        ensures patches { spelled result.0 result.1.now ≡ self.now }
        ensures spelled { IsSpelled result.0 result.1.now }
    {
        (self.count, self.text.as_slice())
    }
}
