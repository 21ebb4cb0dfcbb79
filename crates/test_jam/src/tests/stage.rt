//! A base, and the files that patches made of none.
ghost use Rattle.std.specs.Prelude.{◌≡◌, All, IfOk};
ghost use Rattle.jam_layout.specs.Messages.{IsMessage};
ghost use Rattle.jam_records.specs.declared.message.Kind.TheVariants.{Local};

use super::conference::{are_short, general, line_of};
use super::patched::{bytes_put, file_of, no_files, patched};
use super::texts::{bytes_of, number_of, parted};
use byte_lists::{Bytes, Duplicate};
use intent_journal::Patches;
use jam_base::{Base, BaseChange, BaseFiles, read_base};
use jam_records::{Kind, Message, Messages, Slot};
use std::alloc::{AllocError, Global};
use std::test::Fail;

/// A base of a local conference, its files, and what a commit of the last change writes at most.
#[derive(Drop)]
pub struct Stage {
    pub base: Base,
    files: BaseFiles,
    written: u64,
    ghost kind: { base.shape.kind ≡ Local },
}

/// The change by which a base of four readers and no messages is made.
fn fresh(alloc: Global) -> Result<BaseChange, AllocError>
    ensures { IfOk result (λ change. change.base.shape.kind ≡ Kind.Local) }
{
    let shape = general(alloc)?;
    Base::fresh(alloc, &shape)
}

/// The change by which a fifth reader joins such a base.
fn joined(alloc: Global) -> Result<BaseChange, AllocError>
    ensures { IfOk result (λ change. change.base.shape.kind ≡ Kind.Local) }
{
    let shape = general(alloc)?;
    let made = Base::fresh(alloc, &shape)?;
    made.base.joined(alloc, 5, b"Eve Fox")
}

/// The base that files are read as.
fn base_of(alloc: Global, files: &BaseFiles) -> Result<Base, Fail>
    ensures { IfOk result (λ base. base.shape.kind ≡ Kind.Local) }
{
    if !are_short(files) {
        return Err(Fail::from("a file is long"));
    }
    let shape = general(alloc)?;
    Ok(read_base(alloc, files, &shape)?)
}

/// What a commit of the patches of a change writes at most.
fn written(change: &BaseChange) -> u64 {
    let bytes = bytes_put(&change.patches);
    let patches = change.patches.len() as u64;
    bytes
        .saturating_mul(2)
        .saturating_add(patches.saturating_mul(11))
        .saturating_add(15)
}

/// The files that patches make of none.
fn made(alloc: Global, patches: &Patches) -> Result<BaseFiles, Fail> {
    let mut files = no_files(alloc);
    patched(alloc, &mut files, patches)?;
    Ok(files)
}

impl Stage {
    /// The base of four readers and no messages.
    pub fn new(alloc: Global) -> Result<Stage, Fail> {
        let change = fresh(alloc)?;
        let files = made(alloc, &change.patches)?;
        Ok(Stage {
            base: change.base,
            files,
            written: 0,
        })
    }

    /// Makes the patches of a change, and answers what stands behind the counts then.
    fn patch(&mut self, alloc: Global, change: &BaseChange) -> Result<&'static str, Fail> {
        self.written = written(change);
        patched(alloc, &mut self.files, &change.patches)?;
        if change.patches.len() == 0 {
            Ok(" unchanged")
        } else {
            Ok("")
        }
    }

    /// The counts behind a change, where its patches were made.
    fn told_change(&self, alloc: Global, end: Result<&'static str, Fail>) -> Result<String, Fail> {
        let end = end?;
        Ok(self.counts(alloc, end)?)
    }

    /// Makes a change, and answers the counts behind it.
    pub fn make(&mut self, alloc: Global, change: BaseChange) -> Result<String, Fail>
        requires { change.base.shape.kind ≡ Kind.Local }
    {
        let end = self.patch(alloc, &change);
        self.base = change.base;
        self.told_change(alloc, end)
    }

    fn counts(&self, alloc: Global, end: &str) -> Result<String, AllocError> {
        let (slots, live) = (self.base.slot_count(), self.base.live_count());
        let size = self.base.size();
        format!(in alloc; "{slots} {live} {size}{end}")
    }

    /// Appends messages.
    pub fn extend(&mut self, alloc: Global, messages: &Messages) -> Result<String, Fail>
        requires { All (IsMessage Kind.Local) messages.now }
    {
        match self.base.appended(alloc, messages) {
            Ok(change) => self.make(alloc, change),
            Err(error) => Ok(format!(in alloc; "{error:?}")?),
        }
    }

    /// `file NUMBER TEXT` compares a file with a text.
    pub fn compare(&self, alloc: Global, words: &str) -> Result<String, Fail> {
        let (number, text) = parted(words)?;
        let number = u16::try_from(number_of(number)?).unwrap_or(0);
        let file = file_of(&self.files, number).ok_or("no file")?.as_slice();
        let wanted = bytes_of(alloc, text)?;
        let wanted = wanted.as_slice();
        if file == wanted {
            return Ok(String::from_str(alloc, "same")?);
        }
        let (len, other) = (file.len(), wanted.len());
        let place = file.iter().zip(wanted).position(|(a, b)| a != b);
        Ok(format!(in alloc; "{len} bytes, not {other}, that differ from byte {place:?} on")?)
    }

    /// Makes it the base of no messages.
    fn renew(&mut self, alloc: Global) -> Result<(), Fail> {
        *self = Stage::new(alloc)?;
        Ok(())
    }

    /// Makes it the base that its files are read as.
    fn read(&mut self, alloc: Global) -> Result<String, Fail> {
        self.base = base_of(alloc, &self.files)?;
        Ok(self.counts(alloc, "")?)
    }

    /// `new`, `join` and `read` make the base of no messages, of that and a fifth reader, and of the files.
    pub fn look(&mut self, alloc: Global, verb: &str, words: &str) -> Result<String, Fail> {
        match verb {
            "new" => {
                self.renew(alloc)?;
                Ok(self.counts(alloc, "")?)
            }
            "read" => self.read(alloc),
            "join" => {
                self.renew(alloc)?;
                self.make(alloc, joined(alloc)?)
            }
            _ => Ok(self.told(alloc, verb, number_of(words)?)?),
        }
    }

    /// `reply NUMBER`, `pointer USER`, `cost BYTES` and `message NUMBER`.
    fn told(&self, alloc: Global, verb: &str, number: u32) -> Result<String, AllocError> {
        match verb {
            "reply" => format!(in alloc; "{}", self.base.reply_to(number)),
            "pointer" => format!(in alloc; "{:?}", self.base.pointer(number)),
            "cost" => format!(in alloc; "{}", self.written <= u64::from(number)),
            _ => match self.message(alloc, number)? {
                Some(message) => line_of(alloc, &message),
                None => String::from_str(alloc, "none"),
            },
        }
    }

    /// The message of a number, with the body that .JDT has where the base says.
    fn message(&self, alloc: Global, number: u32) -> Result<Option<Message>, AllocError> {
        let (Some(Slot::Held(message)), Some(span)) = (
            self.base.slot(number),
            self.base.body_span(number),
        ) else {
            return Ok(None);
        };
        let (begin, len) = (span.at as usize, span.len as usize);
        let body = self.files.jdt.as_slice().get(begin..begin + len);
        let mut message = message.duplicate(alloc)?;
        message.body = Bytes::from_slice(alloc, body.unwrap_or(b"no body"))?;
        Ok(Some(message))
    }
}
