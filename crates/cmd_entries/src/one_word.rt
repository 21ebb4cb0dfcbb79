// What one word of a command is.
ghost use Rattle.std.specs.Prelude.{◌≡◌, IfOk, MatchOption};
ghost use Rattle.door_outside.specs.Name.{HasParts};
ghost use Rattle.cmd_entries.specs.OneWord.{file, folder, is_base, is_conferences, is_flags, number};

use byte_lists::Bytes;
use cmd_words::{Choice, number_of};
use door_outside::ShelfName;
use std::alloc::{AllocError, Global};

/// The number that a word is: 1 to 10 digits of a value of at most 4,294,967,295.
pub(crate) fn read_number(word: &[u8]) -> Option<u32>
    ensures { result ≡ number word.now }
{
    number_of(word)
}

/// The file that a word names: it is a shelf name.
pub(crate) fn file_of(alloc: Global, word: &[u8]) -> Result<Option<ShelfName>, AllocError>
    ensures { IfOk result (λ found. found ≡ file word.now) }
{
    ShelfName::parse(alloc, word)
}

/// A name of at most 3 parts.
fn short_name(alloc: Global, word: &[u8]) -> Result<Option<ShelfName>, AllocError>
    ensures { IfOk result (λ found. MatchOption found (¬ HasParts 3 word.now) (λ name. HasParts 3 word.now × (name ≡ word.now))) }
{
    match ShelfName::parse(alloc, word)? {
        Some(name) if name.is_folder() => Ok(Some(name)),
        _ => Ok(None),
    }
}

/// The folder that a word names: it is a shelf name of at most 3 parts.
pub(crate) fn folder_of(alloc: Global, word: &[u8]) -> Result<Option<ShelfName>, AllocError>
    ensures { IfOk result (λ found. found ≡ folder word.now) }
{
    short_name(alloc, word)
}

/// Whether a word is the prefix of the names of another tool's base: it is a shelf name with .JHR behind it, and then
/// with each other ending as well.
pub(crate) fn names_base(alloc: Global, prefix: &[u8]) -> Result<bool, AllocError>
    ensures { IfOk result (λ names. names ≡ is_base prefix.now) }
{
    let mut name = Bytes::from_slice(alloc, prefix)?;
    name.add(b".JHR")?;
    Ok(file_of(alloc, name.as_slice())?.is_some())
}

/// Whether a word is `-` or `n`.
pub(crate) fn are_flags(word: &[u8]) -> bool
    ensures { result ≡ is_flags word.now }
{
    word == b"-".as_slice() || word == b"n".as_slice()
}

/// Whether a word names conferences: all, or some by their numbers.
pub(crate) fn names_conferences(alloc: Global, word: &[u8]) -> Result<bool, AllocError>
    ensures { IfOk result (λ names. names ≡ is_conferences word.now) }
{
    Ok(Choice::parse(alloc, word)?.is_some())
}
