// The body that is made of a text without line feeds.
ghost use Rattle.std.specs.Prelude.{◌≡◌, length, nat_lt, IfOk};
ghost use Rattle.jam_adopt.specs.Bodies.{is_ended as is_ended_text, ended_text};

use byte_lists::Bytes;
use std::alloc::{AllocError, Global};

/// The most bytes of a body.
const BODY: usize = 16_384;

/// Whether a text is empty or ends with a carriage return.
fn is_ended(text: &[u8]) -> bool
    ensures { result ≡ is_ended_text text.now }
{
    text.is_empty() || text[text.len() - 1] == b'\r'
}

/// How many bytes a text has once it is ended.
fn ended_len(text: &[u8]) -> usize
    ensures { result ≡ length (ended_text text.now) }
{
    if is_ended(text) {
        return text.len();
    }
    text.len() + 1
}

/// Whether a text has too many bytes for a body once it is ended.
pub(crate) fn is_long(text: &[u8]) -> bool
    ensures { result ≡ nat_lt 16384 (length (ended_text text.now)) }
{
    ended_len(text) > BODY
}

/// The text, with a carriage return at its end where it isn't empty.
pub(crate) fn body_of(alloc: Global, text: &[u8]) -> Result<Bytes, AllocError>
    ensures { IfOk result (λ body. body ≡ ended_text text.now) }
{
    let mut body = Bytes::from_slice(alloc, text)?;
    if !is_ended(text) {
        body.add(b"\r")?;
    }
    Ok(body)
}
