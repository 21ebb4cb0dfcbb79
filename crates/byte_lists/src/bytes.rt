ghost use Rattle.std.specs.Prelude.{◌≡◌, ℕ, List, [], ◌++◌, All, IfOk, OnOk, OnErr};
ghost use Rattle.byte_lists.specs.Byte.{IsByte};

use crate::copies::Duplicate;
use std::alloc::{AllocError, Global};
use std::marker::Model;

/// A byte string. Contracts see it as the list of its bytes, each below 256.
#[derive(Debug, Drop)]
pub struct Bytes {
    inner: Vec<u8>,
}

impl Model for Bytes {
    ghost Value = { List ℕ };

    ghost view = { λ a. a.inner.items };
}

/// The same bytes, of which it is said that each is one.
fn in_range(bytes: &[u8]) -> &[u8]
    ensures same { result.now ≡ bytes.now }
    ensures bytes { All IsByte bytes.now }
{
    bytes
}

impl Bytes {
    /// The empty string. It takes no memory.
    pub fn new(alloc: Global) -> Bytes
        ensures { result ≡ [] }
    {
        Bytes {
            inner: Vec::new(alloc),
        }
    }

    /// A string of these bytes. The error comes where there is no memory.
    pub fn from_slice(alloc: Global, bytes: &[u8]) -> Result<Bytes, AllocError>
        ensures { IfOk result (λ made. made ≡ bytes.now) }
    {
        let inner = Vec::from_slice(alloc, bytes)?;
        Ok(Bytes { inner })
    }

    /// The string of these bytes, which are not copied.
    pub fn from_vec(bytes: Vec<u8>) -> Bytes
        ensures { result ≡ bytes.items }
    {
        Bytes { inner: bytes }
    }

    /// Adds bytes at the end. Where there is no memory for them, the string is unchanged.
    pub fn add(&mut self, part: &[u8]) -> Result<(), AllocError>
        ensures ok { OnOk result (self.new ≡ self.old ++ part.now) }
        ensures err { OnErr result (self.new ≡ self.old) }
    {
        self.inner.extend_from_slice(part)
    }

    /// Makes room for so many bytes more, so that these take no memory when they are added. The string stays as it is.
    pub fn reserve(&mut self, count: usize) -> Result<(), AllocError>
        ensures { self.new ≡ self.old }
    {
        self.inner.reserve(count)
    }

    /// The bytes.
    pub fn as_slice(&self) -> &[u8]
        ensures same { result.now ≡ self.now }
        ensures bytes { All IsByte self.now }
    {
        in_range(self.inner.as_slice())
    }

    /// An equal string, in memory of its own. The error comes where there is no memory.
    pub fn copy(&self, alloc: Global) -> Result<Bytes, AllocError>
        ensures { IfOk result (λ copy. copy ≡ self.now) }
    {
        Bytes::from_slice(alloc, self.as_slice())
    }
}

impl Duplicate for Bytes {
    fn duplicate(&self, alloc: Global) -> Result<Bytes, AllocError> {
        self.copy(alloc)
    }
}
