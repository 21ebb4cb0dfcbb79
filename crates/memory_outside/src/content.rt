ghost use Rattle.std.specs.Prelude.{◌≡◌, ℕ, ◌+◌, ◌-◌, ◌≤◌, ◌<◌, [], length, take, IfOk, OnOk, OnErr};
ghost use Rattle.door_outside.specs.Disk.{written};

use std::alloc::{AllocError, Global};
use std::marker::Model;

/// The content of a file in memory.
#[derive(Debug, Drop)]
pub(crate) struct Content {
    bytes: Vec<u8>,
}

impl Model for Content {
    ghost use Rattle.std.specs.Prelude.{ℕ, List};

    ghost Value = { List ℕ };

    ghost view = { λ c. c.bytes.items };
}

/// Adds bytes behind a gap of zeros that ends at a place from the end on.
fn add_past(old: &mut Vec<u8>, at: usize, bytes: &[u8]) -> Result<(), AllocError>
    requires { length old.old.items ≤ at }
    ensures ok { OnOk result (old.new.items ≡ written old.old.items at bytes.now) }
    ensures err { OnErr result (old.new.items ≡ old.old.items) }
{
    let len = old.len();
    old.resize(at, 0)?;
    let added = old.extend_from_slice(bytes);
    if added.is_err() {
        old.truncate(len);
    }
    added
}

/// Puts bytes over those from a place within, and adds what goes past the end.
fn put_over(old: &mut Vec<u8>, at: usize, bytes: &[u8]) -> Result<(), AllocError>
    requires { at < length old.old.items }
    ensures ok { OnOk result (old.new.items ≡ written old.old.items at bytes.now) }
    ensures err { OnErr result (old.new.items ≡ old.old.items) }
{
    let over = bytes.len().min(old.len() - at);
    old.extend_from_slice(&bytes[over..])?;
    old[at..at + over].copy_from_slice(&bytes[..over]);
    Ok(())
}

impl Content {
    /// No bytes. It takes no memory.
    pub(crate) fn new(alloc: Global) -> Content
        ensures { result ≡ [] }
    {
        Content {
            bytes: Vec::new(alloc),
        }
    }

    /// These bytes.
    pub(crate) fn from_slice(alloc: Global, bytes: &[u8]) -> Result<Content, AllocError>
        ensures { IfOk result (λ made. made ≡ bytes.now) }
    {
        let bytes = Vec::from_slice(alloc, bytes)?;
        Ok(Content { bytes })
    }

    /// The bytes.
    pub(crate) fn as_slice(&self) -> &[u8]
        ensures { result.now ≡ self.now }
    {
        self.bytes.as_slice()
    }

    /// Puts bytes at a place. A gap past the end becomes zeros. Where there is no memory, nothing changes.
    pub(crate) fn write(&mut self, at: u32, bytes: &[u8]) -> Result<(), AllocError>
        ensures ok { OnOk result (self.new ≡ written self.old at bytes.now) }
        ensures err { OnErr result (self.new ≡ self.old) }
    {
        let at = at as usize;
        if at < self.bytes.len() {
            put_over(&mut self.bytes, at, bytes)
        } else {
            add_past(&mut self.bytes, at, bytes)
        }
    }

    /// Shortens it to so many bytes, where it has more.
    pub(crate) fn cut(&mut self, len: u32)
        ensures { self.new ≡ take len self.old }
    {
        self.bytes.truncate(len as usize);
    }
}
