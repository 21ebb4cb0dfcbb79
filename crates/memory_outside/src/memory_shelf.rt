ghost use Rattle.std.specs.Prelude.{◌≡◌, ◌≤◌, ◌<◌, ◌++◌, [], true, length, unwrap_or, IfOk, OnOk, OnErr, IsTrue, ◌↔◌};
ghost use Rattle.std.specs.FinMap as map;
ghost use Rattle.std.specs.Option.{option_map};
ghost use Rattle.door_outside.specs.Cause.{HasCause};
ghost use Rattle.memory_outside.specs.Plan.{ByPlan, ByPlanOrMemory, FailsNext, Faulted, one_more};
ghost use Rattle.door_outside.specs.Shelf.{held, PieceIs, PieceWithin, BeginsFile, Appends};

use crate::calls::Calls;
use crate::pieces::read_piece;
use crate::plan::FaultPlan;
use byte_lists::Bytes;
use door_outside::{Piece, Shelf, ShelfFault, ShelfName};
use std::alloc::{AllocError, Global};
use std::collections::BTreeMap;
use std::marker::Model;

/// A shelf in memory, which tells its files and counts its calls.
#[derive(Drop)]
pub struct MemoryShelf {
    alloc: Global,
    files: BTreeMap<ShelfName, Bytes>,
    faults: u64,
    calls: Calls,
    /// How many bytes a piece has at most.
    longest: usize,
}

impl Model for MemoryShelf {
    ghost use Rattle.memory_outside.specs.MemoryShelf.{Shelved, shelved_code};
    ghost use Rattle.std.specs.FinMap as map;

    ghost Value = { Shelved };

    ghost coded = { shelved_code };

    ghost view = { λ s. record { files = map.from_entries s.files.entries; faults = s.faults; counts = s.calls } };
}

impl MemoryShelf {
    /// A shelf with no files, whose calls fail as the plan says.
    pub fn new(alloc: Global, plan: FaultPlan) -> MemoryShelf
        ensures { result ≡ record { files = map.empty; faults = 0; counts = record { plan = plan; calls = 0; starved = 0 } } }
    {
        MemoryShelf {
            alloc,
            files: BTreeMap::new(alloc),
            faults: 0,
            calls: Calls::new(plan),
            longest: usize::MAX,
        }
    }

    /// From now on a piece has at most so many bytes, and one at least: a shelf may give fewer than there is room for.
    pub fn shorten_pieces(&mut self, longest: usize)
        ensures { self.new ≡ self.old }
    {
        self.longest = longest.max(1);
    }

    /// Gives the file of that name these bytes, and makes it where it is missing. It is no call of the
    /// plan. Where there is no memory, the shelf is unchanged.
    pub fn put(&mut self, name: &ShelfName, bytes: &[u8]) -> Result<(), AllocError>
        ensures ok { OnOk result (self.new ≡ record self.old { files = map.insert self.old.files name.now bytes.now }) }
        ensures err { OnErr result (self.new ≡ self.old) }
    {
        let key = name.copy(self.alloc)?;
        let file = Bytes::from_slice(self.alloc, bytes)?;
        self.files.insert(key, file)?;
        Ok(())
    }

    /// The bytes of the file of that name, or None where there is none.
    pub fn get(&self, name: &ShelfName) -> Option<&[u8]>
        ensures { option_map (λ bytes. bytes.now) result ≡ held self.now.files name.now }
    {
        match self.files.get(name) {
            Some(file) => Some(file.as_slice()),
            None => None,
        }
    }

    /// How many calls failed because there was no memory.
    pub fn starved(&self) -> u64
        ensures { result ≡ self.now.counts.starved }
    {
        self.calls.starved()
    }
}

impl MemoryShelf {
    /// Counts a call, and answers whether it is to fail.
    fn fails(&mut self) -> bool
        ensures planned { IsTrue result ↔ FailsNext self.old.counts }
        ensures counted { self.new ≡ record self.old { counts = record self.old.counts { calls = one_more self.old.counts.calls } } }
    {
        self.calls.fails()
    }

    /// Counts a fault.
    fn fault(&mut self) -> ShelfFault
        ensures counted { self.new ≡ record self.old { faults = one_more self.old.faults } }
        ensures later { self.old.faults ≤ self.new.faults }
    {
        self.faults = self.faults.saturating_add(1);
        ShelfFault
    }

    /// Counts a fault for want of memory.
    fn starve(&mut self) -> ShelfFault
        ensures counted { self.new ≡ record self.old { faults = one_more self.old.faults; counts = record self.old.counts { starved = one_more self.old.counts.starved } } }
        ensures later { self.old.faults ≤ self.new.faults }
    {
        self.calls.starve();
        self.fault()
    }

    /// Adds bytes at the end of a file, and makes it where it is missing.
    fn extend(&mut self, name: &ShelfName, bytes: &[u8]) -> Result<(), AllocError>
        ensures ok { OnOk result (self.new ≡ record self.old { files = map.insert self.old.files name.now (unwrap_or (held self.old.files name.now) [] ++ bytes.now) }) }
        ensures err { OnErr result (self.new ≡ self.old) }
    {
        if let Some(file) = self.files.get_mut(name) {
            return file.add(bytes);
        }
        self.put(name, bytes)
    }
}

/// A piece of a file, where there is one. It has at most so many bytes.
fn piece_of(file: Option<&[u8]>, at: u32, buf: &mut [u8], longest: usize) -> Piece
    requires { 0 < longest }
    ensures bound { PieceWithin (length buf.old) result }
    ensures value { PieceIs (option_map (λ bytes. bytes.now) file.entry) at buf.old buf.new result }
{
    let room = buf.len().min(longest);
    match file {
        None => Piece::Missing,
        Some(file) => Piece::Count(read_piece(file, at, &mut buf[..room])),
    }
}

impl Shelf for MemoryShelf {
    ghost tells = { true };

    ghost files = { λ s. s.files };

    ghost faults = { λ s. s.faults };

    fn piece(&mut self, name: &ShelfName, at: u32, buf: &mut [u8]) -> Result<Piece, ShelfFault>
        ensures bound { IfOk result (PieceWithin (length buf.old)) }
        ensures value { IfOk result (PieceIs (held self.old.files name.now) at buf.old buf.new) }
        ensures unchanged { self.new.files ≡ self.old.files }
        ensures given { OnErr result (buf.new ≡ buf.old) }
        ensures cause { HasCause self.old.faults self.new.faults result }
        ensures faults { Faulted self.old.faults self.new.faults result }
        ensures planned { ByPlan self.old.counts self.new.counts result }
    {
        if self.fails() {
            return Err(self.fault());
        }
        let longest = self.longest.max(1);
        Ok(piece_of(self.get(name), at, buf, longest))
    }

    fn begin(&mut self, name: &ShelfName) -> Result<(), ShelfFault>
        ensures done { BeginsFile name.now self.old.files self.new.files result }
        ensures kept { OnErr result (self.new.files ≡ self.old.files) }
        ensures cause { HasCause self.old.faults self.new.faults result }
        ensures faults { Faulted self.old.faults self.new.faults result }
        ensures planned { ByPlanOrMemory self.old.counts self.new.counts result }
    {
        if self.fails() {
            return Err(self.fault());
        }
        match self.put(name, b"") {
            Ok(()) => Ok(()),
            Err(_) => Err(self.starve()),
        }
    }

    fn append(&mut self, name: &ShelfName, bytes: &[u8]) -> Result<(), ShelfFault>
        ensures done { Appends name.now bytes.now self.old.files self.new.files result }
        ensures kept { OnErr result (self.new.files ≡ self.old.files) }
        ensures cause { HasCause self.old.faults self.new.faults result }
        ensures faults { Faulted self.old.faults self.new.faults result }
        ensures planned { ByPlanOrMemory self.old.counts self.new.counts result }
    {
        if self.fails() {
            return Err(self.fault());
        }
        match self.extend(name, bytes) {
            Ok(()) => Ok(()),
            Err(_) => Err(self.starve()),
        }
    }
}
