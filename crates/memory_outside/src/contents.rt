ghost use Rattle.std.specs.Prelude.{◌≡◌, ℕ, ◌≤◌, ◌<◌, [], length, take, OnOk, OnErr};
ghost use Rattle.memory_outside.specs.Contents.{content, SameContents, Sets};
ghost use Rattle.door_outside.specs.Disk.{written};
ghost use Rattle.memory_outside.specs.Events.{file_after};

use crate::content::Content;
use crate::event::Event;
use door_outside::FileId;
use std::alloc::{AllocError, Global};
use std::marker::Model;

/// The contents of the files of a host in memory, up to the last that was reached.
#[derive(Drop)]
pub(crate) struct Contents {
    alloc: Global,
    files: Vec<Content>,
}

impl Model for Contents {
    ghost use Rattle.std.specs.Prelude.{ℕ, List, ◌≤◌, length};

    ghost Value = { List (List ℕ) };

    ghost view = { λ c. c.files.items };

    ghost invariant = { λ c. length c.files.items ≤ 258 };
}

impl Contents {
    /// All files are empty. It takes no memory.
    pub(crate) fn new(alloc: Global) -> Contents
        ensures { result ≡ [] }
    {
        Contents {
            alloc,
            files: Vec::new(alloc),
        }
    }

    /// How many files were reached, at most 258.
    pub(crate) fn len(&self) -> usize
        ensures value { result ≡ length self.now }
        ensures few { result ≤ 258 }
    {
        self.files.len()
    }

    /// The bytes of a file.
    pub(crate) fn get(&self, file: FileId) -> &[u8]
        ensures { result.now ≡ content self.now file }
    {
        match self.files.get(usize::from(file.number())) {
            Some(content) => content.as_slice(),
            None => &[],
        }
    }

    /// Makes room for the files up to this one.
    fn reach(&mut self, file: FileId) -> Result<(), AllocError>
        ensures same { SameContents self.old self.new }
        ensures there { OnOk result (file < length self.new) }
    {
        while self.files.len() <= usize::from(file.number()) {
            self.files.push(Content::new(self.alloc))?;
        }
        Ok(())
    }

    /// Gives a file a content. Where there is no memory, nothing changes.
    pub(crate) fn set(&mut self, file: FileId, bytes: &[u8]) -> Result<(), AllocError>
        ensures ok { OnOk result (Sets file bytes.now self.old self.new) }
        ensures err { OnErr result (SameContents self.old self.new) }
    {
        let content = Content::from_slice(self.alloc, bytes)?;
        self.reach(file)?;
        let place = usize::from(file.number());
        self.files[place] = content;
        Ok(())
    }

    /// Puts bytes at a place of a file. Where there is no memory, nothing changes.
    pub(crate) fn write(&mut self, file: FileId, at: u32, bytes: &[u8]) -> Result<(), AllocError>
        ensures ok { OnOk result (Sets file (written (content self.old file) at bytes.now) self.old self.new) }
        ensures err { OnErr result (SameContents self.old self.new) }
    {
        self.reach(file)?;
        let place = usize::from(file.number());
        self.files[place].write(at, bytes)
    }

    /// Shortens a file to so many bytes, where it has more.
    pub(crate) fn cut(&mut self, file: FileId, len: u32)
        ensures { Sets file (take len (content self.old file)) self.old self.new }
    {
        let place = usize::from(file.number());
        if place < self.files.len() {
            self.files[place].cut(len);
        }
    }

    /// What an event makes of them. Where there is no memory, nothing changes.
    pub(crate) fn change(&mut self, event: &Event) -> Result<(), AllocError>
        ensures ok { OnOk result ((file : ℕ) → content self.new file ≡ file_after event.now file (content self.old file)) }
        ensures err { OnErr result (SameContents self.old self.new) }
    {
        match event {
            Event::Write { file, at, bytes } => self.write(*file, *at, bytes.as_slice()),
            Event::Shorten { file, len } => {
                self.cut(*file, *len);
                Ok(())
            }
            Event::Put { file, bytes } => self.set(*file, bytes.as_slice()),
            Event::Sync { .. } | Event::Say { .. } => Ok(()),
        }
    }
}
