// Which files have a patch.
ghost use Rattle.std.specs.Prelude.{◌≡◌, List, [], ◌∷◌, ◌||◌, true, false, replicate};
ghost use Rattle.door_outside.specs.File.{file_count};
ghost use Rattle.std.specs.List.{list_any};
ghost use Rattle.intent_journal.specs.Journal.{Marks};
ghost use Rattle.intent_journal.specs.Patches.{file_of, is_touched, is_whole, clash};
ghost use Rattle.intent_journal.specs.declared.patch.Patch.{Patch};

use door_outside::{FILE_COUNT, FileId};

/// A table of no files.
fn no_files() -> [bool; FILE_COUNT]
    ensures { result ≡ replicate file_count false }
{
    [false; FILE_COUNT]
}

/// Which files have a patch, and which have one for all their bytes.
#[derive(Drop)]
pub(crate) struct FileMarks {
    touched: [bool; FILE_COUNT],
    replaced: [bool; FILE_COUNT],
}

impl FileMarks {
    /// No file has one.
    pub(crate) fn new() -> FileMarks
        ensures { Marks result.touched result.replaced [] }
    {
        FileMarks {
            touched: no_files(),
            replaced: no_files(),
        }
    }

    /// Whether a patch for a file, for all its bytes or not, clashes with one of the others.
    pub(crate) fn clashes(&self, file: FileId, whole: bool) -> bool
        ensures { (patches : List Patch) (patch : Patch) → file_of patch ≡ file → is_whole patch ≡ whole → Marks self.now.touched self.now.replaced patches → result ≡ list_any (clash patch) patches }
    {
        let place = usize::from(file.number());
        if whole {
            self.touched[place]
        } else {
            self.replaced[place]
        }
    }

    /// Whether one of the patches is for a file.
    pub(crate) fn touches(&self, file: FileId) -> bool
        ensures { (patches : List Patch) → Marks self.now.touched self.now.replaced patches → result ≡ is_touched file patches }
    {
        self.touched[usize::from(file.number())]
    }

    /// Marks the file of one more patch.
    pub(crate) fn mark(&mut self, file: FileId, whole: bool)
        ensures { (patches : List Patch) (patch : Patch) → file_of patch ≡ file → is_whole patch ≡ whole → Marks self.old.touched self.old.replaced patches → Marks self.new.touched self.new.replaced (patch ∷ patches) }
    {
        let place = usize::from(file.number());
        let replaced = self.replaced[place] || whole;
        self.touched[place] = true;
        self.replaced[place] = replaced;
    }
}
