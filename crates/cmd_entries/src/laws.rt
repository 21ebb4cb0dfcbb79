//! Laws of commands and entries.
ghost use Rattle.std.specs.Prelude.{◌≡◌, ◌↔◌, ◌++◌, ℕ, List, Some, codes};
ghost use Rattle.cmd_words.specs.NumberWord.{NumberWord};
ghost use Rattle.door_outside.specs.Name.{HasParts, IsShelfName};
ghost use Rattle.door_outside.specs.Shelf.{ShelfFiles};
ghost use Rattle.cmd_entries.specs.Entries.{EntriesRead};
ghost use Rattle.cmd_entries.specs.OneWord.{base, conferences, file, folder, number};
ghost use Rattle.cmd_entries.specs.Words.{CommandReads, NamesConferences};
ghost use Rattle.cmd_entries.specs.declared.command.Command.{Command};
ghost use Rattle.cmd_entries.specs.declared.entry.Entry.{Entry};

/// What one word of a command is read as, by the grammars of number words, shelf names and conferences.
pub fn single_words()
    ensures numbers { (word : List ℕ) (n : ℕ) → (number word ≡ Some n) ↔ NumberWord word n }
    ensures files { (word name : List ℕ) → (file word ≡ Some name) ↔ (IsShelfName word × (name ≡ word)) }
    ensures folders { (word name : List ℕ) → (folder word ≡ Some name) ↔ (HasParts 3 word × (name ≡ word)) }
    ensures bases { (word prefix : List ℕ) → (base word ≡ Some prefix) ↔ (IsShelfName (word ++ codes ".JHR") × (prefix ≡ word)) }
    ensures choices { (word name : List ℕ) → (conferences word ≡ Some name) ↔ (NamesConferences word × (name ≡ word)) }
{}

/// Words are one command at most.
pub fn one_command()
    ensures { (words : List (List ℕ)) (a b : Command) → CommandReads words a → CommandReads words b → a ≡ b }
{}

/// With a shelf, words are one list of entries at most.
pub fn one_list()
    ensures { (words : List (List ℕ)) (shelf : ShelfFiles) (a b : List Entry) → EntriesRead words shelf a → EntriesRead words shelf b → a ≡ b }
{}

/// With a shelf, words are some list of entries: so they are exactly one.
pub fn some_list()
    ensures { (words : List (List ℕ)) (shelf : ShelfFiles) → (entries : List Entry) × EntriesRead words shelf entries }
{}
