//! Laws of entries.
ghost use Rattle.std.specs.Prelude.{◌≡◌, ℕ, List, [], ◌∷◌, ◌++◌, false, IsTrue};
ghost use Rattle.door_outside.specs.Shelf as Shelf;
ghost use Rattle.entry_runs.specs.Door.{World, AreLawful, Step, any_touches, here};
ghost use Rattle.entry_runs.specs.Promise.{Before, IsMigrating};
ghost use Rattle.entry_runs.specs.Runs.{RunOutcome, Runs, Stepped};
ghost use Rattle.intent_journal.specs.Patches.{HostFiles};
ghost use Rattle.cmd_board.specs.State.{State, IsSpoiled, Stores, migrated};
ghost use Rattle.board_laws.specs.History.{Deed, IsBeginning, IsHistory, after};
ghost use Rattle.board_layout.specs.Layout.{AreFileBytes};
ghost use Rattle.cmd_entries.specs.Entries.{EntryCanRun};
ghost use Rattle.board_laws.specs.Kept.{StaysMade, StaysOffered};
ghost use Rattle.board_laws.specs.Once.{ChangesOnce, SaysAgain};
ghost use Rattle.board_laws.specs.Passed.{IsPassed, PacketsRise};
ghost use Rattle.mail_cli.specs.BoardEntry.{board_command, steps};
ghost use Rattle.mail_cli.specs.Histories.{Continues, reached};
ghost use Rattle.mail_cli.specs.Passages.{AreJoined, Begun, HaveBrought, KeepPromises, Passage};
ghost use Rattle.mail_cli.specs.Step.{act, door};
ghost use Rattle.cmd_entries.specs.declared.entry.Entry.{Entry};

/// From a world at a moment an entry does one thing at most: one world after it, one reply and one class.
pub fn one_outcome()
    ensures { (now : ℕ) (world : World State) (entry : Entry) (a b : Stepped (World State)) → (act now entry).Step world a → (act now entry).Step world b → a ≡ b }
{}

/// An entry that can run does one thing at least, from each world for whose state files of bytes stand. So from there
/// it does exactly one thing. No case was left to want of memory.
pub fn some_outcome()
    ensures { (now : ℕ) (entry : Entry) → EntryCanRun entry → (files : HostFiles) → AreFileBytes files → (world : World State) → Stores world.state files
        → (stepped : Stepped (World State)) × (act now entry).Step world stepped }
{}

/// Every entry is lawful. Where it doesn't touch the board, it leaves it. It writes no names on the shelf but those
/// that it may. It says something. Where it is refused, it changes neither board nor shelf, but that the board is then
/// in files of today's version.
pub fn lawful_entries()
    ensures { (now : ℕ) → AreLawful (door now) }
{}

/// Every entry that touches the board makes the same of it before all else: the board in files of today's version.
pub fn one_migration()
    ensures { (now : ℕ) (entry : Entry) (state : State) → IsTrue (act now entry).reach.board → (act now entry).migrated state ≡ migrated state }
{}

/// A board in files of today's version isn't migrated. Where an entry was stopped before it changed the board, and
/// where a crash came between two entries, the files stand for the board itself. And the board stays in such files.
pub fn today_stays()
    ensures stopped { (now : ℕ) (entry : Entry) (state : State) (files : HostFiles) → migrated state ≡ state → Before Stores (act now entry) state files → Stores state files }
    ensures held { (now : ℕ) (outcome : RunOutcome (World State)) (left : List Entry) (files : HostFiles) → migrated outcome.world.state ≡ outcome.world.state
        → IsMigrating (door now) outcome left files → Stores outcome.world.state files }
    ensures stays { (start : State) → migrated start ≡ start → (deeds : List (Deed Entry)) → IsHistory steps start deeds → (n : ℕ) → migrated (after start deeds n) ≡ after start deeds n }
{}

/// Any files stand for exactly one state of the board.
pub fn one_state()
    ensures some { (files : HostFiles) → (state : State) × Stores state files }
    ensures one { (files : HostFiles) (a b : State) → Stores a files → Stores b files → a ≡ b }
{}

/// Once a board is made, there is one after all further entries. And what is offered to a user is offered again, in
/// full, while it is live and he acknowledges no packet.
///
/// That is so for every list of entries, from no board on or from a valid one in files of either version. Each entry
/// has a moment and a shelf of its own. So a list may reach over many runs, and over what crashes between them leave.
pub fn kept()
    ensures made { StaysMade board_command steps }
    ensures offered { StaysOffered board_command steps }
{}

/// For every such list from no board on: take a live message that a user may see, with a number at most his last-read
/// pointer. It was in the offered list of an export whose packet he acknowledged. In every such list a number is that
/// of one packet of the user, since a later one has a greater number.
pub fn passed()
    ensures passed { IsPassed board_command steps }
    ensures packets { PacketsRise board_command steps }
{}

/// For every such list: for each user and SHA-256 at most one entry changes the board by an upload. Each later upload
/// of that user and SHA-256 that isn't refused changes nothing, and has the counts of that one. To put a board into
/// files of today's version is no change.
pub fn once()
    ensures changes { ChangesOnce board_command steps }
    ensures again { SaysAgain board_command steps }
{}

/// A history and what a run makes behind it are one history. The run begins on the state that the history leads to.
/// With the entries that were carried out, the history leads to the state after them. It does so too with the entry in
/// which the run was stopped or a crash came, where that was carried out. And from the migrated state it does so, but
/// for the version of the files.
///
/// Entries that touch no board go on so behind any history, whatever the state. So where a crash leaves files as it
/// could have left them before the run, they go on behind the history of those.
pub fn runs_are_histories()
    ensures runs { (start : State) (now : ℕ) (deeds : List (Deed Entry)) → IsHistory steps start deeds → (shelf : Shelf.ShelfFiles) (entries : List Entry) (outcome : RunOutcome (World State))
        → Runs (Step (door now)) (here (reached start deeds) shelf) entries outcome → Continues now start deeds entries outcome.world.state }
    ensures stopped { (start : State) (now : ℕ) (deeds : List (Deed Entry)) → IsHistory steps start deeds → (shelf : Shelf.ShelfFiles) (front : List Entry) (entry : Entry) (outcome : RunOutcome (World State)) (stepped : Stepped (World State))
        → Runs (Step (door now)) (here (reached start deeds) shelf) front outcome → Step (door now) outcome.world entry stepped → Continues now start deeds (front ++ entry ∷ []) stepped.world.state }
    ensures from_migrated { (start : State) (now : ℕ) (deeds : List (Deed Entry)) → IsHistory steps start deeds → (shelf : Shelf.ShelfFiles) (entries : List Entry) (outcome : RunOutcome (World State))
        → Runs (Step (door now)) (here (migrated (reached start deeds)) shelf) entries outcome → (state : State) × Continues now start deeds entries state × (migrated state ≡ outcome.world.state) }
    ensures untouched { (start : State) (now : ℕ) (deeds : List (Deed Entry)) → IsHistory steps start deeds → (state : State) (shelf : Shelf.ShelfFiles) (entries : List Entry) (outcome : RunOutcome (World State)) → any_touches (door now) entries ≡ false
        → Runs (Step (door now)) (here state shelf) entries outcome → Continues now start deeds entries (reached start deeds) }
{}

/// From no board on, or from a valid one in files of either version, no entries lead to files that are no board's.
pub fn never_spoiled()
    ensures { (start : State) → IsBeginning start → (deeds : List (Deed Entry)) → IsHistory steps start deeds → (n : ℕ) → ¬ IsSpoiled (after start deeds n) }
{}

/// For every list of runs and crashes, from no board on or from files of a valid one, of either version, the last files
/// stand for the board after one history. That is the history of all entries that were carried out, in order.
///
/// On that board each message that was offered to a user is offered until he acknowledges a packet or it is deleted.
/// Where there was no board at first, he has nothing behind him but what he acknowledged. For each user and SHA-256 at
/// most one upload changed the board. The files are never damaged.
///
/// All this is so of runs that brought files to others. The clause `joins` of `run` says that they do, also where a
/// crash came, beginning with none.
pub fn runs_and_crashes()
    ensures joined { (start : State) → IsBeginning start → (first last : HostFiles) (passages : List Passage) → Stores start first → AreJoined first passages last → KeepPromises start passages last }
    ensures brought { (start : State) → IsBeginning start → (first last : HostFiles) (runs : List Begun) → Stores start first → (brought : HaveBrought first runs last) → KeepPromises start brought.passages last }
    ensures none { (files : HostFiles) → HaveBrought files [] files }
{}
