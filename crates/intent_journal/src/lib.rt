//! Changes of many files of a host at once: all of them or none, at every moment.
//!
//! The journal, file 1 of a host, holds an intent: patches behind a gate, its first byte. A commit does this
//! in order:
//!
//! 1. It puts a closed gate into an empty journal and syncs it. A crash may leave any bytes where a file has
//!    grown since its last sync, and so an open gate too.
//! 2. It writes the body behind the gate and syncs it, so that no gate is opened over half of one.
//! 3. It opens the gate and syncs it, so that no data file changes before its patch can be found again.
//! 4. It writes the patches, and then syncs each file that they change, once, so that the gate is closed only
//!    over files that have them.
//! 5. It closes the gate and syncs it, so that no crash leaves it open over the next body.
//!
//! A recovery does this:
//!
//! 1. It syncs the journal, so that each later crash leaves the gate and the body that it reads.
//! 2. It reads the gate, and the body only where the gate is open. Where they hold an intent, it goes on with
//!    step 4 of a commit, from the first patch.
//! 3. Where an open gate holds none, it does step 5 alone.
//!
//! Whatever part of the patches stands in the files, carrying out all of them again makes the same files. A
//! whole patch hides what its file was. A put writes its range again and shortens nothing. It begins at most
//! at the end of its file, and a file in which parts of puts stand already is at least as long.
#![tactic(auto)]

mod carrying;
mod committing;
mod found;
mod gate;
mod headers;
mod intent;
pub mod laws;
mod marks;
mod patch;
mod reading;
mod recovery;
mod within;

pub use committing::commit;
pub use door_outside::FileId;
pub use intent::Intent;
pub use patch::{Patch, Patches};
pub use recovery::{JournalError, recover};
