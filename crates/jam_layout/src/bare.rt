ghost use Rattle.std.specs.Prelude.{◌≡◌, ◌+◌, ◌^◌, ◌<◌, length, IfOk};
ghost use Rattle.jam_threads.specs.Threading.{AreThreads};

use crate::conference::ConferenceContents;
use jam_records::List;
use jam_threads::Threads;
use std::alloc::{AllocError, Global};
use std::marker::Model;

/// A conference without the bodies of its messages.
#[derive(Debug, Drop)]
pub struct BareConference {
    /// The conference, in which each body is empty.
    pub conference: ConferenceContents,
    /// How long the bodies of its messages are in bytes, in order.
    pub lengths: List<u32>,
}

/// A conference without the bodies of its messages, and the threads of its slots, which reading it made. Contracts see the
/// conference.
#[derive(Debug, Drop)]
pub struct ThreadedConference {
    bare: BareConference,
    threads: Threads,
}

impl Model for ThreadedConference {
    ghost use Rattle.jam_threads.specs.Threading.{AreThreads};
    ghost use Rattle.jam_layout.specs.declared.bare.BareConference.{BareConference};

    ghost Value = { BareConference };

    ghost view = { λ s. s.bare };

    ghost invariant = { λ s. AreThreads s.bare.conference.slots s.threads };
}

impl ThreadedConference {
    /// The conference, whose threads these are.
    pub(crate) fn with_threads(bare: BareConference, threads: Threads) -> ThreadedConference
        requires { AreThreads bare.conference.slots threads }
        ensures { result ≡ bare }
    {
        ThreadedConference { bare, threads }
    }

    /// The conference, whose messages are threaded. It has fewer than 4,294,967,295 slots.
    ///
    /// The error comes where there is no memory.
    pub fn new(alloc: Global, bare: BareConference) -> Result<ThreadedConference, AllocError>
        requires { length bare.conference.slots + 1 < 2 ^ 32 }
        ensures { IfOk result (λ threaded. threaded ≡ bare) }
    {
        let threads = Threads::of(alloc, &bare.conference.slots)?;
        Ok(ThreadedConference { bare, threads })
    }

    /// The conference.
    pub fn bare(&self) -> &BareConference
        ensures { result.now ≡ self.now }
    {
        &self.bare
    }

    /// The conference, and the threads of its slots.
    pub fn into_parts(self) -> (BareConference, Threads)
        ensures bare { result.0 ≡ self }
        ensures threads { AreThreads self.conference.slots result.1 }
    {
        (self.bare, self.threads)
    }
}
