ghost use Rattle.std.specs.Prelude.{◌≡◌, ℕ, ◌+◌, ◌*◌, ◌/◌, ◌%◌, ◌^◌, ◌<◌};

use std::marker::Model;

/// Draws from a seed: x(0) is the seed, and x(i+1) = (1664525 x(i) + 1013904223) mod 2^32.
#[derive(Debug, Drop)]
pub(crate) struct Draws {
    state: u32,
}

impl Model for Draws {
    ghost use Rattle.std.specs.Prelude.{ℕ};

    ghost Value = { ℕ };

    ghost view = { λ d. d.state };
}

impl Draws {
    /// No draws yet.
    pub(crate) fn new(seed: u32) -> Draws
        ensures { result ≡ seed }
    {
        Draws { state: seed }
    }

    /// The next draw: (x / 65536) mod `count`, in whole numbers.
    pub(crate) fn below(&mut self, count: usize) -> usize
        requires { 0 < count }
        ensures state { self.new ≡ (1664525 * self.old + 1013904223) % 2 ^ 32 }
        ensures value { result ≡ (self.new / 65536) % count }
        ensures bound { result < count }
        ensures small { result < 65536 }
    {
        let next = (1_664_525 * u64::from(self.state) + 1_013_904_223) % 0x1_0000_0000;
        self.state = next as u32;
        (self.state / 65_536) as usize % count
    }

    /// A place below `count`, by two draws, since one alone is below 65,536.
    pub(crate) fn place(&mut self, count: usize) -> usize
        requires { 0 < count }
        ensures { result < count }
    {
        let high = self.below(65_536);
        let low = self.below(65_536);
        (high * 65_536 + low) % count
    }
}
