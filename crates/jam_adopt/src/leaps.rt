ghost use Rattle.std.specs.Prelude.{◌≡◌, ◌+◌, ◌-◌, ◌≤◌, ◌<◌, ◌^◌, ℕ, List, length, slice_range, bit_and, is_some, IsTrue, IfOk, Some, MatchOption};
ghost use Rattle.record_numbers.specs.Numbers.{u32_at as u32_of};
ghost use Rattle.jam_records.specs.declared.subfield.Subfield.{Subfield};
ghost use Rattle.jam_adopt.specs.Fields.{fields_of, value_of_id};
ghost use Rattle.jam_adopt.specs.Leaps.{bit_of_id, PassesFields, IsCutAt, StopsAt, IsLeap, AreLeaps, AreAllLeaps};

use record_numbers::{u16_at, u32_at};
use std::alloc::{AllocError, Global};

/// The first id that isn't looked for.
const IDS: u16 = 7;

/// Whole subfields that stand one after the other from a place of .JHR on, which are passed over at once.
#[derive(Debug, Clone, Copy)]
pub(crate) struct Leap {
    /// The place behind them.
    pub(crate) to: u32,
    /// There are 2^rank - 1 of them.
    pub(crate) rank: u8,
    /// Which of the ids 0 to 6 they have, a bit each.
    pub(crate) ids: u8,
}

/// A leap from each place of .JHR, by which headers that share subfields are read without going over all of these for
/// each. A leap passes over the subfield that stands there. It also takes in the leap from behind this one and the leap
/// after that, where those two pass over equally many. So a walk over n subfields takes leaps in proportion to the
/// logarithm of n (E. W. Myers, "An applicative random-access stack", 1983).
#[derive(Debug, Drop)]
pub(crate) struct Leaps {
    /// The leap from the end of .JHR, and then those from each place before.
    pub(crate) from_end: Vec<Leap>,
}

/// The bit of an id, or 0 for one that isn't looked for.
#[tactic(auto, using(crate::proofs::LeapLaws::bit_shift))]
fn id_bit(id: u16) -> u8
    ensures { result ≡ bit_of_id id }
{
    if id < IDS { 1 << u32::from(id) } else { 0 }
}

/// Where the subfield at a place ends, or None where it passes `to`.
fn field_end(jhr: &[u8], at: usize, to: usize) -> Option<usize>
    requires short { length jhr.now < 2 ^ 31 }
    requires rising { at ≤ to }
    requires within { to ≤ length jhr.now }
    ensures { MatchOption result (IsCutAt jhr.now at to) (λ end. (at + 8 ≤ end) × (end ≤ to) × (end ≡ at + 8 + u32_of (at + 4) jhr.now)) }
{
    if to < at + 8 {
        return None;
    }
    let end = at + 8 + u32_at(jhr, at + 4) as usize;
    if to < end {
        return None;
    }
    Some(end)
}

/// The leap from a place where no whole subfield stands: over none.
fn no_leap(at: usize) -> Leap
    requires { at < 2 ^ 31 }
    ensures { (jhr : List ℕ) → at ≤ length jhr → IsLeap jhr at result }
{
    Leap {
        to: at as u32,
        rank: 0,
        ids: 0,
    }
}

/// The leap over the subfield at a place. Where the leap from its end and the one after that pass over equally many, it
/// passes over these too.
fn leap_over(jhr: &[u8], at: usize, end: usize, first: Leap, second: Leap) -> Leap
    requires short { length jhr.now < 2 ^ 31 }
    requires field { (at + 8 ≤ end) × (end ≤ length jhr.now) × (end ≡ at + 8 + u32_of (at + 4) jhr.now) }
    requires first { IsLeap jhr.now end first }
    requires second { IsLeap jhr.now first.to second }
    ensures { IsLeap jhr.now at result }
{
    let ids = id_bit(u16_at(jhr, at));
    if first.rank != second.rank {
        return Leap {
            to: end as u32,
            rank: 1,
            ids,
        };
    }
    Leap {
        to: second.to,
        rank: first.rank.saturating_add(1),
        ids: ids | first.ids | second.ids,
    }
}

/// Whether a leap from a place goes on, ends at most at `to`, and passes over no subfield of an id of these bits.
fn may_leap(leap: Leap, bits: u8, at: usize, to: usize) -> bool
    ensures { IsTrue result → (at < leap.to) × (leap.to ≤ to) × (bit_and leap.ids bits ≡ 0) }
{
    at < leap.to as usize && leap.to as usize <= to && leap.ids & bits == 0
}

impl Leaps {
    /// Those of .JHR.
    pub(crate) fn of(alloc: Global, jhr: &[u8]) -> Result<Leaps, AllocError>
        requires { length jhr.now < 2 ^ 31 }
        ensures { IfOk result (AreAllLeaps jhr.now) }
    {
        let mut leaps = Leaps {
            from_end: Vec::with_capacity(alloc, jhr.len() + 1)?,
        };
        for behind in 0..jhr.len() + 1 {
            let leap = leaps.leap_before(jhr, jhr.len() - behind);
            leaps.from_end.push(leap)?;
        }
        Ok(leaps)
    }

    /// The leap from a place.
    #[tactic(auto, using(crate::proofs::LeapLaws::leap_from))]
    fn leap(&self, jhr: &[u8], at: usize) -> Leap
        requires leaps { AreLeaps jhr.now self.now.from_end.items }
        requires within { at ≤ length jhr.now }
        requires known { length jhr.now - at < length self.now.from_end.items }
        ensures { IsLeap jhr.now at result }
    {
        self.from_end[jhr.len() - at]
    }

    /// The leap from the place before those whose leaps are known.
    fn leap_before(&self, jhr: &[u8], at: usize) -> Leap
        requires short { length jhr.now < 2 ^ 31 }
        requires leaps { AreLeaps jhr.now self.now.from_end.items }
        requires within { at ≤ length jhr.now }
        requires known { length self.now.from_end.items ≡ length jhr.now - at }
        ensures { IsLeap jhr.now at result }
    {
        let Some(end) = field_end(jhr, at, jhr.len()) else {
            return no_leap(at);
        };
        let first = self.leap(jhr, end);
        let second = self.leap(jhr, first.to as usize);
        leap_over(jhr, at, end, first, second)
    }

    /// A place behind one or more whole subfields that stand from a place on. They end at most at `to`, and none has an
    /// id of these bits. None where the subfield there has such an id or passes `to`.
    fn behind(&self, jhr: &[u8], bits: u8, at: usize, to: usize) -> Option<usize>
        requires short { length jhr.now < 2 ^ 31 }
        requires leaps { AreAllLeaps jhr.now self.now }
        requires rising { at ≤ to }
        requires within { to ≤ length jhr.now }
        ensures { MatchOption result (StopsAt jhr.now bits at to) (λ next. (at < next) × (next ≤ to) × PassesFields jhr.now bits at next) }
    {
        let leap = self.leap(jhr, at);
        if may_leap(leap, bits, at, to) {
            return Some(leap.to as usize);
        }
        let end = field_end(jhr, at, to)?;
        if id_bit(u16_at(jhr, at)) & bits != 0 {
            return None;
        }
        Some(end)
    }

    /// Where the first subfield from a place on stands that has an id of these bits or passes `to`, or else `to`.
    fn stop(&self, jhr: &[u8], bits: u8, from: usize, to: usize) -> usize
        requires short { length jhr.now < 2 ^ 31 }
        requires leaps { AreAllLeaps jhr.now self.now }
        requires rising { from ≤ to }
        requires within { to ≤ length jhr.now }
        ensures passes { PassesFields jhr.now bits from result }
        ensures within { result ≤ to }
        ensures stops { result < to → StopsAt jhr.now bits result to }
    {
        let mut at = from;
        while at < to {
            let Some(next) = self.behind(jhr, bits, at, to) else {
                return at;
            };
            at = next;
        }
        at
    }

    /// Whether whole subfields fill the bytes between two places.
    pub(crate) fn are_filled(&self, jhr: &[u8], from: usize, to: usize) -> bool
        requires short { length jhr.now < 2 ^ 31 }
        requires leaps { AreAllLeaps jhr.now self.now }
        requires rising { from ≤ to }
        requires within { to ≤ length jhr.now }
        ensures { result ≡ is_some (fields_of (slice_range jhr.now from to)) }
    {
        self.stop(jhr, 0, from, to) == to
    }

    /// The value of the first subfield of an id among those that fill the bytes between two places, or nothing where
    /// there is none.
    pub(crate) fn value<'a>(&self, jhr: &'a [u8], id: u16, from: usize, to: usize) -> &'a [u8]
        requires short { length jhr.now < 2 ^ 31 }
        requires leaps { AreAllLeaps jhr.now self.now }
        requires rising { from ≤ to }
        requires within { to ≤ length jhr.now }
        requires id { id < 7 }
        ensures { (fields : List Subfield) → fields_of (slice_range jhr.now from to) ≡ Some fields → result.now ≡ value_of_id id fields }
    {
        let at = self.stop(jhr, id_bit(id), from, to);
        match field_end(jhr, at, to) {
            Some(end) => &jhr[at + 8..end],
            None => b"",
        }
    }
}
