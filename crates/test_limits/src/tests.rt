mod adoptions;
mod batches;
mod boards;
mod composed;
mod control;
mod exports;
mod fields;
mod filled;
mod ledgers;
mod messages;
mod numbered;
mod packets;
mod packs;
mod recovery;
mod slots;
mod tosses;
mod uploads;
mod users;

use numbered::{expect_each, expect_joined};
use std::alloc::Global;
use test_runs::Miss;

/// Boards whose users, mail and packets are at their limits.
const BOARDS: [&str; 11] = [
    users::USERS,
    boards::MANY,
    slots::SAMPLED,
    uploads::MOST,
    uploads::RECORDS,
    exports::MOST,
    exports::NUMBERS,
    fields::LONGEST,
    fields::TOO_LONG,
    fields::POSTED,
    fields::ADDRESSED,
];

/// A board that is filled, and what a full one still does.
const FULL: [&str; 2] = [boards::ROOM, boards::FULL];

/// Plays the transcripts of boards, whose users, mail and packets are at their limits.
fn expect_boards(alloc: Global) -> Result<(), Miss> {
    expect_each(alloc, &BOARDS)?;
    expect_joined(alloc, &FULL)?;
    expect_joined(alloc, &ledgers::OLD)?;
    expect_joined(alloc, &ledgers::ENROLLED)
}

#[test]
fn boards_have_limits(rt: HostRuntime) -> Result<(), Miss> {
    expect_boards(rt.alloc())
}

/// Mail of other tools, packets and conferences that are as large as they may be.
const LOADS: [&str; 4] = [
    adoptions::SUBFIELDS,
    tosses::MOST,
    exports::LONGEST,
    packs::MOST,
];

/// A board that is nearly full, and the base that fills it.
const ADOPTED: [&str; 2] = [filled::FILLED, adoptions::ADOPTED];

/// The same, and the packet that fills it.
const TOSSED: [&str; 2] = [filled::FILLED, tosses::TOSSED];

/// Plays the transcripts of mail of other tools, packets and conferences that are as large as they may be.
fn expect_loads(alloc: Global) -> Result<(), Miss> {
    expect_each(alloc, &LOADS)?;
    expect_joined(alloc, &ADOPTED)?;
    expect_joined(alloc, &TOSSED)
}

#[test]
fn loads_have_limits(rt: HostRuntime) -> Result<(), Miss> {
    expect_loads(rt.alloc())
}

/// Batches, files and packets that are as long as they may be.
const FILES: [&str; 8] = [
    batches::MOST,
    batches::CHECKED,
    batches::FILES,
    composed::MOST,
    packets::MANY,
    packets::HEADERS,
    packets::LINE,
    control::LONG,
];

/// Plays the transcripts of batches, files and packets that are as long as they may be.
fn expect_files(alloc: Global) -> Result<(), Miss> {
    expect_each(alloc, &FILES)?;
    expect_joined(alloc, &control::MANY)?;
    control::expect_many(alloc)
}

#[test]
fn files_have_limits(rt: HostRuntime) -> Result<(), Miss> {
    expect_files(rt.alloc())
}

#[test]
fn the_longest_journal_is_recovered(rt: HostRuntime) -> Result<(), Miss> {
    recovery::expect_full(rt.alloc())
}
