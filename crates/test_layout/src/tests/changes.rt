//! A further user of a new board, and other slots in one of its places.
use board_changes::{NewBoard, enrolled, fits_user, made, size_with_user};
use board_layout::StoredBoard;
use byte_lists::Bytes;
use jam_records::{Slot, Slots};
use post_changes::{fits_slots, replaced};
use setup_file::Setup;
use std::alloc::{AllocError, Global};
use test_cases::{Miss, expect_cases, number_of};

/// A setup of three conferences.
const SETUP: &str =
    "board: Test Board\ncity: Springfield\nphone: 555-0100\nsysop: Sam Sysop\nbbsid: TESTBBS\nserial: 12345\nzones: 1 2\nconference: 0 local p GENERAL\nconference: 1 net - NETMAIL\nconference: 7 local r NEWS\n";

/// What makes the board of the setup.
fn new_board(alloc: Global) -> Result<NewBoard, Miss> {
    let text = SETUP.as_bytes();
    if text.len() > 0x7FFF_FFFF {
        return Err(Miss::Unreached);
    }
    match Setup::parse(alloc, text) {
        Ok(setup) => Ok(made(alloc, setup, 1_000_000_000)?),
        Err(_) => Err(Miss::Unreached),
    }
}

/// How many bytes the journal of a user's enrolment in places has, or None where he doesn't fit.
fn journal(
    alloc: Global,
    board: &StoredBoard,
    name: &[u8],
    members: u64,
) -> Result<Option<u64>, AllocError> {
    if !fits_user(board, name, false, members) {
        return Ok(None);
    }
    let change = enrolled(alloc, board, name, false, members)?;
    Ok(Some(change.intent.size()))
}

/// How many bytes a board has with a user of a name in places, and whether he fits; where he does, how many the journal of
/// his enrolment has.
fn outcome(alloc: Global, board: &StoredBoard, name: &[u8], members: u64) -> Result<String, Miss> {
    let size = size_with_user(board, name, false, members);
    Ok(match journal(alloc, board, name, members)? {
        Some(journal) => format!(in alloc; "{size} fits, {journal} journal")?,
        None => format!(in alloc; "{size} refused")?,
    })
}

/// That of the new board.
fn with_user(alloc: Global, words: &[Bytes]) -> Result<String, Miss> {
    let [name, members] = words else {
        return Err(Miss::Words);
    };
    let members = u64::from(number_of(members.as_slice())?);
    let new = new_board(alloc)?;
    outcome(alloc, &new.board, name.as_slice(), members)
}

/// The places are the bits of a number. The new board has a ledger of 119 bytes and three base headers of 1,024; a user's
/// record has 79 bytes and the name, and a last-read record 16. A journal has 13 bytes before its patches, and 11 before
/// the bytes of each: the count of users, which are 2, the user's record, and a last-read record for each place.
const USERS: &str = r#"
"Bob Ray" 1 => 3293 fits, 150 journal
"Bob Ray" 7 => 3325 fits, 204 journal
"Bob Ray" 0 => 3277 refused
"Bob Ray" 8 => 3277 refused
" Bob Ray" 1 => 3294 refused
"" 1 => 3286 refused
"#;

#[test]
fn users_fit_by_name_and_places(rt: HostRuntime) -> Result<(), Miss> {
    expect_cases(rt.alloc(), USERS, with_user)
}

/// So many slots that are Gone.
fn gone(alloc: Global, count: u32) -> Result<Slots, AllocError> {
    let mut slots = Slots::new(alloc);
    for _ in 0..count {
        slots.add(Slot::Gone)?;
    }
    Ok(slots)
}

/// How many bytes the journal has by which a place gets these slots, or None where they don't fit.
fn slots_journal(
    alloc: Global,
    board: &StoredBoard,
    place: u8,
    slots: &Slots,
) -> Result<Option<u64>, AllocError> {
    if !fits_slots(board, place, slots) {
        return Ok(None);
    }
    Ok(Some(replaced(alloc, board, place, slots)?.intent.size()))
}

/// Whether so many slots fit into a place of the new board, and where they do, how many bytes the journal has.
fn with_slots(alloc: Global, words: &[Bytes]) -> Result<String, Miss> {
    let [place, count] = words else {
        return Err(Miss::Words);
    };
    let Ok(place) = u8::try_from(number_of(place.as_slice())?) else {
        return Err(Miss::Words);
    };
    let slots = gone(alloc, number_of(count.as_slice())?)?;
    let new = new_board(alloc)?;
    Ok(match slots_journal(alloc, &new.board, place, &slots)? {
        Some(journal) => format!(in alloc; "fits, {journal} journal")?,
        None => format!(in alloc; "refused")?,
    })
}

/// A new conference has no slot. Its .JHR of 1,024 bytes is written whole, and so are .JDT and .JDX, which stay empty.
const SLOTS: &str = r#"
0 0 => fits, 1070 journal
2 0 => fits, 1070 journal
3 0 => refused
0 1 => refused
"#;

#[test]
fn slots_fit_by_place_and_count(rt: HostRuntime) -> Result<(), Miss> {
    expect_cases(rt.alloc(), SLOTS, with_slots)
}
