//! The board of the examples.
use crate::files::{copies, put};
use crate::miss::Miss;
use memory_outside::MemoryShelf;
use std::alloc::Global;

const SETUP: &[u8] =
    b"board: Test Board\ncity: Springfield\nphone: 555-0100\nsysop: Sam Sysop\nbbsid: TESTBBS\nserial: 12345\nzones: 1 2\nconference: 0 local p GENERAL\nconference: 1 net - NETMAIL\nconference: 7 local r NEWS\n";

/// The same with a board id of nine letters.
const LONG_ID: &[u8] =
    b"board: Test Board\ncity: Springfield\nphone: 555-0100\nsysop: Sam Sysop\nbbsid: ABCDEFGHI\nserial: 12345\nzones: 1 2\nconference: 0 local p GENERAL\nconference: 1 net - NETMAIL\nconference: 7 local r NEWS\n";

/// The sheet H of the examples.
const SHEET: &[u8] = b"From: Bob Ray\nTo: All\nSubject: Hello\n\nFirst line\n.\n";

/// How the board B is made and its users are enrolled, without the first prompt and the last line end.
pub(crate) const BOARD_B: &str = r#"init setup.txt
made 3 conferences
> enroll "Ann Lee" n all
user 1 Ann Lee
> enroll "Bob Ray" - 0
user 2 Bob Ray
> enroll "Sam Sysop" n all
user 3 Sam Sysop
> enroll "Cy Day" - 0
user 4 Cy Day"#;

/// Puts the setup files of the examples.
pub(crate) fn put_setups(shelf: &mut MemoryShelf, alloc: Global) -> Result<(), Miss> {
    put(shelf, alloc, "setup.txt", SETUP)?;
    put(shelf, alloc, "long-id.txt", LONG_ID)
}

/// Puts the sheet H under the name `one`, and twice under `two`.
pub(crate) fn put_sheets(shelf: &mut MemoryShelf, alloc: Global) -> Result<(), Miss> {
    put(shelf, alloc, "one", SHEET)?;
    put(shelf, alloc, "two", copies(alloc, SHEET, 2)?.as_slice())
}
