//! A day of a board.
use crate::boards::put_setups;
use crate::files::{copies, put};
use crate::miss::Miss;
use memory_outside::MemoryShelf;
use std::alloc::Global;

/// Its commands, as one batch.
pub const DAY: &str = "# a day of a board\n\
init setup.txt\n\
enroll \"Ann Lee\" n all\n\
enroll \"Bob Ray\" - 0\n\
import 0 forty\n\
\n\
export \"Ann Lee\" 2000 out\n\
reply out 3 text TESTBBS.MSG\n\
upload \"Ann Lee\" TESTBBS.MSG\n\
ack \"Ann Lee\" 1\n\
export \"Ann Lee\" 2000 out\r\n\
check";

const NOTE: &[u8] = b"From: Bob Ray\nTo: All\nSubject: Note\n\nHello\n.\n";

/// Puts what a day needs, and the batch as `day`.
pub fn put_day(shelf: &mut MemoryShelf, alloc: Global) -> Result<(), Miss> {
    put_setups(shelf, alloc)?;
    put(shelf, alloc, "forty", copies(alloc, NOTE, 40)?.as_slice())?;
    put(shelf, alloc, "text", b"Thanks\n")?;
    put(shelf, alloc, "day", DAY.as_bytes())
}
