//! Examples of whole commands, run over a host and a shelf in memory: transcripts of commands with what they say, and
//! what stands between them. What differs from an example is answered as a `Miss`.
//!
//! A transcript begins with a line end, and each line ends with one. A line that begins with `> ` is a command line, and
//! the lines up to the next step are exactly what it says. How it ends follows from them: as refused, damaged or no
//! command where one of them begins so, and else as done.
//!
//! A line that begins with `* ` is a direction, which puts files, damages them or looks at them; the functions of `Stage`
//! say what there is. In its text `\n`, `\r`, `\0` and `\x` with two hexadecimal digits are a byte each.
#![tactic(auto)]

mod boards;
mod damages;
mod data_files;
mod days;
mod directions;
mod files;
mod miss;
mod old_boards;
mod outside;
mod packets;
mod runs;
mod stage;
mod steps;
mod transcripts;

pub use damages::{Damage, damaged, host_with};
pub use data_files::{expect_part, put_data};
pub use days::{DAY, put_day};
pub use files::{copies, expect_file, file_of, put};
pub use mail_cli::Status;
pub use miss::Miss;
pub use old_boards::{OLD_BOARD, OLD_LEDGER};
pub use outside::{empty_host, empty_shelf, failing_shelf, fails_at, no_faults, stops_at};
pub use packets::{CONTROL, put_packets};
pub use runs::{run_after_crash, run_next, run_to_fault, run_twice};
pub use stage::{Stage, expect_transcript, expect_transcripts, played};
pub use steps::Steps;
pub use transcripts::reply_of;
