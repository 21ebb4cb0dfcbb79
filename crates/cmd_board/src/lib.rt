//! The commands that touch the board: each finds the board of the host, or uses the one that was kept, and then is
//! refused, answers, or makes one change.
#![tactic(auto)]

mod checking;
mod creation;
mod damage;
mod enrollment;
mod finding;
mod halt;
mod kept;
mod making;
mod placing;
mod report;
mod saying;
mod setup;
mod sizes;
mod telling;

pub use checking::check;
pub use creation::init;
pub use damage::say_damage;
pub use enrollment::{Enrolled, enroll};
pub use finding::find;
pub use halt::BoardHalt;
pub use kept::{board_in, keep_board, take_board};
pub use mail_board::{Board, Change, Loaded, ReadError};
pub use making::make_change;
pub use placing::{kind_in, place_in};
pub use saying::{EnrolledLine, MadeLine};
pub use shelf_files::{Refusal, say_served, sheet_in};
pub use sizes::size_refusal;
pub use telling::say_told;
