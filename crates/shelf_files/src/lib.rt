//! Files of the shelf as commands read them, and why a command is refused.
#![tactic(auto)]

mod halt;
mod refusal;
mod said;
mod sheet_file;
mod shelf_file;
mod telling;

pub use halt::Halt;
pub use refusal::Refusal;
pub use sheet_file::sheet_in;
pub use shelf_file::{FILE_LIMIT, FOREIGN_LIMIT, PACKET_LIMIT, REP_LIMIT, file_in};
pub use telling::say_served;
