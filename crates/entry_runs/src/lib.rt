//! Runs over a list of entries, whatever an entry is and does: the classes of entries, how a run ends, and
//! what it leaves and says where it ends early or a crash cuts it short.
#![tactic(auto)]

mod class;
mod saying;
mod status;
mod stop;
mod wording;

pub use class::Class;
pub use saying::{Gathered, say_all};
pub use status::Status;
pub use stop::Stop;
pub use wording::{AsText, Wording};
