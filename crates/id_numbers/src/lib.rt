//! Numbers that ids have, where ids share long fronts and a stranger may have chosen them.
#![tactic(auto)]

mod numbers;

pub use numbers::IdNumbers;
