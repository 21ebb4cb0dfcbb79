//! The limits of a board, its packets and its commands, as tests: each at the limit, and one past it; and the messages
//! that a board gives, held, deleted and gone.
#![tactic(auto)]

#[cfg(test)]
mod tests;
