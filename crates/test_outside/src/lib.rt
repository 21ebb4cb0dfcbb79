//! What stands outside the door, as tests: the names of files, the journal's bytes, and the statuses.
#![tactic(auto)]

#[cfg(test)]
mod tests;
