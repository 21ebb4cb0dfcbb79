//! The worked examples of a board's files, as tests: the ledger, the whole board, and its changes; and copies of the list
//! types.
#![tactic(auto)]

#[cfg(test)]
mod tests;
