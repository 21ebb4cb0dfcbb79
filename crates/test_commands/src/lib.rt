//! The worked examples of the commands over a board and over packets, as tests: its users, its messages and its damage;
//! batches, made-up messages and bases of other tools; what is listed, scanned and read, and what is written back.
#![tactic(auto)]

#[cfg(test)]
mod tests;
