//! The worked examples of Lee's QWK layout and of FTS-0001, as tests: blocks, control files, moments, replies, addresses.
#![tactic(auto)]

#[cfg(test)]
mod tests;
