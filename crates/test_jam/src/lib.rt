//! The worked examples of JAM revision 1, as tests: records, threads, and whole bases with their damage.
#![tactic(auto)]

#[cfg(test)]
mod tests;
