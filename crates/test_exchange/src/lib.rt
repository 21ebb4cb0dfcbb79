//! The worked examples of the commands by which a caller gets his mail and answers it, as tests: packets and pointers;
//! verdicts, net mail, references, and what is sent twice.
#![tactic(auto)]

#[cfg(test)]
mod tests;
