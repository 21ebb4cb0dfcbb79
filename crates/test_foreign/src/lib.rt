//! Worked examples of what other tools write, as tests: of a JAM base (JAM message base proposal, revision 1), and of type 2
//! packets of FTS-0001, what is read of one and what becomes of its messages.
#![tactic(auto)]

#[cfg(test)]
mod tests;
