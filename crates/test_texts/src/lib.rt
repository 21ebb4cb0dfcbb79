//! The rules of lists, lines, words and numbers in texts, and the worked examples of what a sysop and a caller write and
//! read, as tests: setup files, sheets and the words of commands; packets, replies and entries.
#![tactic(auto)]

#[cfg(test)]
mod tests;
