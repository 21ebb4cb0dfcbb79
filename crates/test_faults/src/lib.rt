//! What a fault or a damage leaves, as tests. A run that a disk fault ends leaves the board before a command or after
//! it. A command that reads a file of any kind, cut at each place and with each byte changed, says nothing but the
//! answers that it has. Real folders are what `folder_hosts` takes them for.
#![tactic(auto)]

#[cfg(test)]
mod tests;
