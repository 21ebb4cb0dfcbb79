//! Copies of the list types: each is equal where memory is ample. Those of lines, sheets, subfields, QWK messages, control
//! lines and setups stand among the examples of their crates.
mod ledgers;
mod messages;
mod patches;

use std::test::Fail;

/// A failure where a copy isn't what it is of.
fn expect(same: bool) -> Result<(), Fail> {
    if same {
        Ok(())
    } else {
        Err(Fail::from("a copy is another one"))
    }
}
