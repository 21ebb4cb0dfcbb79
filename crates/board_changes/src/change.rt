use board_layout::Base;
use board_ledger::Ledger;
use intent_journal::Intent;
use jam_records::List;

/// What a change of a board makes new, and the change of its files.
#[derive(Drop)]
pub struct BoardChange {
    /// The next ledger, or None where it stays.
    pub ledger: Option<Ledger>,
    /// By place, the next base of each conference that changes, and None for the others.
    pub bases: List<Option<Base>>,
    /// What makes the data files of the next board of those before.
    pub intent: Intent,
}
