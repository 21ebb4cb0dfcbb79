mod board;
mod changes;
mod copies;
mod ledger;
mod ledger_texts;
mod short_reads;
