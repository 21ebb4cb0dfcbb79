//! Laws of the records, each the contract of a function that does nothing.
ghost use Rattle.std.specs.Prelude.{◌++◌, ℕ, List};
ghost use Rattle.jam_records.specs.BaseHeaders.{base_text, IsBaseHeader, BaseHeaderStands};
ghost use Rattle.jam_records.specs.IndexRecords.{index_text, IsIndex, IndexStands};
ghost use Rattle.jam_records.specs.LastReads.{last_text, IsLastRead, LastReadStands};
ghost use Rattle.jam_records.specs.MessageHeaders.{header_text, IsMessageHeader, MessageHeaderStands};
ghost use Rattle.jam_records.specs.declared.base_header.BaseHeader.{BaseHeader};
ghost use Rattle.jam_records.specs.declared.index_record.IndexRecord.{IndexRecord};
ghost use Rattle.jam_records.specs.declared.last_read.LastRead.{LastRead};
ghost use Rattle.jam_records.specs.declared.message_header.MessageHeader.{MessageHeader};

pub use record_numbers::laws::number_bytes;

/// What is written of a base header reads as it, whatever is behind it.
pub fn written_base_header()
    ensures { (header : BaseHeader) (rest : List ℕ) → IsBaseHeader header → BaseHeaderStands (base_text header ++ rest) header }
{}

/// What is written of a message header reads as it, whatever is behind it.
pub fn written_message_header()
    ensures { (header : MessageHeader) (rest : List ℕ) → IsMessageHeader header → MessageHeaderStands (header_text header ++ rest) header }
{}

/// What is written of an index record reads as it, whatever is behind it.
pub fn written_index()
    ensures { (index : IndexRecord) (rest : List ℕ) → IsIndex index → IndexStands (index_text index ++ rest) index }
{}

/// What is written of a last-read record reads as it, whatever is behind it.
pub fn written_last()
    ensures { (last : LastRead) (rest : List ℕ) → IsLastRead last → LastReadStands (last_text last ++ rest) last }
{}
