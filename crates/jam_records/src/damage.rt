ghost use Rattle.std.specs.Prelude.{◌≡◌};
ghost use Rattle.jam_records.specs.DamageWord.{damage_word};

use std::fmt;

/// The rule that a record of the board's files breaks. The ledger's record 0 is all before its conferences. Then it has
/// one record for each conference, each user and each upload. Record 0 of a .JHR is the base header, and record i its
/// i-th message header with its subfields. Record i of a .JDT is the body of that header. The records of a .JDX and a
/// .JLR count from 0.
///
/// The same rule has other tests in other records: its line names them.
#[derive(Debug, Clone, Copy, PartialEq, Eq)]
pub enum DamageRule {
    /// Ledger, record 0: the data files together have more than 34,603,008 bytes, or more than 33,554,432 where the ledger
    /// is of version 1.
    Size,
    /// Any record: the file ends in it, or before the lengths that it says.
    Short,
    /// Ledger, record 0: the file doesn't begin with `QMDL`.
    Magic,
    /// Ledger, record 0: the version is neither 1 nor 2.
    Version,
    /// Ledger, record 0: the conferences aren't 1 to 64, the users are more than 500, the zones more than 16 or the upload
    /// records more than 100,000. .JDX, record 0: it has more than 9,999 whole records.
    Count,
    /// Ledger, record 0: the serial is above 99,999. A message header: its number is 0, above 9,999, or not above that of
    /// the header before.
    Number,
    /// Ledger, record 0: board, city or phone isn't at most 60 bytes from 20h to 7Eh, or the sysop is no user name. A
    /// message header: Offset isn't the sum of the lengths before, or TxtLen is above 16,384 bytes.
    Text,
    /// Ledger, record 0: the board id isn't 1 to 8 ASCII letters and digits.
    Id,
    /// Ledger, record 0: the zones aren't numbers from 1 to 32,767, each above the one before.
    Zones,
    /// A conference of the ledger: the kind is above 2.
    Kind,
    /// A conference of the ledger: the byte of its rules is above 3.
    Rules,
    /// A conference of the ledger: its name isn't 1 to 13 bytes from 20h to 7Eh. A user: the name is no user name, which is
    /// 1 to 25 bytes from 20h to 7Eh without `"` and with no space at either end.
    Name,
    /// A conference of the ledger: its number isn't above that of the one before.
    Order,
    /// A user: an earlier one has the name, ignoring ASCII case. An upload record: an earlier one has this user and digest.
    Twice,
    /// A user: the byte of the flags is above 1.
    Flags,
    /// A user: the member set has no bit, or one past the conferences.
    Member,
    /// A user: the four offers aren't right. Open ones come first, and their numbers rise from 1 to the last packet at
    /// most. One that isn't open has highs of 0. A high is 0 where the user isn't a member. In version 1 there is one
    /// offer, of the last packet.
    Offer,
    /// An upload record: its user is 0 or above the count of users.
    User,
    /// An upload record: posted and refused are more than 8,191 together.
    Counts,
    /// The record one past the last: bytes follow. For a place past the conferences, record 0: the file isn't empty.
    Rest,
    /// The base header or a message header: it doesn't begin with `JAM` and NUL.
    Signature,
    /// The base header: DateCreated isn't the moment at which the board was made.
    Created,
    /// The base header: PasswordCRC isn't FFFFFFFFh, BaseMsgNum isn't 1 or a reserved byte isn't 0. A message header:
    /// TimesRead, Attribute2 or Cost isn't 0, or PasswordCRC isn't FFFFFFFFh.
    Fields,
    /// A message header: Revision isn't 1, or the two reserved bytes behind it aren't 0.
    Revision,
    /// A message header: Attribute has a bit that the door doesn't write, another TYPE bit than that of the conference's
    /// kind, or no PRIVATE in a net conference.
    Attribute,
    /// A message header: its subfields pass the end of the file, don't fill SubfieldLen, have an id above 6 or a HiID that
    /// isn't 0, or their ids don't rise.
    Subfields,
    /// A message header: a subfield has a value that `Message` doesn't allow, or is empty, or one of the ids 2, 3 and 4 is
    /// missing.
    Value,
    /// A message header: MSGIDcrc or REPLYcrc isn't the checksum of its id.
    Crc,
    /// The base header: ActiveMsgs isn't the count of headers without the bit DELETED.
    Active,
    /// A message header: ReplyTo, Reply1st or ReplyNext isn't that of the messages.
    Links,
    /// A body of a .JDT: it isn't empty and doesn't end with 0Dh.
    Line,
    /// Record j of a .JDX: it isn't the checksum and the offset of the message j + 1, or not twice FFFFFFFFh where there is
    /// none.
    Index,
    /// The record one past the last of a .JDX: a message has a greater number.
    Missing,
    /// A record of a .JLR: UserCRC or UserID isn't that of its reader.
    Reader,
    /// A record of a .JLR: its two message numbers differ, or are above the count of slots.
    Pointer,
    /// A user of the ledger, once all conferences are read: a high of an offer is above the count of slots of its
    /// conference.
    High,
}

impl DamageRule {
    /// The word of the rule, as the reply to damage has it.
    pub fn word(self) -> &'static [u8]
        ensures { result.now ≡ damage_word self }
    {
        match self {
            DamageRule::Size => b"size",
            DamageRule::Short => b"short",
            DamageRule::Magic => b"magic",
            DamageRule::Version => b"version",
            DamageRule::Count => b"count",
            DamageRule::Number => b"number",
            DamageRule::Text => b"text",
            DamageRule::Id => b"id",
            DamageRule::Zones => b"zones",
            DamageRule::Kind => b"kind",
            DamageRule::Rules => b"rules",
            DamageRule::Name => b"name",
            DamageRule::Order => b"order",
            DamageRule::Twice => b"twice",
            DamageRule::Flags => b"flags",
            DamageRule::Member => b"member",
            DamageRule::Offer => b"offer",
            DamageRule::User => b"user",
            DamageRule::Counts => b"counts",
            DamageRule::Rest => b"rest",
            DamageRule::Signature => b"signature",
            DamageRule::Created => b"created",
            DamageRule::Fields => b"fields",
            DamageRule::Revision => b"revision",
            DamageRule::Attribute => b"attribute",
            DamageRule::Subfields => b"subfields",
            DamageRule::Value => b"value",
            DamageRule::Crc => b"crc",
            DamageRule::Active => b"active",
            DamageRule::Links => b"links",
            DamageRule::Line => b"line",
            DamageRule::Index => b"index",
            DamageRule::Missing => b"missing",
            DamageRule::Reader => b"reader",
            DamageRule::Pointer => b"pointer",
            DamageRule::High => b"high",
        }
    }
}

/// The first record of the board's files that breaks a rule.
#[derive(Debug, Clone, Copy, PartialEq, Eq)]
pub struct Damage {
    /// The number of the file: 0 is the ledger, LEDGER.DAT, and 1 the journal, which is never damaged. The conference
    /// in place k, from 0 to 63, has its .JHR in 2 + 4k, its .JDT in 3 + 4k, its .JDX in 4 + 4k and its .JLR in 5 + 4k.
    pub file: u16,
    /// The number of the record in its file, from 0, as the rule counts it.
    pub item: u32,
    /// The first rule that the record breaks.
    pub rule: DamageRule,
}

/// The ending of one of a conference's four files, from 0.
fn ending(part: u16) -> &'static str {
    match part {
        0 => "JHR",
        1 => "JDT",
        2 => "JDX",
        _ => "JLR",
    }
}

impl fmt::Display for Damage {
    /// The file by its name in a data folder, the record, and the word of the rule: `C00.JDX, record 5: index`.
    fn fmt<W: fmt::Write>(&self, f: &mut fmt::Formatter<W>) -> fmt::Result {
        let item = self.item;
        let word = self.rule.word().escape_ascii();
        match self.file.checked_sub(2) {
            None => write!(f, "LEDGER.DAT, record {item}: {word}"),
            Some(from) => {
                let place = from / 4;
                let kind = ending(from % 4);
                write!(f, "C{place:02}.{kind}, record {item}: {word}")
            }
        }
    }
}
