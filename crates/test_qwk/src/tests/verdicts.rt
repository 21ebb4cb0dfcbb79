//! Verdicts on uploaded messages, from worked examples and the table of the rules. What is found is the rule that refuses
//! with its word, or what is posted.
use super::messages::{add_lines, add_quoted, date_of, time_of};
use byte_lists::{Bytes, Lines, List};
use jam_records::{Kind, Message};
use netmail_rules::{ConferenceView, Rule, Verdict, View, judge};
use qwk_blocks::{Header, QwkMessage};
use std::alloc::{AllocError, Global};
use test_cases::{Miss, expect_cases, number_of};

/// The moment of the examples, 9 September 2001 at 01:46:40.
const NOW: u32 = 1_000_000_000;

/// The kind of conference that a word names.
fn kind_of(word: &Bytes) -> Result<Kind, Miss> {
    match word.as_slice() {
        b"local" => Ok(Kind::Local),
        b"echo" => Ok(Kind::Echo),
        b"net" => Ok(Kind::Net),
        _ => Err(Miss::Words),
    }
}

/// A conference in which nothing is refused.
fn conference(kind: Kind) -> ConferenceView {
    ConferenceView {
        number: 1,
        kind,
        readonly: false,
        private: true,
        member: true,
        slots: 0,
        msgid_len: 11,
    }
}

/// A view of a conference, without names and zones.
fn view(alloc: Global, conference: ConferenceView) -> View {
    View {
        user: Bytes::new(alloc),
        net: true,
        is_sysop: false,
        sysop: Bytes::new(alloc),
        zones: List::new(alloc),
        conference: Some(conference),
        reply: Bytes::new(alloc),
        room: 1 << 20,
    }
}

/// A message in conference 1, without texts.
fn message(alloc: Global) -> QwkMessage {
    QwkMessage {
        header: Header {
            status: b' ',
            number: Some(1),
            date: *b"09-09-01",
            time: *b"01:46",
            to: Bytes::new(alloc),
            from: Bytes::new(alloc),
            subject: Bytes::new(alloc),
            password: Bytes::new(alloc),
            reference: None,
            activity: 0xE1,
            conference: 1,
            logical: 1,
            tag: b' ',
        },
        lines: Lines::new(alloc),
    }
}

/// A message that is uploaded, and who uploads it to which conference.
#[derive(Drop)]
struct Upload {
    view: View,
    message: QwkMessage,
}

impl Upload {
    /// One without names and texts.
    fn new(alloc: Global, conference: ConferenceView) -> Upload {
        Upload {
            view: view(alloc, conference),
            message: message(alloc),
        }
    }

    /// Makes it a message of Ann's to Bob Ray.
    fn fill(&mut self) -> Result<(), AllocError> {
        self.view.user.add(b"Ann Lee")?;
        self.view.sysop.add(b"Sam Sysop")?;
        self.view.zones.add(1)?;
        self.view.zones.add(2)?;
        self.message.header.to.add(b"BOB RAY")?;
        self.message.header.from.add(b"ANN LEE")?;
        self.message.header.subject.add(b"Hello")
    }

    /// The rule that refuses with its word, and else `posted`.
    fn refusal(&self, alloc: Global) -> Result<String, Miss> {
        match judge(alloc, &self.view, &self.message, NOW)? {
            Verdict::Refused(rule) => refused(alloc, rule),
            Verdict::Post(_) => Ok(String::from_str(alloc, "posted")?),
        }
    }
}

fn refused(alloc: Global, rule: Rule) -> Result<String, Miss> {
    Ok(format!(in alloc; "{rule:?} {}", rule.word().escape_ascii())?)
}

/// The rules, in order.
const RULES: [Rule; 14] = [
    Rule::Killed,
    Rule::Password,
    Rule::Conference,
    Rule::Member,
    Rule::Readonly,
    Rule::Sender,
    Rule::To,
    Rule::Subject,
    Rule::Length,
    Rule::Private,
    Rule::Netuser,
    Rule::Address,
    Rule::Zone,
    Rule::Full,
];

/// The rule that a word names.
fn rule_of(word: &Bytes) -> Result<Rule, Miss> {
    for rule in &RULES {
        if rule.word() == word.as_slice() {
            return Ok(*rule);
        }
    }
    Err(Miss::Words)
}

/// The rules that words name.
fn rules_of(alloc: Global, words: &[Bytes]) -> Result<Vec<Rule>, Miss> {
    let mut rules = Vec::new(alloc);
    for word in words {
        rules.push(rule_of(word)?)?;
    }
    Ok(rules)
}

/// Breaks a rule of the conference.
fn break_conference(rule: Rule, conference: &mut ConferenceView) {
    match rule {
        Rule::Member => conference.member = false,
        Rule::Readonly => conference.readonly = true,
        Rule::Private => conference.private = false,
        Rule::Full => conference.slots = 9999,
        _ => {}
    }
}

/// Breaks a rule of the user.
fn break_view(alloc: Global, rule: Rule, view: &mut View) {
    match rule {
        Rule::Netuser => view.net = false,
        Rule::Zone => view.zones = List::new(alloc),
        _ => {}
    }
}

/// Breaks a rule of the message.
fn break_message(alloc: Global, rule: Rule, message: &mut QwkMessage) -> Result<(), AllocError> {
    let header = &mut message.header;
    match rule {
        Rule::Killed => header.activity = 0xE2,
        Rule::Password => header.status = b'%',
        Rule::Conference => header.number = Some(2),
        Rule::Sender => header.from = Bytes::from_slice(alloc, b"ZED")?,
        Rule::To => header.to = Bytes::new(alloc),
        Rule::Subject => header.subject = Bytes::from_slice(alloc, b"a\tb")?,
        Rule::Private => header.status = b'+',
        Rule::Address => message.lines = Lines::new(alloc),
        Rule::Length => message.lines.fill(alloc, &Bytes::new(alloc), 17_000)?,
        _ => {}
    }
    Ok(())
}

/// A conference of this kind, in which these rules are broken.
fn broken_conference(kind: Kind, rules: &[Rule]) -> ConferenceView {
    let mut conference = conference(kind);
    for rule in rules {
        break_conference(*rule, &mut conference);
    }
    conference
}

impl Upload {
    /// Makes it a letter of two lines that breaks these rules, and judges it.
    fn judge_broken(&mut self, alloc: Global, rules: &[Rule]) -> Result<String, Miss> {
        self.fill()?;
        let lines = &mut self.message.lines;
        lines.add(Bytes::from_slice(alloc, b"Ann@2:5020/400.1")?)?;
        lines.add(Bytes::from_slice(alloc, b"Hi")?)?;
        for rule in rules {
            break_view(alloc, *rule, &mut self.view);
            break_message(alloc, *rule, &mut self.message)?;
        }
        self.refusal(alloc)
    }
}

fn judge_broken(alloc: Global, words: &[Bytes]) -> Result<String, Miss> {
    let [kind, rules @ ..] = words else {
        return Err(Miss::Words);
    };
    let kind = kind_of(kind)?;
    let rules = rules_of(alloc, rules)?;
    let conference = broken_conference(kind, rules.as_slice());
    Upload::new(alloc, conference).judge_broken(alloc, rules.as_slice())
}

impl Upload {
    /// Sends these lines to a name, where there is so much room for messages, and judges them.
    fn judge_size(
        &mut self,
        alloc: Global,
        room: u32,
        to: &Bytes,
        lines: &[Bytes],
    ) -> Result<String, Miss> {
        self.fill()?;
        add_lines(alloc, &mut self.message.lines, lines)?;
        self.view.room = u64::from(room);
        self.message.header.to = to.copy(alloc)?;
        self.refusal(alloc)
    }
}

fn judge_size(alloc: Global, words: &[Bytes]) -> Result<String, Miss> {
    let [kind, slots, room, to, lines @ ..] = words else {
        return Err(Miss::Words);
    };
    let mut conference = conference(kind_of(kind)?);
    conference.slots = number_of(slots.as_slice())?;
    let room = number_of(room.as_slice())?;
    Upload::new(alloc, conference).judge_size(alloc, room, to, lines)
}

/// Adds the texts of a message that is posted.
fn add_texts(alloc: Global, found: &mut String, draft: &Message) -> Result<(), AllocError> {
    add_quoted(alloc, found, " from ", draft.from.as_slice())?;
    add_quoted(alloc, found, " to ", draft.to.as_slice())?;
    add_quoted(alloc, found, " at ", draft.destination.as_slice())?;
    add_quoted(alloc, found, " says ", draft.body.as_slice())
}

/// The message that the board keeps.
fn posted(alloc: Global, draft: &Message) -> Result<String, Miss> {
    let mut found = format!(in alloc;
        "written {} processed {} private {}",
        draft.written, draft.processed, draft.private
    )?;
    add_texts(alloc, &mut found, draft)?;
    Ok(found)
}

/// Writes a status, a date and a time into a header.
fn set_fields(header: &mut Header, status: &Bytes, date: &Bytes, time: &Bytes) -> Result<(), Miss> {
    header.status = *status.as_slice().first().ok_or(Miss::Words)?;
    header.date = date_of(date)?;
    header.time = time_of(time)?;
    Ok(())
}

impl Upload {
    /// Judges these lines of Ann's.
    fn judge_letter(&mut self, alloc: Global, lines: &[Bytes]) -> Result<String, Miss> {
        self.fill()?;
        add_lines(alloc, &mut self.message.lines, lines)?;
        match judge(alloc, &self.view, &self.message, NOW)? {
            Verdict::Post(draft) => posted(alloc, &draft),
            Verdict::Refused(rule) => refused(alloc, rule),
        }
    }
}

fn judge_letter(alloc: Global, words: &[Bytes]) -> Result<String, Miss> {
    let [kind, status, date, time, lines @ ..] = words else {
        return Err(Miss::Words);
    };
    let mut upload = Upload::new(alloc, conference(kind_of(kind)?));
    set_fields(&mut upload.message.header, status, date, time)?;
    upload.judge_letter(alloc, lines)
}

/// What is found of a case, which begins with what it asks.
fn found(alloc: Global, words: &[Bytes]) -> Result<String, Miss> {
    let [asked, words @ ..] = words else {
        return Err(Miss::Words);
    };
    match asked.as_slice() {
        b"broken" => judge_broken(alloc, words),
        b"size" => judge_size(alloc, words),
        b"letter" => judge_letter(alloc, words),
        _ => Err(Miss::Words),
    }
}

const CASES: &str = r#"
# A case is the kind of a conference, and the rules that are broken in order. To isn't judged in net mail.
broken local => posted
broken echo => posted
broken net => posted
broken local killed => Killed killed
broken local password killed => Killed killed
broken local password => Password password
broken local conference password => Password password
broken local conference => Conference conference
broken local member conference => Conference conference
broken local member => Member member
broken local readonly member => Member member
broken echo readonly => Readonly readonly
broken echo sender readonly => Readonly readonly
broken local sender => Sender sender
broken local to sender => Sender sender
broken local to => To to
broken local subject to => To to
broken net subject => Subject subject
broken net length subject => Subject subject
broken local length => Length length
broken local private length => Length length
broken local private => Private private
broken local full private => Private private
broken net netuser => Netuser netuser
broken net address netuser => Netuser netuser
broken net address => Address address
broken net zone address => Address address
broken net zone => Zone zone
broken net full zone => Zone zone
broken net full => Full full
broken net to full => Full full
# A case is the kind of a conference, its slots, the room for its messages, To, and lines. The address line takes no room,
# and a header and its subfields take 76 and 58 bytes, the body 11, the index record 8.
size net 0 1048576 "BOB RAY" Ann@1:1/1 x\{16383} => posted
size net 0 1048576 "BOB RAY" Ann@1:1/1 x\{16384} => Length length
size local 0 1048576 "BOB RAY" Ann@1:1/1 x\{16373} => posted
size local 0 1048576 "BOB RAY" Ann@1:1/1 x\{16374} => Length length
size local 9998 153 All "First line" => posted
size local 9999 153 All "First line" => Full full
size local 0 152 All "First line" => Full full
# A case is the kind of a conference, a status, a date, a time, and lines: net mail that goes to its address or to none, a
# status that says who may see a message, and the moment that it keeps.
letter net ~ 09-09-01 01:46 Ann@2:5020/400.1 Hi
=> written 999999960 processed 1000000000 private true from "Ann Lee" to "Ann" at "2:5020/400.1" says "Hi\r"
letter net ~ 09-09-01 01:46 " Bob Ray @01:00002/3.0 " Hi
=> written 999999960 processed 1000000000 private true from "Ann Lee" to "Bob Ray " at "1:2/3" says "Hi\r"
letter net " " 09-09-01 01:46 Ann@2:5020/40000 Hi => Address address
letter net " " 09-09-01 01:46 Ann@3:1/1 Hi => Zone zone
letter echo " " 09-09-01 01:46 a\rb ""
=> written 999999960 processed 1000000000 private false from "Ann Lee" to "BOB RAY" at "" says "a b\r\r"
letter echo - 09-09-01 01:46 a\rb ""
=> written 999999960 processed 1000000000 private false from "Ann Lee" to "BOB RAY" at "" says "a b\r\r"
letter echo x 09-09-01 01:46 a\rb ""
=> written 999999960 processed 1000000000 private false from "Ann Lee" to "BOB RAY" at "" says "a b\r\r"
letter echo + 09-09-01 01:46 a\rb ""
=> written 999999960 processed 1000000000 private true from "Ann Lee" to "BOB RAY" at "" says "a b\r\r"
letter echo * 09-09-01 01:46 a\rb ""
=> written 999999960 processed 1000000000 private true from "Ann Lee" to "BOB RAY" at "" says "a b\r\r"
letter echo ~ 09-09-01 01:46 a\rb ""
=> written 999999960 processed 1000000000 private true from "Ann Lee" to "Sam Sysop" at "" says "a b\r\r"
letter echo ` 09-09-01 01:46 a\rb ""
=> written 999999960 processed 1000000000 private true from "Ann Lee" to "Sam Sysop" at "" says "a b\r\r"
letter local " " 09-09-01 01:46 Hi
=> written 999999960 processed 1000000000 private false from "Ann Lee" to "BOB RAY" at "" says "Hi\r"
letter local " " 09/09/01 01:46 Hi
=> written 999999960 processed 1000000000 private false from "Ann Lee" to "BOB RAY" at "" says "Hi\r"
letter local " " 09-09/01 01:46 Hi
=> written 1000000000 processed 1000000000 private false from "Ann Lee" to "BOB RAY" at "" says "Hi\r"
letter local " " 02-29-01 01:46 Hi
=> written 1000000000 processed 1000000000 private false from "Ann Lee" to "BOB RAY" at "" says "Hi\r"
letter local " " 09-09-01 24:00 Hi
=> written 1000000000 processed 1000000000 private false from "Ann Lee" to "BOB RAY" at "" says "Hi\r"
"#;

#[test]
fn messages_are_judged(rt: HostRuntime) -> Result<(), Miss> {
    expect_cases(rt.alloc(), CASES, found)
}
