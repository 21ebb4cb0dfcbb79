//! Files of the shelf, and the commands that read them.
use super::answers::Answers;
use super::changes::damages_at;
use byte_lists::Bytes;
use std::alloc::Global;
use test_runs::{Miss, Stage, damaged, file_of, played, put, reply_of};

/// A file of the shelf, a command that reads it, and what that may say.
#[derive(Clone, Copy)]
struct Reading<'a> {
    name: &'a str,
    line: &'a str,
    answers: Answers<'a>,
}

impl Reading<'_> {
    /// Looks at what the command says where the file has these bytes.
    fn expect_answer(&self, alloc: Global, stage: &mut Stage, file: &Bytes) -> Result<(), Miss> {
        put(&mut stage.shelf, alloc, self.name, file.as_slice())?;
        let reply = reply_of(alloc, &stage.host, &mut stage.shelf, self.line)?;
        if !self.answers.take(reply.as_str()) {
            return Err(Miss::said(alloc, self.line, reply.as_bytes(), self.answers.last)?);
        }
        Ok(())
    }

    /// Looks at what the command says of each change of the file at each place.
    fn expect_answers(&self, alloc: Global, stage: &mut Stage) -> Result<(), Miss> {
        let whole = file_of(alloc, &stage.shelf, self.name)?;
        for (place, byte) in whole.as_slice().iter().enumerate() {
            for damage in damages_at(place, *byte) {
                let changed = damaged(alloc, whole.as_slice(), damage)?;
                self.expect_answer(alloc, stage, &changed)?;
            }
        }
        put(&mut stage.shelf, alloc, self.name, whole.as_slice())
    }
}

/// Looks at what each of some commands says.
fn expect_each(alloc: Global, stage: &mut Stage, readings: &[Reading<'_>]) -> Result<(), Miss> {
    for reading in readings {
        reading.expect_answers(alloc, stage)?;
    }
    Ok(())
}

/// The same where a transcript has left the files.
fn expect_readings(alloc: Global, transcript: &str, readings: &[Reading<'_>]) -> Result<(), Miss> {
    let mut stage = played(alloc, transcript)?;
    expect_each(alloc, &mut stage, readings)
}

/// The lines of a packet, and of a listing, before the last one.
const LISTED: &str = "\
board *
user *
# ? public *
# ? private *
# ? comment *
# ? password *
# ? killed *";

const COUNTED: &str = "\
# messages
refused broken truncated #
refused broken blocks #";

const LIST: Reading<'static> = Reading {
    name: "P1",
    line: "list P1",
    answers: Answers {
        before: LISTED,
        last: COUNTED,
    },
};

const SCAN: Reading<'static> = Reading {
    name: "P1",
    line: "scan P1",
    answers: Answers {
        before: "",
        last: COUNTED,
    },
};

const READ_MESSAGES: Reading<'static> = Reading {
    name: "out/MESSAGES.DAT",
    line: "read out",
    answers: Answers {
        before: LISTED,
        last: COUNTED,
    },
};

const READ_CONTROL: Reading<'static> = Reading {
    name: "out/CONTROL.DAT",
    line: "read out",
    answers: Answers {
        before: LISTED,
        last: "\
# messages
refused control short #
refused control number #
refused control id 5",
    },
};

#[test]
fn a_changed_packet_is_read_or_refused(rt: HostRuntime) -> Result<(), Miss> {
    expect_readings(
        rt.alloc(),
        "\n* packets\n* folders\n",
        &[LIST, SCAN, READ_MESSAGES, READ_CONTROL],
    )
}

const INIT: Reading<'static> = Reading {
    name: "setup.txt",
    line: "init setup.txt",
    answers: Answers {
        before: "",
        last: "\
made # conferences
refused setup # key
refused setup # text
refused setup # id
refused setup # number
refused setup # zones
refused setup # kind
refused setup # rules
refused setup # name
refused setup # order
refused setup # many
refused setup # missing",
    },
};

const BATCH: Reading<'static> = Reading {
    name: "lines",
    line: "batch lines",
    answers: Answers {
        before: "\
# 0/1 public BOB RAY > ALL: Hello [1]
# messages
refused nofile ?
refused notmade",
        // A batch without a command says nothing.
        last: "
# messages
refused nofile ?
refused notmade
usage line #",
    },
};

const SETUP_AND_LINES: &str = r#"
* setups
* packets
* put lines list P1\n# a "note"\n\nscan "P1"\ncheck\n
"#;

#[test]
fn a_changed_setup_or_batch_is_carried_out_or_refused(rt: HostRuntime) -> Result<(), Miss> {
    expect_readings(rt.alloc(), SETUP_AND_LINES, &[INIT, BATCH])
}

const IMPORT: Reading<'static> = Reading {
    name: "sheet",
    line: "import 0 sheet",
    answers: Answers {
        before: "",
        last: "\
imported # into 0
refused sheet # header
refused sheet # twice
refused sheet # from
refused sheet # to
refused sheet # subject
refused sheet # date
refused sheet # msgid
refused sheet # reply
refused sheet # private
refused sheet # missing
refused sheet # byte
refused sheet # length
refused sheet # end",
    },
};

const UPLOAD: Reading<'static> = Reading {
    name: "R.MSG",
    line: "upload \"Ann Lee\" R.MSG",
    answers: Answers {
        before: "\
# posted # #
# refused killed
# refused password
# refused conference
# refused member
# refused readonly
# refused sender
# refused to
# refused subject
# refused length
# refused private
# refused netuser
# refused address
# refused zone
# refused full",
        last: "\
posted # refused #
refused broken truncated #
refused broken blocks #
refused noboardid
refused board",
    },
};

const REPLY: Reading<'static> = Reading {
    name: "R.MSG",
    line: "reply out 1 text R.MSG",
    answers: Answers {
        before: "",
        last: "\
replied to 1, # in R.MSG
refused broken truncated #
refused broken blocks #
refused noboardid
refused board",
    },
};

const TEXT: Reading<'static> = Reading {
    name: "text",
    line: "reply out 1 text S.MSG",
    answers: Answers {
        before: "",
        last: "replied to 1, # in S.MSG\nrefused text 1",
    },
};

/// A sheet with each of the words, and the reply packet of it, with a private message to All and one to B.
const COMPOSED: &str = r#"
* board B
* folders
* put sheet From: Bob Ray\nTo: All\nSubject: Hi\nDate: 86400\nMsgid: m1\nReply: m0\nPrivate: yes\n\nHi\n..\n.\n\nFrom: A\nTo: B\n\n.\n
* put text Thanks\n
> compose out 0 sheet R.MSG
composed 2, 2 in R.MSG
"#;

#[test]
fn a_changed_sheet_or_reply_packet_is_taken_or_refused(rt: HostRuntime) -> Result<(), Miss> {
    expect_readings(rt.alloc(), COMPOSED, &[IMPORT, UPLOAD, REPLY, TEXT])
}

/// What may be said of a base that is adopted.
const ADOPTED: Answers<'static> = Answers {
    before: "\
# posted 0 #
# refused header
# refused subfields
# refused text
# refused length",
    last: "\
posted # refused #
refused foreign short
refused foreign signature",
};

const ADOPT_HEADERS: Reading<'static> = Reading {
    name: "old.JHR",
    line: "adopt 0 old",
    answers: ADOPTED,
};

const ADOPT_TEXTS: Reading<'static> = Reading {
    name: "old.JDT",
    line: "adopt 0 old",
    answers: ADOPTED,
};

const ADOPT_INDEX: Reading<'static> = Reading {
    name: "old.JDX",
    line: "adopt 0 old",
    answers: ADOPTED,
};

/// A base of a message with a name and a msgid, whose text has a line feed. Its header stands inside of the base header.
const FOREIGN: &str = r#"
* board B
* put old.JHR JAM\0
* add old.JHR 96 \0
* add old.JHR 1 JAM\0\x01\0\0\0\x15\0\0\0
* add old.JHR 52 \0
* add old.JHR 1 \x04\0\0\0\0\0\0\0\0\0\0\0
* add old.JHR 1 \x02\0\0\0\x03\0\0\0Joe\x04\0\0\0\x02\0\0\0m1
* add old.JHR 827 \0
* put old.JDT Hi\r\n
* put old.JDX \0\0\0\0d\0\0\0\xFF\xFF\xFF\xFF\xFF\xFF\xFF\xFF
> adopt 7 old
1 posted 7 1
posted 1 refused 0
"#;

#[test]
fn a_changed_base_is_adopted_or_refused(rt: HostRuntime) -> Result<(), Miss> {
    expect_readings(
        rt.alloc(),
        FOREIGN,
        &[ADOPT_HEADERS, ADOPT_TEXTS, ADOPT_INDEX],
    )
}

const TOSS: Reading<'static> = Reading {
    name: "few.pkt",
    line: "toss few.pkt",
    answers: Answers {
        before: "\
# posted # #
# refused area
# refused to
# refused from
# refused subject
# refused dupe",
        last: "\
posted # refused #
refused packet short #
refused packet type 18
refused packet kind #
refused packet cut #
refused packet field #",
    },
};

/// A packet of a message of an area, and of a net mail.
const NEIGHBOUR: &str = r#"
* setups
* add setup.txt 1 conference: 9 echo - FIDO\n
> init setup.txt
made 4 conferences
* add few.pkt 18 \0
* add few.pkt 1 \x02
* add few.pkt 39 \0
* put front \x02
* add front 13 \0
* add front 1 08 Sep 01  01:46:40\0
* join few.pkt 1 front
* add few.pkt 1 Ann\0Joe\0Hi\0AREA:FIDO\r\x01MSGID: a\rHello\r\0
* join few.pkt 1 front
* add few.pkt 1 Ann\0Joe\0Hi\0\x01MSGID: a\rHello\r\0\0\0
> toss few.pkt
1 posted 9 1
2 posted 1 1
posted 2 refused 0
> toss few.pkt
1 refused dupe
2 refused dupe
posted 0 refused 2
"#;

#[test]
fn a_changed_type_2_packet_is_tossed_or_refused(rt: HostRuntime) -> Result<(), Miss> {
    expect_readings(rt.alloc(), NEIGHBOUR, &[TOSS])
}
