ghost use Rattle.std.specs.Prelude.{◌≡◌, ◌∷◌, [], IfOk};
ghost use Rattle.cmd_entries.specs.OneWord.{base, conferences, file, flags, folder, number, text};
ghost use Rattle.cmd_entries.specs.Words.{command_behind, four_words, no_words, one_word, read_words, three_words, two_words};

use crate::one_word::{are_flags, file_of, folder_of, names_base, names_conferences, read_number};
use crate::words::Words;
use crate::writing::writing_of;
use byte_lists::Bytes;
use door_outside::ShelfName;
use std::alloc::{AllocError, Global};

/// A command of the door.
#[derive(Drop)]
pub enum Command {
    /// `ack USER PACKET`: acknowledges a packet for the user of a name.
    Ack {
        user: Bytes,
        packet: u32,
    },
    /// `adopt CONF PREFIX`: appends the messages of another tool's base in the conference of a number. The base is the
    /// files of a prefix, which has at most 4 parts with the ending .JHR.
    Adopt {
        conference: u32,
        prefix: Bytes,
    },
    /// `batch FILE`: carries out the commands of a file, a line each.
    Batch {
        file: ShelfName,
    },
    /// `check`: says what the board has.
    Check,
    /// `compose FOLDER CONF SHEET REP`: adds the messages of a sheet, to the conference of a number, to the reply
    /// packet of the name REP. The folder is a packet's, and has at most 3 parts.
    Compose {
        folder: ShelfName,
        conference: u32,
        sheet: ShelfName,
        rep: ShelfName,
    },
    /// `enroll NAME FLAGS CONFS`: enrolls a user, who may send net mail where FLAGS is `n`, as a member of the
    /// conferences that CONFS names.
    Enroll {
        name: Bytes,
        flags: Bytes,
        conferences: Bytes,
    },
    /// `export USER LIMIT FOLDER`: hands out to the user of a name what is offered to him, at most so many messages,
    /// as the packet of a folder, which has at most 3 parts.
    Export {
        user: Bytes,
        limit: u32,
        folder: ShelfName,
    },
    /// `import CONF FILE`: appends the messages of a sheet in the conference of a number.
    Import {
        conference: u32,
        file: ShelfName,
    },
    /// `init FILE`: makes the board of a setup file.
    Init {
        file: ShelfName,
    },
    /// `kill CONF N`: deletes the message of the number N in the conference of a number.
    Kill {
        conference: u32,
        number: u32,
    },
    /// `list FILE`: lists the messages of a packet's file.
    List {
        file: ShelfName,
    },
    /// `pack CONF`: takes the deleted messages of the conference of a number out of its files.
    Pack {
        conference: u32,
    },
    /// `read FOLDER`: lists the messages of a packet's folder, which has at most 3 parts.
    Read {
        folder: ShelfName,
    },
    /// `reply FOLDER N TEXT REP`: adds a reply to the message in place N of the packet, from 1, to the reply packet of
    /// the name REP. Its lines are those of the file TEXT, and the folder has at most 3 parts.
    Reply {
        folder: ShelfName,
        place: u32,
        text: ShelfName,
        rep: ShelfName,
    },
    /// `sample SEED N`: appends so many made-up messages, which are drawn by a seed.
    Sample {
        seed: u32,
        count: u32,
    },
    /// `read FOLDER N`: shows the message in place N of the packet, from 1.
    Show {
        folder: ShelfName,
        place: u32,
    },
    /// `scan FILE`: counts the messages of a packet's file, without memory for them.
    Scan {
        file: ShelfName,
    },
    /// `toss FILE`: posts the messages of a type 2 packet (FTS-0001) in the conferences that their areas name, net mail in
    /// the first net conference.
    Toss {
        file: ShelfName,
    },
    /// `upload USER FILE`: takes in a reply packet for the user of a name, and posts what is accepted of it.
    Upload {
        user: Bytes,
        file: ShelfName,
    },
}

/// The command of `ack` with the words behind it.
fn parse_ack(alloc: Global, rest: &[Bytes]) -> Result<Option<Command>, AllocError>
    ensures { IfOk result (λ found. found ≡ two_words text number Command.Ack rest.now) }
{
    let [user, packet] = rest else {
        return Ok(None);
    };
    let Some(packet) = read_number(packet.as_slice()) else {
        return Ok(None);
    };
    Ok(Some(Command::Ack {
        user: user.copy(alloc)?,
        packet,
    }))
}

/// The command of `adopt` with the words behind it.
fn parse_adopt(alloc: Global, rest: &[Bytes]) -> Result<Option<Command>, AllocError>
    ensures { IfOk result (λ found. found ≡ two_words number base Command.Adopt rest.now) }
{
    let [conference, prefix] = rest else {
        return Ok(None);
    };
    let Some(conference) = read_number(conference.as_slice()) else {
        return Ok(None);
    };
    if !names_base(alloc, prefix.as_slice())? {
        return Ok(None);
    }
    Ok(Some(Command::Adopt {
        conference,
        prefix: prefix.copy(alloc)?,
    }))
}

/// The command of `batch` with the words behind it.
fn parse_batch(alloc: Global, rest: &[Bytes]) -> Result<Option<Command>, AllocError>
    ensures { IfOk result (λ found. found ≡ one_word file Command.Batch rest.now) }
{
    let [file] = rest else {
        return Ok(None);
    };
    match file_of(alloc, file.as_slice())? {
        Some(file) => Ok(Some(Command::Batch { file })),
        None => Ok(None),
    }
}

/// The command of `check` with the words behind it.
fn parse_check(rest: &[Bytes]) -> Option<Command>
    ensures { result ≡ no_words Command.Check rest.now }
{
    match rest {
        [] => Some(Command::Check),
        _ => None,
    }
}

/// The command of `enroll` with the words behind it.
fn parse_enroll(alloc: Global, rest: &[Bytes]) -> Result<Option<Command>, AllocError>
    ensures { IfOk result (λ found. found ≡ three_words text flags conferences Command.Enroll rest.now) }
{
    let [name, flags, conferences] = rest else {
        return Ok(None);
    };
    if !are_flags(flags.as_slice()) || !names_conferences(alloc, conferences.as_slice())? {
        return Ok(None);
    }
    Ok(Some(Command::Enroll {
        name: name.copy(alloc)?,
        flags: flags.copy(alloc)?,
        conferences: conferences.copy(alloc)?,
    }))
}

/// The command of `export` with the words behind it.
fn parse_export(alloc: Global, rest: &[Bytes]) -> Result<Option<Command>, AllocError>
    ensures { IfOk result (λ found. found ≡ three_words text number folder Command.Export rest.now) }
{
    let [user, limit, folder] = rest else {
        return Ok(None);
    };
    let Some(limit) = read_number(limit.as_slice()) else {
        return Ok(None);
    };
    match folder_of(alloc, folder.as_slice())? {
        Some(folder) => Ok(Some(Command::Export {
            user: user.copy(alloc)?,
            limit,
            folder,
        })),
        None => Ok(None),
    }
}

/// The command of `import` with the words behind it.
fn parse_import(alloc: Global, rest: &[Bytes]) -> Result<Option<Command>, AllocError>
    ensures { IfOk result (λ found. found ≡ two_words number file Command.Import rest.now) }
{
    let [conference, file] = rest else {
        return Ok(None);
    };
    let Some(conference) = read_number(conference.as_slice()) else {
        return Ok(None);
    };
    match file_of(alloc, file.as_slice())? {
        Some(file) => Ok(Some(Command::Import { conference, file })),
        None => Ok(None),
    }
}

/// The command of `kill` with the words behind it.
fn parse_kill(rest: &[Bytes]) -> Option<Command>
    ensures { result ≡ two_words number number Command.Kill rest.now }
{
    let [conference, number] = rest else {
        return None;
    };
    let Some(conference) = read_number(conference.as_slice()) else {
        return None;
    };
    match read_number(number.as_slice()) {
        Some(number) => Some(Command::Kill { conference, number }),
        None => None,
    }
}

/// The command of `init` with the words behind it.
fn parse_init(alloc: Global, rest: &[Bytes]) -> Result<Option<Command>, AllocError>
    ensures { IfOk result (λ found. found ≡ one_word file Command.Init rest.now) }
{
    let [file] = rest else {
        return Ok(None);
    };
    match file_of(alloc, file.as_slice())? {
        Some(file) => Ok(Some(Command::Init { file })),
        None => Ok(None),
    }
}

/// The command of `list` with the words behind it.
fn parse_list(alloc: Global, rest: &[Bytes]) -> Result<Option<Command>, AllocError>
    ensures { IfOk result (λ found. found ≡ one_word file Command.List rest.now) }
{
    let [file] = rest else {
        return Ok(None);
    };
    match file_of(alloc, file.as_slice())? {
        Some(file) => Ok(Some(Command::List { file })),
        None => Ok(None),
    }
}

/// The command of `pack` with the words behind it.
fn parse_pack(rest: &[Bytes]) -> Option<Command>
    ensures { result ≡ one_word number Command.Pack rest.now }
{
    let [conference] = rest else {
        return None;
    };
    match read_number(conference.as_slice()) {
        Some(conference) => Some(Command::Pack { conference }),
        None => None,
    }
}

/// The command of `sample` with the words behind it.
fn parse_sample(rest: &[Bytes]) -> Option<Command>
    ensures { result ≡ two_words number number Command.Sample rest.now }
{
    let [seed, count] = rest else {
        return None;
    };
    let Some(seed) = read_number(seed.as_slice()) else {
        return None;
    };
    match read_number(count.as_slice()) {
        Some(count) => Some(Command::Sample { seed, count }),
        None => None,
    }
}

/// The command of `scan` with the words behind it.
fn parse_scan(alloc: Global, rest: &[Bytes]) -> Result<Option<Command>, AllocError>
    ensures { IfOk result (λ found. found ≡ one_word file Command.Scan rest.now) }
{
    let [file] = rest else {
        return Ok(None);
    };
    match file_of(alloc, file.as_slice())? {
        Some(file) => Ok(Some(Command::Scan { file })),
        None => Ok(None),
    }
}

/// The command of `toss` with the words behind it.
fn parse_toss(alloc: Global, rest: &[Bytes]) -> Result<Option<Command>, AllocError>
    ensures { IfOk result (λ found. found ≡ one_word file Command.Toss rest.now) }
{
    let [file] = rest else {
        return Ok(None);
    };
    match file_of(alloc, file.as_slice())? {
        Some(file) => Ok(Some(Command::Toss { file })),
        None => Ok(None),
    }
}

/// The command of `upload` with the words behind it.
fn parse_upload(alloc: Global, rest: &[Bytes]) -> Result<Option<Command>, AllocError>
    ensures { IfOk result (λ found. found ≡ two_words text file Command.Upload rest.now) }
{
    let [user, file] = rest else {
        return Ok(None);
    };
    match file_of(alloc, file.as_slice())? {
        Some(file) => Ok(Some(Command::Upload {
            user: user.copy(alloc)?,
            file,
        })),
        None => Ok(None),
    }
}

/// The command of `read` with the folder behind it.
fn parse_folder(alloc: Global, folder: &[u8]) -> Result<Option<Command>, AllocError>
    ensures { IfOk result (λ found. found ≡ read_words (folder.now ∷ [])) }
{
    match folder_of(alloc, folder)? {
        Some(folder) => Ok(Some(Command::Read { folder })),
        None => Ok(None),
    }
}

/// The command of `read` with the folder and the place behind it.
fn parse_place(alloc: Global, folder: &[u8], place: &[u8]) -> Result<Option<Command>, AllocError>
    ensures { IfOk result (λ found. found ≡ read_words (folder.now ∷ place.now ∷ [])) }
{
    let Some(folder) = folder_of(alloc, folder)? else {
        return Ok(None);
    };
    match read_number(place) {
        Some(place) => Ok(Some(Command::Show { folder, place })),
        None => Ok(None),
    }
}

/// The command of `read` with the words behind it.
fn parse_read(alloc: Global, rest: &[Bytes]) -> Result<Option<Command>, AllocError>
    ensures { IfOk result (λ found. found ≡ read_words rest.now) }
{
    match rest {
        [folder] => parse_folder(alloc, folder.as_slice()),
        [folder, place] => parse_place(alloc, folder.as_slice(), place.as_slice()),
        _ => Ok(None),
    }
}

/// The command of `reply` with the words behind it.
fn parse_reply(alloc: Global, rest: &[Bytes]) -> Result<Option<Command>, AllocError>
    ensures { IfOk result (λ found. found ≡ four_words folder number file file Command.Reply rest.now) }
{
    match writing_of(alloc, rest)? {
        Some(writing) => Ok(Some(Command::Reply {
            folder: writing.folder,
            place: writing.number,
            text: writing.file,
            rep: writing.rep,
        })),
        None => Ok(None),
    }
}

/// The command of `compose` with the words behind it.
fn parse_compose(alloc: Global, rest: &[Bytes]) -> Result<Option<Command>, AllocError>
    ensures { IfOk result (λ found. found ≡ four_words folder number file file Command.Compose rest.now) }
{
    match writing_of(alloc, rest)? {
        Some(writing) => Ok(Some(Command::Compose {
            folder: writing.folder,
            conference: writing.number,
            sheet: writing.file,
            rep: writing.rep,
        })),
        None => Ok(None),
    }
}

/// The command of a first word with those behind it.
fn parse_behind(alloc: Global, verb: &[u8], rest: &[Bytes]) -> Result<Option<Command>, AllocError>
    ensures { IfOk result (λ found. found ≡ command_behind verb.now rest.now) }
{
    if verb == b"list".as_slice() {
        parse_list(alloc, rest)
    } else if verb == b"read".as_slice() {
        parse_read(alloc, rest)
    } else if verb == b"reply".as_slice() {
        parse_reply(alloc, rest)
    } else if verb == b"compose".as_slice() {
        parse_compose(alloc, rest)
    } else if verb == b"init".as_slice() {
        parse_init(alloc, rest)
    } else if verb == b"enroll".as_slice() {
        parse_enroll(alloc, rest)
    } else if verb == b"import".as_slice() {
        parse_import(alloc, rest)
    } else if verb == b"kill".as_slice() {
        Ok(parse_kill(rest))
    } else if verb == b"export".as_slice() {
        parse_export(alloc, rest)
    } else if verb == b"ack".as_slice() {
        parse_ack(alloc, rest)
    } else if verb == b"upload".as_slice() {
        parse_upload(alloc, rest)
    } else if verb == b"check".as_slice() {
        Ok(parse_check(rest))
    } else if verb == b"sample".as_slice() {
        Ok(parse_sample(rest))
    } else if verb == b"batch".as_slice() {
        parse_batch(alloc, rest)
    } else if verb == b"scan".as_slice() {
        parse_scan(alloc, rest)
    } else if verb == b"toss".as_slice() {
        parse_toss(alloc, rest)
    } else if verb == b"adopt".as_slice() {
        parse_adopt(alloc, rest)
    } else if verb == b"pack".as_slice() {
        Ok(parse_pack(rest))
    } else {
        Ok(None)
    }
}

impl Command {
    ghost use Rattle.std.specs.Prelude.{◌≡◌, IfOk};
    ghost use Rattle.cmd_entries.specs.Words.{command_of};

    /// The command that the words are, or None exactly where they are no command. The error comes where there is no memory.
    pub fn parse(alloc: Global, words: &Words) -> Result<Option<Command>, AllocError>
        ensures { IfOk result (λ found. found ≡ command_of words.now) }
    {
        let [first, rest @ ..] = words.as_slice() else {
            return Ok(None);
        };
        parse_behind(alloc, first.as_slice(), rest)
    }
}
