//! Conferences read of their files.
ghost use Rattle.std.specs.Prelude.{◌<◌, IfOk};
ghost use Rattle.jam_layout.specs.Valid.{IsShape};

use super::conference::{are_short, general, line_of};
use super::patched::{file_of, no_files, set};
use super::texts::{Subject, bytes_of, expect, number_of, parted};
use byte_lists::Bytes;
use jam_layout::{BaseError, BaseFiles, Reader, Readers, Shape, ThreadedConference, read_bare};
use jam_records::{Kind, Slot};
use std::alloc::{AllocError, Global};
use std::test::Fail;

/// The .JHR, .JDT, .JDX and .JLR of a conference of four readers and two messages.
const TWO: [&str; 4] = [
    r"JAM\0\0\xCA\x9A;\x01\0\0\0\x02\0\0\0\xFF\xFF\xFF\xFF\x01\z\0\0\0JAM\0\x01\0\0\0:\0\0\0\0\0\0\0qc\x95\xF7\xFF\xFF\xFF\xFF\0\0\0\0\0\0\0\0\0\0\0\0\0\xCA\x9A;\0\0\0\0\0\xCA\x9A;\x01\0\0\0\x01\0\x80\0\0\0\0\0\0\0\0\0\x0B\0\0\0\xFF\xFF\xFF\xFF\0\0\0\0\x02\0\0\0\x07\0\0\0Bob Ray\x03\0\0\0\x03\0\0\0All\x04\0\0\0\x0B\0\0\00.1.TESTBBS\x06\0\0\0\x05\0\0\0HelloJAM\0\x01\0\0\0:\0\0\0\0\0\0\0\xB4_\x18\xCE\xFF\xFF\xFF\xFF\0\0\0\0\0\0\0\0\0\0\0\0\0\xCA\x9A;\0\0\0\0\0\xCA\x9A;\x02\0\0\0\x01\0\x80\0\0\0\0\0\x0B\0\0\0\x0B\0\0\0\xFF\xFF\xFF\xFF\0\0\0\0\x02\0\0\0\x07\0\0\0Bob Ray\x03\0\0\0\x03\0\0\0All\x04\0\0\0\x0B\0\0\00.2.TESTBBS\x06\0\0\0\x05\0\0\0Hello",
    r"First line\rFirst line\r",
    r"\x22\x8E\xE7\xC4\0\x04\0\0\x22\x8E\xE7\xC4\x86\x04\0\0",
    r"\x99W\x03\x9F\x01\0\0\0\0\0\0\0\0\0\0\0\x91d\x92\xC6\x02\0\0\0\0\0\0\0\0\0\0\0#9\xC6m\x03\0\0\0\0\0\0\0\0\0\0\0\xAA\xFEL\x8E\x04\0\0\0\0\0\0\0\0\0\0\0",
];

/// Those of a netmail conference of one reader, whose first slot is gone and whose second holds a message.
const NET: [&str; 4] = [
    r"JAM\0\0\xCA\x9A;\x07\0\0\0\x01\0\0\0\xFF\xFF\xFF\xFF\x01\z\0\0\0JAM\0\x01\0\0\0\xAF\0\0\0\0\0\0\0\x9D\xF3\xB5\xFF\xFF\xFF\xFF\xFF\0\0\0\0\0\0\0\0\0\0\0\0\0\xAB\x90A\0\x8C\x86G<\xAB\x90A\x02\0\0\0\x0C\0\0\x02\0\0\0\0\0\0\0\0\x0A\0\0\0\xFF\xFF\xFF\xFF\0\0\0\0\0\0\0\0\x0B\0\0\02:5020/1042\x01\0\0\0\x0A\0\0\01:105/42.7\x02\0\0\0\x07\0\0\0Bob Ray\x03\0\0\0\x07\0\0\0Ann Lee\x04\0\0\0\x14\0\0\02:5020/1042 5e6f7a8b\x06\0\0\0H\0\0\0The hub moves on Sunday: poll the new address from 06:00, not the old..!",
    r"Line one\r\r",
    r"\xFF\xFF\xFF\xFF\xFF\xFF\xFF\xFF\x99W\x03\x9F\0\x04\0\0",
    r"\x99W\x03\x9F\x01\0\0\0\x02\0\0\0\x02\0\0\0",
];

/// Those of an echo conference of one reader and one message, which has no body.
const ECHO: [&str; 4] = [
    r"JAM\0\0\xCA\x9A;\x01\0\0\0\x01\0\0\0\xFF\xFF\xFF\xFF\x01\z\0\0\0JAM\0\x01\0\0\0-\0\0\0\0\0\0\0qc\x95\xF7\xFF\xFF\xFF\xFF\0\0\0\0\0\0\0\0\0\0\0\0\0\xAB\x90A\0\0\0\0\0\xAB\x90A\x01\0\0\0\x01\0\0\x01\0\0\0\0\0\0\0\0\0\0\0\0\xFF\xFF\xFF\xFF\0\0\0\0\x02\0\0\0\x07\0\0\0Ann Lee\x03\0\0\0\x03\0\0\0All\x04\0\0\0\x0B\0\0\00.1.TESTBBS",
    r"",
    r"\x22\x8E\xE7\xC4\0\x04\0\0",
    r"\x99W\x03\x9F\x01\0\0\0\x01\0\0\0\x01\0\0\0",
];

/// Conferences, of which one file may be changed: bytes in it from a place on, its length, or bytes behind it. `far` has
/// the headers of two messages alone, in another place of the board. What is found is the change counter, how many slots
/// and live messages there are, the pointers, and the lengths of the bodies; or the file, the item and the rule of the
/// first damage. With `message` and a place from 0 it is the message there, without its body.
const TABLE: &str = r#"
two = 1 2 2 [0, 0, 0, 0] [11, 11]
two 4 add \xFF\xFF\xFF\xFF\xFF\xFF\xFF\xFF = 1 3 2 [0, 0, 0, 0] [11, 11]
net = 7 2 1 [2] [10]
echo = 1 1 1 [1] [0]
two 2 at 12 \x03 = 2 0 Active
two 2 at 1024 \0 = 2 1 Signature
two 2 at 1048 \x01 = 2 1 Links
two 2 cut 1291 = 2 2 Subfields
two 3 at 10 x = 3 1 Line
two 3 cut 21 = 3 2 Short
two 3 add \0 = 3 3 Rest
two 4 cut 8 = 4 1 Missing
two 4 cut 15 = 4 1 Short
two 5 at 8 \x09 = 5 0 Pointer
far 2 at 4 \x01 = 6 0 Created
net message 0 = none
net message 1 = "Bob Ray" "Ann Lee" "The hub moves on Sunday: poll the new address from 06:00, not the old..!" "2:5020/1042 5e6f7a8b" "" "2:5020/1042" "1:105/42.7" "" 1100000000 1200000000 1100000060 false true true false
echo message 0 = "Ann Lee" "All" "" "0.1.TESTBBS" "" "" "" "" 1100000000 0 1100000000 true false false false
"#;

/// What the board says of a conference of this kind with so many readers, one at most.
fn shape_of(alloc: Global, place: u8, kind: Kind, has_reader: bool) -> Result<Shape, AllocError>
    requires { place < 64 }
    ensures { IfOk result IsShape }
{
    let mut readers = Readers::new(alloc);
    if has_reader {
        let name = Bytes::from_slice(alloc, b"Ann Lee")?;
        readers.add(alloc, Reader { id: 1, name })?;
    }
    Ok(Shape {
        place,
        created: 1_000_000_000,
        kind,
        readers,
    })
}

/// What the board says of the conference of a name.
fn shape(alloc: Global, name: &str) -> Result<Shape, AllocError>
    ensures { IfOk result IsShape }
{
    match name {
        "two" => general(alloc),
        "net" => shape_of(alloc, 0, Kind::Net, true),
        "echo" => shape_of(alloc, 0, Kind::Echo, true),
        _ => shape_of(alloc, 1, Kind::Net, false),
    }
}

/// The bytes of a file after a change.
fn changed(alloc: Global, bytes: &[u8], change: &str) -> Result<Bytes, Fail> {
    let (verb, words) = parted(change)?;
    let mut made = bytes.to_vec(alloc)?;
    match verb {
        "cut" => made.truncate(number_of(words)? as usize),
        "add" => made.extend_from_slice(bytes_of(alloc, words)?.as_slice())?,
        _ => {
            let (at, text) = parted(words)?;
            let (at, part) = (number_of(at)? as usize, bytes_of(alloc, text)?);
            for (old, new) in made.iter_mut().skip(at).zip(part.as_slice()) {
                *old = *new;
            }
        }
    }
    Ok(Bytes::from_vec(made))
}

/// Makes files those of these texts.
fn fill(alloc: Global, files: &mut BaseFiles, texts: [&str; 4]) -> Result<(), Fail> {
    for (number, text) in (2..6).zip(texts) {
        set(files, number, bytes_of(alloc, text)?);
    }
    Ok(())
}

/// The texts of the files of a name.
fn texts_of(name: &str) -> [&'static str; 4] {
    match name {
        "two" => TWO,
        "net" => NET,
        "echo" => ECHO,
        _ => [TWO[0], "", "", ""],
    }
}

/// Makes a change of the file of a number, or none without one.
fn change(alloc: Global, files: &mut BaseFiles, number: &str, change: &str) -> Result<(), Fail> {
    if number.is_empty() {
        return Ok(());
    }
    let number = u16::try_from(number_of(number)?).unwrap_or(0);
    let file = file_of(files, number).ok_or("no file")?;
    let made = changed(alloc, file.as_slice(), change)?;
    set(files, number, made);
    Ok(())
}

/// The counts, the pointers and the lengths of a conference, or its first damage.
fn told(alloc: Global, read: &Result<ThreadedConference, BaseError>) -> Result<String, AllocError> {
    match read {
        Ok(threaded) => {
            let bare = threaded.bare();
            let conference = &bare.conference;
            let (slots, live) = (conference.slots.len(), conference.live_count());
            let (counter, pointers) = (conference.counter, conference.pointers.as_slice());
            let lengths = bare.lengths.as_slice();
            format!(in alloc; "{counter} {slots} {live} {pointers:?} {lengths:?}")
        }
        Err(BaseError::Damaged(damage)) => {
            let (file, item, rule) = (damage.file, damage.item, damage.rule);
            format!(in alloc; "{file} {item} {rule:?}")
        }
        Err(error) => format!(in alloc; "{error:?}"),
    }
}

/// The message in a place of a conference, or without one what is told of it.
fn found_in(
    alloc: Global,
    read: &Result<ThreadedConference, BaseError>,
    place: Option<usize>,
) -> Result<String, Fail> {
    let (Ok(threaded), Some(place)) = (read, place) else {
        return Ok(told(alloc, read)?);
    };
    match threaded.bare().conference.slots.get(place) {
        Some(Slot::Held(message)) => Ok(line_of(alloc, message)?),
        _ => Ok(String::from_str(alloc, "none")?),
    }
}

/// What is found of the conference of a name in its files.
fn read(
    alloc: Global,
    name: &str,
    files: &BaseFiles,
    place: Option<usize>,
) -> Result<String, Fail> {
    if !are_short(files) {
        return Err(Fail::from("a file is long"));
    }
    let shape = shape(alloc, name)?;
    found_in(alloc, &read_bare(alloc, files, &shape), place)
}

/// What is read of conferences.
#[derive(Drop)]
struct Conferences;

impl Subject for Conferences {
    fn found(&mut self, alloc: Global, asked: &str) -> Result<String, Fail> {
        let (name, words) = asked.split_once(' ').unwrap_or((asked, ""));
        let (verb, words) = words.split_once(' ').unwrap_or(("", ""));
        read_changed(alloc, &mut no_files(alloc), name, verb, words)
    }
}

/// Makes files those of a name, with a change of one, or looks at a message in them.
fn read_changed(
    alloc: Global,
    files: &mut BaseFiles,
    name: &str,
    verb: &str,
    words: &str,
) -> Result<String, Fail> {
    fill(alloc, files, texts_of(name))?;
    if verb == "message" {
        let place = number_of(words)? as usize;
        return read(alloc, name, files, Some(place));
    }
    change(alloc, files, verb, words)?;
    read(alloc, name, files, None)
}

#[test]
fn conferences_are_read(rt: HostRuntime) -> Result<(), Fail> {
    expect(rt.alloc(), &mut Conferences, TABLE)
}
