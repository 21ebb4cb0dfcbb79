//! The data files of a board, and `check`, which reads them all.
use super::answers::Answers;
use super::changes::damages_at;
use door_outside::FileId;
use memory_outside::{ImageChoice, MemoryHost, MemoryShelf};
use std::alloc::Global;
use test_runs::{
    Damage, Miss, Stage, Status, host_with, no_faults, played, reply_of, run_next, stops_at,
};

/// What `check` says of a whole board.
const WHOLE: Answers<'static> = Answers {
    before: "\
board ?
# ? # slots, # live",
    last: "# users, # uploads, # bytes",
};

/// The rules of the ledger, and of the four files of a place.
const LEDGER: &str =
    "size short magic version count number text id zones kind rules name order twice flags member offer user counts rest high";

const HEADERS: &str =
    "short signature created revision fields number attribute text subfields value crc active links rest";

const TEXTS: &str = "short line rest";

const INDEX: &str = "count short index missing rest";

const POINTERS: &str = "short reader pointer rest";

/// The rules of a data file.
fn rules_of(file: u16) -> &'static str {
    match file {
        0 => LEDGER,
        _ => match file % 4 {
            2 => HEADERS,
            3 => TEXTS,
            0 => INDEX,
            _ => POINTERS,
        },
    }
}

/// Whether a line is `damaged FILE RECORD RULE` with a rule of that file.
fn is_damage(line: &str) -> Option<bool> {
    let (file, place) = line.strip_prefix("damaged ")?.split_once(' ')?;
    let (record, rule) = place.split_once(' ')?;
    let _: u32 = record.parse().ok()?;
    let file: u16 = file.parse().ok()?;
    Some(rules_of(file).split(' ').any(|word| word == rule))
}

/// Whether a reply of `check` says what a board has, or a damage.
fn is_answer(reply: &str) -> bool {
    let line = reply.strip_suffix('\n').unwrap_or("");
    WHOLE.take(reply) || is_damage(line) == Some(true)
}

/// What `check` says where a file is damaged.
fn reply_with(
    alloc: Global,
    whole: &MemoryHost,
    shelf: &mut MemoryShelf,
    file: FileId,
    damage: Damage,
) -> Result<String, Miss> {
    let host = host_with(alloc, whole, file, damage)?;
    reply_of(alloc, &host, shelf, "check")
}

/// Looks at what `check` says there.
fn expect_answer(
    alloc: Global,
    whole: &MemoryHost,
    shelf: &mut MemoryShelf,
    file: FileId,
    damage: Damage,
) -> Result<(), Miss> {
    let reply = reply_with(alloc, whole, shelf, file, damage)?;
    if is_answer(reply.as_str()) {
        return Ok(());
    }
    Err(Miss::said(alloc, "check", reply.as_bytes(), "a damage, or a board")?)
}

/// The same of each change of a file at each place.
fn expect_answers(
    alloc: Global,
    whole: &MemoryHost,
    shelf: &mut MemoryShelf,
    file: FileId,
) -> Result<(), Miss> {
    for (place, byte) in whole.file(file).iter().enumerate() {
        for damage in damages_at(place, *byte) {
            expect_answer(alloc, whole, shelf, file, damage)?;
        }
    }
    Ok(())
}

/// A board with an offer, a reply and the record of a packet.
const BOARD: &str = r#"
* board B
* put text Thanks\n
> import 0 two
imported 2 into 0
> export "Ann Lee" 10 out
packet 1: 2 messages
> reply out 1 text R.MSG
replied to 1, 1 in R.MSG
> upload "Ann Lee" R.MSG
1 posted 0 3
posted 1 refused 0
"#;

/// The same of each file of the board.
fn expect_all(alloc: Global, stage: &mut Stage) -> Result<(), Miss> {
    let files = [
        FileId::jhr(0),
        FileId::jdt(0),
        FileId::jdx(0),
        FileId::jlr(0),
        FileId::ledger(),
    ];
    for file in files {
        expect_answers(alloc, &stage.host, &mut stage.shelf, file)?;
    }
    Ok(())
}

#[test]
fn a_changed_board_is_another_one_or_damaged(rt: HostRuntime) -> Result<(), Miss> {
    let mut stage = played(rt.alloc(), BOARD)?;
    expect_all(rt.alloc(), &mut stage)
}

/// What is left on the disk of an import that is stopped at a call, and how it ends.
fn image_at(
    alloc: Global,
    start: &MemoryHost,
    shelf: &mut MemoryShelf,
    call: u32,
) -> Result<(MemoryHost, Status), Miss> {
    let plan = stops_at(alloc, Some(call));
    let (host, ended) = run_next(alloc, start, plan, shelf, "import 0 one")?;
    let image = host.after_crash(alloc, ImageChoice::Written, no_faults(alloc))?;
    Ok((image, ended))
}

/// The board with an import under way: its journal is open, and no other file is changed.
fn open_journal(
    alloc: Global,
    start: &MemoryHost,
    shelf: &mut MemoryShelf,
) -> Result<MemoryHost, Miss> {
    for call in 1..2000 {
        let (image, ended) = image_at(alloc, start, shelf, call)?;
        if image.file(FileId::journal()).first() == Some(&b'O') {
            return Ok(image);
        }
        if ended == Status::Done {
            return Err(Miss::Broken("the journal is never open"));
        }
    }
    Err(Miss::Broken("the import doesn't end"))
}

/// Looks at what `check` says of each change of an open journal.
fn expect_journal(alloc: Global, stage: &mut Stage) -> Result<(), Miss> {
    let open = open_journal(alloc, &stage.host, &mut stage.shelf)?;
    expect_answers(alloc, &open, &mut stage.shelf, FileId::journal())
}

#[test]
fn a_changed_journal_is_carried_out_or_closed(rt: HostRuntime) -> Result<(), Miss> {
    let mut stage = played(rt.alloc(), BOARD)?;
    expect_journal(rt.alloc(), &mut stage)
}
