//! What a run finds at its start: the moment, the paths of its files, and how its folders lie to each other.
use folder_hosts::{Placement, data_path, unix_seconds};
use std::alloc::{AllocError, Global};
use std::fs;
use std::io::{self, ErrorKind};
use std::os::unix::fs::symlink;
use std::rt::Clock;
use std::test::Fail;
use std::time::Duration;

/// A clock that stands, or can't be read.
#[derive(Drop)]
struct Standing {
    seconds: Option<u64>,
}

impl Clock for Standing {
    fn monotonic(&self) -> io::Result<Duration> {
        self.since_1970()
    }

    fn since_1970(&self) -> io::Result<Duration> {
        match self.seconds {
            Some(seconds) => Ok(Duration::from_secs(seconds)),
            None => Err(io::ErrorKind::Unsupported.into()),
        }
    }
}

/// The moment that such a clock gives.
fn moment(seconds: Option<u64>) -> u32 {
    unix_seconds(&Standing { seconds })
}

#[test]
fn a_moment_has_32_bits(rt: HostRuntime) {
    let unread = moment(None) == 0;
    let last = moment(Some(4_294_967_295)) == 4_294_967_295;
    let later = moment(Some(4_294_967_296)) == 4_294_967_295;
    let others = moment(Some(0)) == 0 && moment(Some(1_000_000_000)) == 1_000_000_000;
    assert!(rt; unread && last && later && others);
}

/// Whether the files of some numbers have these paths.
fn are_paths(alloc: Global) -> Result<bool, AllocError> {
    let paths = [
        (0, "board/LEDGER.DAT"),
        (1, "board/JOURNAL.DAT"),
        (2, "board/C00.JHR"),
        (3, "board/C00.JDT"),
        (4, "board/C00.JDX"),
        (5, "board/C00.JLR"),
        (6, "board/C01.JHR"),
        (257, "board/C63.JLR"),
    ];
    for (number, path) in paths {
        let found = data_path(alloc, "board", number)?;
        if found.as_str() != path {
            return Ok(false);
        }
    }
    Ok(true)
}

#[test]
fn files_have_their_names(rt: HostRuntime) -> Result<(), Fail> {
    assert!(rt; are_paths(rt.alloc())?);
    Ok(())
}

/// Makes a folder `top` with the folder `there/in`, the file `file`, and the link `link` to `there`.
fn make_places(rt: &HostRuntime, top: &str) -> Result<(), Fail> {
    let _ = fs::remove_dir_all(rt, top);
    fs::create_dir_all(rt, "qwkdoor_test_places/there/in")?;
    fs::write(rt, "qwkdoor_test_places/file", b"")?;
    symlink(rt, "there", "qwkdoor_test_places/link")?;
    Ok(())
}

/// A DATA, a SHELF, and how they lie to each other.
const PLACES: [(&str, &str, Placement); 22] = [
    // neither is there
    ("none/a", "none/a", Placement::Shared),
    ("none/a", "none/a/b", Placement::Shared),
    ("none/a/b/", "./none/a", Placement::Shared),
    ("none/a", "none/ab", Placement::Apart),
    ("none/a", "none/b", Placement::Apart),
    // one letter, and names that begin with a dot
    ("b", ".", Placement::Shared),
    (".", "b", Placement::Shared),
    ("b", "b/", Placement::Shared),
    ("b", "c", Placement::Apart),
    ("b", "..", Placement::Shared),
    (".b", "b", Placement::Apart),
    (".b", ".b/x", Placement::Shared),
    ("/none-b", "/", Placement::Shared),
    ("/none-b", "/none-b/c", Placement::Shared),
    ("/none-b", "/none-c", Placement::Apart),
    // through a symbolic link, both ways
    (
        "qwkdoor_test_places/there",
        "qwkdoor_test_places/link",
        Placement::Shared,
    ),
    (
        "qwkdoor_test_places/link/new",
        "qwkdoor_test_places/there",
        Placement::Shared,
    ),
    (
        "qwkdoor_test_places/link",
        "qwkdoor_test_places/there/new",
        Placement::Shared,
    ),
    (
        "qwkdoor_test_places/there/in",
        "qwkdoor_test_places/link/new",
        Placement::Apart,
    ),
    (
        "qwkdoor_test_places/there/../there",
        "qwkdoor_test_places/link",
        Placement::Shared,
    ),
    // what can't be told
    ("b", "none/../b", Placement::Unknown(ErrorKind::NotFound)),
    (
        "qwkdoor_test_places/file/a",
        "b",
        Placement::Unknown(ErrorKind::NotADirectory),
    ),
];

/// Looks how each DATA and SHELF lie to each other.
fn expect_places(rt: &HostRuntime) -> Result<(), Fail> {
    for (data, shelf, placement) in PLACES {
        if Placement::of(rt, data, shelf)? != placement {
            return Err(Fail::from(data));
        }
    }
    Ok(())
}

#[test]
fn folders_lie_apart_or_share_files(rt: HostRuntime) -> Result<(), Fail> {
    let top = "qwkdoor_test_places";
    make_places(&rt, top)?;
    expect_places(&rt)?;
    fs::remove_dir_all(&rt, top)?;
    Ok(())
}
