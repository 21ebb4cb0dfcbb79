//! Moments in the fields of messages, by seconds since 1970.
use super::messages::{date_of, time_of};
use byte_lists::Bytes;
use qwk_moments::{date_field, read_moment, stamp, time_field};
use std::alloc::Global;
use test_cases::{Miss, expect_cases, number_of};

/// The moment of a date and a time.
fn read(alloc: Global, words: &[Bytes]) -> Result<String, Miss> {
    let [date, time] = words else {
        return Err(Miss::Words);
    };
    let (date, time) = (date_of(date)?, time_of(time)?);
    Ok(format!(in alloc; "{:?}", read_moment(&date, &time))?)
}

/// The seconds of a case.
fn seconds_of(words: &[Bytes]) -> Result<u32, Miss> {
    match words {
        [seconds] => number_of(seconds.as_slice()),
        _ => Err(Miss::Words),
    }
}

/// The date and the time of a moment.
fn write(alloc: Global, words: &[Bytes]) -> Result<String, Miss> {
    let seconds = seconds_of(words)?;
    let (date, time) = (date_field(seconds), time_field(seconds));
    Ok(format!(in alloc; "{} {}", date.escape_ascii(), time.escape_ascii())?)
}

fn write_stamp(alloc: Global, words: &[Bytes]) -> Result<String, Miss> {
    let stamp = stamp(seconds_of(words)?);
    Ok(format!(in alloc; "{}", stamp.escape_ascii())?)
}

/// What is found of a case, which begins with what it asks.
fn found(alloc: Global, words: &[Bytes]) -> Result<String, Miss> {
    let [asked, words @ ..] = words else {
        return Err(Miss::Words);
    };
    match asked.as_slice() {
        b"read" => read(alloc, words),
        b"write" => write(alloc, words),
        b"stamp" => write_stamp(alloc, words),
        _ => Err(Miss::Words),
    }
}

const CASES: &str = r#"
# Fields that read, and others.
read 09-09-01 01:46 => Some(999999960)
read 09/09/01 01:46 => Some(999999960)
read 01-01-70 00:00 => Some(0)
read 12-31-69 23:59 => Some(3155759940)
read 02-29-00 00:00 => Some(951782400)
read 02-29-01 00:00 => None
read 00-01-01 00:00 => None
read 13-01-01 00:00 => None
read 01-00-01 00:00 => None
read 04-31-01 00:00 => None
read 09-09/01 01:46 => None
read 09/09-01 01:46 => None
read 09.09.01 01:46 => None
read 0a-09-01 01:46 => None
read " 9-09-01" 01:46 => None
read 09-09-01 24:00 => None
read 09-09-01 00:60 => None
read 09-09-01 01.46 => None
read 09-09-01 " 1:46" => None
# Fields as they are written, and the stamp.
write 0 => 01-01-70 00:00
write 1000000000 => 09-09-01 01:46
write 951868799 => 02-29-00 23:59
write 3155760000 => 01-01-70 00:00
write 4294967295 => 02-07-06 06:28
stamp 1000000000 => 09-09-2001,01:46:40
"#;

#[test]
fn moments_are_read_and_written(rt: HostRuntime) -> Result<(), Miss> {
    expect_cases(rt.alloc(), CASES, found)
}
