//! Moments, read.
ghost use Rattle.std.specs.Prelude.{◌≡◌, ◌<◌, IfSome};
ghost use Rattle.std.specs.Int.{IsInRange};
ghost use Rattle.qwk_moments.specs.Moments.{full_year, moment_of, read_date, read_time};

use crate::civil_date::{CivilDate, start_of_minute};
use crate::digits::number_of_two;

/// The moment that a date field and a time field read as, in seconds since 1970, in UTC. The date is
/// `mm-dd-yy`, or has `/` in place of both `-`, in a year from 1970 to 2069. The time is `hh:mm`. None where
/// one of the two doesn't read.
pub fn read_moment(date: &[u8; 8], time: &[u8; 5]) -> Option<u32>
    ensures { result ≡ moment_of date.now time.now }
{
    let day = date_in(date)?;
    let (hour, minute) = time_in(time)?;
    start_of_minute(day, hour, minute)
}

/// The date of a date field. The calendar need not have it.
fn date_in(field: &[u8; 8]) -> Option<CivilDate>
    ensures value { result ≡ read_date field.now }
    ensures years { IfSome result (λ day. IsInRange 1970 2069 day.year) }
    ensures months { IfSome result (λ day. day.month < 100) }
    ensures days { IfSome result (λ day. day.day < 100) }
{
    let [m1, m2, separator, d1, d2, repeated, y1, y2] = *field;
    let month = number_of_two(m1, m2)?;
    let day = number_of_two(d1, d2)?;
    let year = number_of_two(y1, y2)?;
    if matches!(separator, b'-' | b'/') && repeated == separator {
        Some(CivilDate {
            year: with_century(year),
            month,
            day,
        })
    } else {
        None
    }
}

/// Hour and minute of a time field. A clock need not have them.
fn time_in(field: &[u8; 5]) -> Option<(u8, u8)>
    ensures value { result ≡ read_time field.now }
    ensures hours { IfSome result (λ clock. clock.0 < 100) }
    ensures minutes { IfSome result (λ clock. clock.1 < 100) }
{
    let [h1, h2, colon, m1, m2] = *field;
    let hour = number_of_two(h1, h2)?;
    let minute = number_of_two(m1, m2)?;
    if colon == b':' {
        Some((hour, minute))
    } else {
        None
    }
}

/// The year of its last two digits.
fn with_century(year: u8) -> u16
    requires { year < 100 }
    ensures value { result ≡ full_year year }
    ensures window { IsInRange 1970 2069 result }
{
    if year < 70 {
        2000 + u16::from(year)
    } else {
        1900 + u16::from(year)
    }
}
