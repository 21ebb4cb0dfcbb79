//! Dates, against the library that knows the calendar.
ghost use Rattle.std.specs.Prelude.{◌≡◌, ◌<◌, pos};
ghost use Rattle.std.specs.Int.{IsInRange};
ghost use Rattle.jiff.specs.Words.{civil_seconds, IsBetween};
ghost use Rattle.qwk_moments.specs.Moments.{date_at, minute_start};

use jiff::Timestamp;
use jiff::civil::DateTime;
use jiff::tz::Offset;

/// A date as a field writes it. The calendar need not have it.
#[derive(Clone, Copy)]
pub struct CivilDate {
    /// With its century.
    pub year: u16,
    /// From 1 for January.
    pub month: u8,
    /// In its month, from 1.
    pub day: u8,
}

/// The date of a moment in seconds since 1970, in UTC.
pub fn date_of_moment(seconds: u32) -> CivilDate
    ensures date { result ≡ date_at seconds }
    ensures years { result.year < 10_000 }
    ensures months { result.month < 100 }
    ensures days { result.day < 100 }
{
    let moment = Timestamp::from_second(i64::from(seconds)).unwrap();
    let date = Offset::UTC.to_datetime(moment).date();
    CivilDate {
        year: date.year().unsigned_abs(),
        month: date.month().unsigned_abs(),
        day: date.day().unsigned_abs(),
    }
}

/// The moment at which the minute begins, in seconds since 1970, in UTC. None where the calendar or a
/// clock doesn't have it.
pub fn start_of_minute(date: CivilDate, hour: u8, minute: u8) -> Option<u32>
    requires years { IsInRange 1970 2069 date.year }
    requires months { date.month < 100 }
    requires days { date.day < 100 }
    requires hours { hour < 100 }
    requires minutes { minute < 100 }
    ensures { result ≡ minute_start date hour minute }
{
    let civil = DateTime::new(
        date.year as i16,
        date.month as i8,
        date.day as i8,
        hour as i8,
        minute as i8,
        0,
        0,
    )
    .ok()?;
    Some(seconds_at(civil))
}

/// Seconds since 1970 at which a clock in UTC shows the date and time.
fn seconds_at(civil: DateTime) -> u32
    requires { IsBetween (pos 1970) (pos 2069) civil.date.year }
    ensures { pos result ≡ civil_seconds civil }
{
    let moment = Offset::UTC.to_timestamp(civil).unwrap();
    moment.as_second() as u32
}
