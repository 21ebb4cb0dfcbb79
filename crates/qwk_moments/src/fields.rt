//! Moments, written.
ghost use Rattle.std.specs.Prelude.{◌≡◌};
ghost use Rattle.qwk_moments.specs.Moments.{date_text, stamp_text, time_text};

use crate::civil_date::date_of_moment;
use crate::digits::in_two_digits;

/// The date field of a moment in seconds since 1970, in UTC: `mm-dd-yy`. Years from 2070 to 2106 lose
/// their century, and read back as others.
pub fn date_field(seconds: u32) -> [u8; 8]
    ensures { result ≡ date_text seconds }
{
    let date = date_of_moment(seconds);
    let month = in_two_digits(date.month);
    let day = in_two_digits(date.day);
    let year = in_two_digits((date.year % 100) as u8);
    [
        month[0], month[1], b'-', day[0], day[1], b'-', year[0], year[1],
    ]
}

/// The time field of a moment in seconds since 1970, in UTC: `hh:mm`.
pub fn time_field(seconds: u32) -> [u8; 5]
    ensures { result ≡ time_text seconds }
{
    let hour = in_two_digits((seconds / 3600 % 24) as u8);
    let minute = in_two_digits((seconds / 60 % 60) as u8);
    [hour[0], hour[1], b':', minute[0], minute[1]]
}

/// When a packet was made, as CONTROL.DAT has it: `mm-dd-yyyy,hh:mm:ss` of a moment in seconds since
/// 1970, in UTC.
pub fn stamp(seconds: u32) -> [u8; 19]
    ensures { result ≡ stamp_text seconds }
{
    let date = date_of_moment(seconds);
    let month = in_two_digits(date.month);
    let day = in_two_digits(date.day);
    let century = in_two_digits((date.year / 100) as u8);
    let year = in_two_digits((date.year % 100) as u8);
    let time = time_field(seconds);
    let second = in_two_digits((seconds % 60) as u8);
    [
        month[0], month[1], b'-', day[0], day[1], b'-', century[0], century[1], year[0], year[1],
        b',', time[0], time[1], time[2], time[3], time[4], b':', second[0], second[1],
    ]
}
