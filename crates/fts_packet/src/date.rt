//! Dates of packed messages. The calendar is that of QWK's fields.
ghost use Rattle.std.specs.Prelude.{◌≡◌, ◌<◌, IfSome};
ghost use Rattle.fts_packet.specs.Date.{has_spaces as has_spaces_of, has_colons as has_colons_of, month_digits as month_digits_of, digit_or_space as digit_of, date_field as date_field_of, time_field as time_field_of, second_of as second_in, moment_in as moment_between, moment_of_date};

use qwk_moments::{number_of_two, read_moment};

/// Whether the spaces of a date are where they must be.
fn has_spaces(date: &[u8; 20]) -> bool
    ensures { result ≡ has_spaces_of date.now }
{
    date[2] == b' ' && date[6] == b' ' && date[9] == b' ' && date[10] == b' '
}

/// Whether the colons of its time and the NUL at its end are.
fn has_colons(date: &[u8; 20]) -> bool
    ensures { result ≡ has_colons_of date.now }
{
    date[13] == b':' && date[16] == b':' && date[19] == 0
}

/// The number of a month, in two digits, by its English name.
#[tactic(auto, unfolding(crate::specs::Date::month_digits))]
fn month_digits(name: &[u8]) -> Option<[u8; 2]>
    ensures { result ≡ month_digits_of name.now }
{
    match name {
        b"Jan" => Some([b'0', b'1']),
        b"Feb" => Some([b'0', b'2']),
        b"Mar" => Some([b'0', b'3']),
        b"Apr" => Some([b'0', b'4']),
        b"May" => Some([b'0', b'5']),
        b"Jun" => Some([b'0', b'6']),
        b"Jul" => Some([b'0', b'7']),
        b"Aug" => Some([b'0', b'8']),
        b"Sep" => Some([b'0', b'9']),
        b"Oct" => Some([b'1', b'0']),
        b"Nov" => Some([b'1', b'1']),
        b"Dec" => Some([b'1', b'2']),
        _ => None,
    }
}

/// A digit, or the zero that a space stands for.
fn digit_or_space(byte: u8) -> u8
    ensures { result ≡ digit_of byte }
{
    if byte == b' ' { b'0' } else { byte }
}

/// The day, month and year as a date field of QWK, with the month in two digits.
fn date_field(month: [u8; 2], date: &[u8; 20]) -> [u8; 8]
    ensures { result ≡ date_field_of month date.now }
{
    [
        month[0],
        month[1],
        b'-',
        digit_or_space(date[0]),
        date[1],
        b'-',
        date[7],
        date[8],
    ]
}

/// The hour and minute as a time field of QWK.
fn time_field(date: &[u8; 20]) -> [u8; 5]
    ensures { result ≡ time_field_of date.now }
{
    [date[11], date[12], b':', date[14], date[15]]
}

/// The second, or None where it isn't two digits of a number below 60.
fn second_of(date: &[u8; 20]) -> Option<u8>
    ensures value { result ≡ second_in date.now }
    ensures small { IfSome result (λ second. second < 60) }
{
    let second = number_of_two(date[17], date[18])?;
    if second < 60 { Some(second) } else { None }
}

/// The moment of a date whose spaces and colons are where they must be.
fn moment_in(date: &[u8; 20]) -> Option<u32>
    ensures { result ≡ moment_between date.now }
{
    let month = month_digits(&date[3..6])?;
    let minute = read_moment(&date_field(month, date), &time_field(date))?;
    let second = second_of(date)?;
    Some(minute + u32::from(second))
}

/// The moment that the date of a packed message reads as, in seconds since 1970, in UTC. The date is
/// `dd Mmm yy hh:mm:ss` and NUL, with two spaces before the hour, an English name of the month, and a space
/// or a digit at the front. Years 70 to 99 are 19xx, and 00 to 69 are 20xx. None where it doesn't read.
#[tactic(auto, unfolding(crate::specs::Date::moment_of_date))]
pub fn read_date(date: &[u8; 20]) -> Option<u32>
    ensures { result ≡ moment_of_date date.now }
{
    if has_spaces(date) && has_colons(date) {
        moment_in(date)
    } else {
        None
    }
}
