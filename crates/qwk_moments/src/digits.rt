//! Numbers of two decimal digits.
ghost use Rattle.std.specs.Prelude.{◌≡◌, ◌<◌, IfSome};
ghost use Rattle.qwk_moments.specs.Moments.{two_digit_number, two_digits};

/// A number below 100 in two digits.
pub fn in_two_digits(number: u8) -> [u8; 2]
    requires { number < 100 }
    ensures { result ≡ two_digits number }
{
    [b'0' + number / 10, b'0' + number % 10]
}

/// The number of two digits; None where one of the bytes is no digit.
pub fn number_of_two(tens: u8, units: u8) -> Option<u8>
    ensures value { result ≡ two_digit_number tens units }
    ensures short { IfSome result (λ number. number < 100) }
{
    if tens.is_ascii_digit() && units.is_ascii_digit() {
        Some((tens - b'0') * 10 + (units - b'0'))
    } else {
        None
    }
}
