ghost use Rattle.std.specs.Prelude.{◌≡◌, ◌≢◌, ◌↔◌, ◌<◌, ◌^◌, ℕ, List, [], ◌∷◌, ◌++◌, All, IsTrue, IfSome, IsSomeAnd, decimal};
ghost use Rattle.jam_records.specs.Addresses.{IsDigit, IsPart, NoDigitFirst, NumberFirst, IsNode, IsAddress};

use itoa::Buffer;
use std::str;

/// The digits at the front, and what follows them.
fn digits_first(text: &[u8]) -> (&[u8], &[u8])
    ensures whole { text.now ≡ result.0.now ++ result.1.now }
    ensures digits { All IsDigit result.0.now }
    ensures ends { NoDigitFirst result.1.now }
{
    let mut len = 0;
    while len < text.len() && text[len].is_ascii_digit() {
        len += 1;
    }
    text.split_at(len)
}

/// The number that is written so, where there is one of 16 bits.
fn parsed(digits: &[u8]) -> Option<u16>
    ensures { (n : ℕ) → n < 2 ^ 16 → digits.now ≡ decimal n → result ≡ Some n }
{
    let Ok(text) = str::from_utf8(digits) else {
        return None;
    };
    text.parse::<u16>().ok()
}

/// The number of at most 32,767 that is written just so, without leading zeros.
fn value_of(digits: &[u8]) -> Option<u16>
    ensures some { IfSome result (λ n. IsPart n × (digits.now ≡ decimal n)) }
    ensures only { (n : ℕ) → IsPart n → digits.now ≡ decimal n → result ≡ Some n }
{
    let value = parsed(digits)?;
    let mut buffer = Buffer::new();
    if value > 32767 || buffer.format(value).as_bytes() != digits {
        return None;
    }
    Some(value)
}

/// The number at the front, and what follows it.
fn number(text: &[u8]) -> Option<(u16, &[u8])>
    ensures some { IfSome result (λ found. NumberFirst text.now found.0 found.1.now) }
    ensures only { (n : ℕ) (rest : List ℕ) → NumberFirst text.now n rest → IsSomeAnd result (λ found. (found.0 ≡ n) × (found.1.now ≡ rest)) }
{
    let (digits, rest) = digits_first(text);
    let Some(value) = value_of(digits) else {
        return None;
    };
    Some((value, rest))
}

/// What follows a number and this mark.
fn past(text: &[u8], mark: u8) -> Option<&[u8]>
    ensures some { IfSome result (λ behind. (n : ℕ) × NumberFirst text.now n (mark ∷ behind.now)) }
    ensures only { (n : ℕ) (rest : List ℕ) → NumberFirst text.now n (mark ∷ rest) → IsSomeAnd result (λ behind. behind.now ≡ rest) }
{
    match number(text)? {
        (_, [first, behind @ ..]) if *first == mark => Some(behind),
        _ => None,
    }
}

/// Whether the text is a point that isn't 0.
fn is_point(text: &[u8]) -> bool
    ensures { IsTrue result ↔ ((point : ℕ) × NumberFirst text.now point [] × (point ≢ 0)) }
{
    match number(text) {
        Some((point, [])) => point != 0,
        _ => false,
    }
}

/// Whether the text is a node, or a node and a point.
fn is_node(text: &[u8]) -> bool
    ensures { IsTrue result ↔ IsNode text.now }
{
    match number(text) {
        Some((_, [])) => true,
        Some((_, [b'.', point @ ..])) => is_point(point),
        _ => false,
    }
}

/// Whether the text is an address as it is stored: `zone:net/node` or `zone:net/node.point`, each number
/// at most 32,767 and without leading zeros, and no point of 0. It takes no memory.
pub fn address_text(text: &[u8]) -> bool
    ensures { IsTrue result ↔ IsAddress text.now }
{
    match past(text, b':').and_then(|net| past(net, b'/')) {
        Some(node) => is_node(node),
        None => false,
    }
}
