//! The damages of a file that a reader is held to.
use test_runs::Damage;

/// The file is cut at a place, or the byte there becomes 00h, FFh or one of its neighbours.
pub fn damages_at(place: usize, byte: u8) -> [Damage; 5] {
    [
        Damage::Cut(place),
        Damage::Becomes(place, 0),
        Damage::Becomes(place, 0xFF),
        Damage::Becomes(place, byte.wrapping_sub(1)),
        Damage::Becomes(place, byte.wrapping_add(1)),
    ]
}
