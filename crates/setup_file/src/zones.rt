ghost use Rattle.std.specs.Prelude.{◌≡◌, ◌&&◌};
ghost use Rattle.std.specs.List.{list_all};
ghost use Rattle.setup_file.specs.Zones.{is_zone as zone_test, are_zones as zones_test};
ghost use Rattle.setup_file.specs.Rising.{are_rising as rising_test, rise_above as rise_above_test};

use jam_records::List;

/// The zones of a board, 0 to 16 numbers from 1 to 32,767, each above the one before.
pub type Zones = List<u16>;

/// Whether each number is from 1 to 32,767.
fn are_in_range(zones: &[u16]) -> bool
    ensures { result ≡ list_all zone_test zones.now }
{
    zones.iter().all(|zone| 1 <= *zone && *zone <= 32_767)
}

/// Whether each number is above the one before, and the first above this one.
fn rise_above(low: u16, numbers: &[u16]) -> bool
    ensures { result ≡ rise_above_test low numbers.now }
{
    let mut last = low;
    let mut rest = numbers;
    while let [number, more @ ..] = rest {
        if *number <= last {
            return false;
        }
        last = *number;
        rest = more;
    }
    true
}

/// Whether each number is above the one before.
fn are_rising(numbers: &[u16]) -> bool
    ensures { result ≡ rising_test numbers.now }
{
    match numbers {
        [] => true,
        [first, rest @ ..] => rise_above(*first, rest),
    }
}

/// Whether the numbers are zones of a board: 0 to 16 numbers from 1 to 32,767, each above the one before.
#[tactic(auto, unfolding(crate::specs::Zones::are_zones))]
pub fn are_zones(zones: &[u16]) -> bool
    ensures { result ≡ zones_test zones.now }
{
    let right = are_in_range(zones);
    let rising = are_rising(zones);
    zones.len() <= 16 && right && rising
}
