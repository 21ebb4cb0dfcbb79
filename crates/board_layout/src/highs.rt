// The highs of the users' open offers.
ghost use Rattle.std.specs.Prelude.{◌≡◌, ◌≤◌, ◌+◌, length};
ghost use Rattle.board_ledger.specs.Limits.{user_limit};
ghost use Rattle.board_layout.specs.Board.{conferences_in};
ghost use Rattle.board_layout.specs.Damage.{highs_of};
ghost use Rattle.board_layout.specs.Valid.{highs_fit as are_within, offers_fit as all_within};

use crate::damaged::damage;
use board_ledger::{OpenOffer, User};
use door_outside::FileId;
use jam_base::Base;
use jam_records::{Damage, DamageRule};

/// Whether each high, by place, is at most the count of slots of its conference. It takes no memory.
pub fn highs_fit(bases: &[Base], highs: &[u32]) -> bool
    ensures { result ≡ are_within (conferences_in bases.now) highs.now }
{
    for (base, high) in bases.iter().zip(highs) {
        if *high > base.slot_count() {
            return false;
        }
    }
    true
}

/// Whether each high of these offers, by place, is at most the count of slots of its conference. It takes no memory.
pub fn offers_fit(bases: &[Base], offers: &[OpenOffer]) -> bool
    ensures { result ≡ all_within (conferences_in bases.now) offers.now }
{
    for offer in offers {
        if !highs_fit(bases, offer.highs.as_slice()) {
            return false;
        }
    }
    true
}

/// Tests the highs of users, of whom the first has this record of the ledger.
pub(crate) fn check_highs(bases: &[Base], first: u32, users: &[User]) -> Result<(), Damage>
    requires first { first ≤ 65 }
    requires few { length users.now ≤ user_limit }
    ensures { result ≡ highs_of (conferences_in bases.now) first users.now }
{
    for (i, user) in users.iter().enumerate() {
        if !offers_fit(bases, user.offers.as_slice()) {
            return Err(damage(FileId::ledger(), first + i as u32, DamageRule::High));
        }
    }
    Ok(())
}
