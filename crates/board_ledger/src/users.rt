ghost use Rattle.std.specs.Prelude.{◌≡◌, ◌≤◌, ◌<◌, ◌+◌, ◌^◌, ◌++◌, ◌||◌, ℕ, List, [], ◌∷◌, length, map, nat_lt, not, All, IfOk, OnOk, Ok, None};
ghost use Rattle.std.specs.List.{list_any};
ghost use Rattle.std.specs.Str.{bytes_eq};
ghost use Rattle.damage_rules.specs.Rules.{first_broken};
ghost use Rattle.setup_file.specs.Texts.{is_user_name as is_name};
ghost use Rattle.board_ledger.specs.Limits.{user_limit};
ghost use Rattle.board_ledger.specs.Rules.{LedgerGives};
ghost use Rattle.board_ledger.specs.Met.{is_met};
ghost use Rattle.board_ledger.specs.Records.{records_at};
ghost use Rattle.board_ledger.specs.Users.{lowered as lowered_name, right_members, right_offers, users_text, user_at};
ghost use Rattle.open_offers.specs.declared.version.Version.TheVariants.{Second};

use crate::damaged::damaged;
use crate::error::LedgerError;
use crate::met::Met;
use crate::user::{User, Users};
use jam_records::{Bytes, DamageRule};
use open_offers::{Version, text_end};
use setup_file::is_user_name;
use std::alloc::{AllocError, Global};

/// A name without regard to ASCII case.
fn lowered(alloc: Global, name: &[u8]) -> Result<Vec<u8>, AllocError>
    ensures { IfOk result (λ key. key.items ≡ lowered_name name.now) }
{
    name.iter().map(|b| b.to_ascii_lowercase()).collect(alloc)
}

/// The first rule that the user of a record breaks behind the name, where the flags are this byte.
fn broken_behind_name(
    version: Version,
    conferences: u16,
    user: &User,
    flags: u8,
) -> Option<DamageRule>
    requires conferences { conferences ≤ 64 }
    requires highs { All (λ o. length o.highs ≤ 64) user.now.offers }
    ensures { result ≡ first_broken ((DamageRule.Flags, nat_lt 1 flags) ∷ (DamageRule.Member, not (right_members conferences user.now.members)) ∷ (DamageRule.Offer, not (right_offers version user.now)) ∷ []) }
{
    if flags > 1 {
        return Some(DamageRule::Flags);
    }
    if !user.right_members(conferences) {
        return Some(DamageRule::Member);
    }
    if !user.right_offers(version) {
        return Some(DamageRule::Offer);
    }
    None
}

/// The first rule that the user of a record breaks, where the flags are this byte and the names before were met.
fn broken_user(
    alloc: Global,
    version: Version,
    conferences: u16,
    user: &User,
    flags: u8,
    names: &mut Met,
) -> Result<Option<DamageRule>, AllocError>
    requires conferences { conferences ≤ 64 }
    requires highs { All (λ o. length o.highs ≤ 64) user.now.offers }
    ensures rule { IfOk result (λ rule. rule ≡ first_broken ((DamageRule.Name, not (is_name user.now.name)) ∷ (DamageRule.Twice, is_met names.old (lowered_name user.now.name)) ∷ (DamageRule.Flags, nat_lt 1 flags) ∷ (DamageRule.Member, not (right_members conferences user.now.members)) ∷ (DamageRule.Offer, not (right_offers version user.now)) ∷ [])) }
    ensures added { result ≡ Ok None → (key : List ℕ) → is_met names.new key ≡ (bytes_eq (lowered_name user.now.name) key || is_met names.old key) }
{
    let name = user.name.as_slice();
    if !is_user_name(name) {
        return Ok(Some(DamageRule::Name));
    }
    if names.add(alloc, &lowered(alloc, name)?)? {
        return Ok(Some(DamageRule::Twice));
    }
    Ok(broken_behind_name(version, conferences, user, flags))
}

/// The user at the front, behind those before, whose names were met, and the length of the record.
#[tactic(auto, unfolding(crate::specs::Users::user_at, crate::specs::Users::user_rules, crate::specs::Users::user_end, crate::specs::Users::user_record_of))]
fn user_of(
    alloc: Global,
    version: Version,
    conferences: u16,
    before: &[User],
    names: &mut Met,
    bytes: &[u8],
) -> Result<(User, usize), LedgerError>
    requires conferences { conferences ≤ 64 }
    requires few { length before.now < user_limit }
    requires met { (key : List ℕ) → is_met names.old key ≡ list_any (λ u. bytes_eq (lowered_name u.name) key) before.now }
    ensures gives { LedgerGives (λ x. x) result (user_at version conferences before.now bytes.now) }
    ensures size { IfOk result (λ x. x.1 ≤ length bytes.now) }
    ensures added { IfOk result (λ x. (key : List ℕ) → is_met names.new key ≡ (bytes_eq (lowered_name x.0.name) key || is_met names.old key)) }
{
    let item = 1 + u32::from(conferences) + before.len() as u32;
    let Some(place) = text_end(bytes, 0) else {
        return Err(damaged(item, DamageRule::Short));
    };
    let end = place + User::size_behind_name(version, conferences);
    if bytes.len() < end {
        return Err(damaged(item, DamageRule::Short));
    }
    let user = User::read(alloc, version, conferences, place, bytes)?;
    match broken_user(alloc, version, conferences, &user, bytes[place], names)? {
        Some(rule) => Err(damaged(item, rule)),
        None => Ok((user.with_open(), end)),
    }
}

/// So many users, where there are so many conferences, and the bytes behind the last.
pub(crate) fn users_of(
    alloc: Global,
    version: Version,
    conferences: u16,
    count: u16,
    bytes: &[u8],
) -> Result<(Users, &[u8]), LedgerError>
    requires conferences { conferences ≤ 64 }
    requires count { count ≤ user_limit }
    ensures { LedgerGives (λ x. (x.0, x.1.now)) result (records_at (user_at version conferences) count [] bytes.now) }
{
    let mut users = Users::new(alloc);
    let mut names = Met::new(alloc);
    let mut rest = bytes;
    for _ in 0..count {
        let (user, size) = user_of(
            alloc,
            version,
            conferences,
            users.as_slice(),
            &mut names,
            rest,
        )?;
        users.add(user)?;
        rest = &rest[size..];
    }
    Ok((users, rest))
}

/// Adds the records of users in version 2, where there are so many conferences.
pub(crate) fn add_users(out: &mut Bytes, conferences: u16, users: &[User]) -> Result<(), AllocError>
    requires names { All (λ u. length u.name < 2 ^ 16) users.now }
    requires offers { All (λ u. length u.offers ≤ 4) users.now }
    ensures { OnOk result (out.new ≡ out.old ++ users_text Second conferences users.now) }
{
    for user in users {
        user.write(out, conferences)?;
    }
    Ok(())
}
