ghost use Rattle.std.specs.Prelude.{◌≡◌, ◌≤◌, ◌<◌, [], ◌∷◌, length, not, IfOk, MatchOption};
ghost use Rattle.damage_rules.specs.Rules.{first_broken, by_rules};
ghost use Rattle.setup_file.specs.Texts.{is_bbsid as is_bbsid_text};
ghost use Rattle.setup_file.specs.Zones.{are_zones as are_zone_numbers};
ghost use Rattle.jam_records.specs.record_numbers.Numbers.{u16_at as u16_in};
ghost use Rattle.board_ledger.specs.Limits.{upload_limit, user_limit};
ghost use Rattle.board_ledger.specs.Rules.{LedgerGives};
ghost use Rattle.open_offers.specs.Versions.{wrong_version as version_wrong};
ghost use Rattle.board_ledger.specs.Opening.{places_of as places_in, setup_of as setup_in, opening_at as opening_read, wrong_counts as counts_wrong, wrong_texts as texts_wrong, fixed_rules, setup_rules};

use crate::damaged::damaged;
use crate::error::LedgerError;
use crate::ledger::{UPLOAD_LIMIT, USER_LIMIT};
use jam_records::{Bytes, DamageRule, u16_at, u32_at};
use open_offers::{Version, text_at, text_end, u16s_at};
use setup_file::{Conferences, SetupFields, are_zones, is_bbsid, is_board_text, is_user_name};
use std::alloc::{AllocError, Global};

/// The length in bytes of what stands before the texts.
const FIXED: usize = 24;

/// Where the texts behind the first, the zones and the end of record 0 are.
#[derive(Clone, Copy)]
pub(crate) struct Places {
    pub(crate) city: usize,
    pub(crate) phone: usize,
    pub(crate) sysop: usize,
    pub(crate) bbsid: usize,
    pub(crate) zones: usize,
    pub(crate) end: usize,
}

/// Record 0: the version, the fields of the setup without its conferences, the counts of the other records, and its length.
#[derive(Drop)]
pub(crate) struct Opening {
    pub(crate) version: Version,
    pub(crate) setup: SetupFields,
    pub(crate) created: u32,
    pub(crate) conferences: u16,
    pub(crate) users: u16,
    pub(crate) uploads: u32,
    pub(crate) size: usize,
}

/// The places in record 0, or None where it passes the end.
#[tactic(auto, unfolding(crate::specs::Opening::places_of, open_offers::specs::Texts::text_end))]
fn places_of(bytes: &[u8]) -> Option<Places>
    requires { 24 ≤ length bytes.now }
    ensures { MatchOption result (length bytes.now < (places_in bytes.now).end) (λ places. (places ≡ places_in bytes.now) × (places.end ≤ length bytes.now)) }
{
    let city = text_end(bytes, FIXED)?;
    let phone = text_end(bytes, city)?;
    let sysop = text_end(bytes, phone)?;
    let bbsid = text_end(bytes, sysop)?;
    let zones = text_end(bytes, bbsid)?;
    let end = zones + 2 * usize::from(u16_at(bytes, 10));
    if bytes.len() < end {
        return None;
    }
    Some(Places {
        city,
        phone,
        sysop,
        bbsid,
        zones,
        end,
    })
}

/// The fields of the setup in record 0, without its conferences.
#[tactic(auto, unfolding(crate::specs::Opening::setup_of))]
fn setup_of(alloc: Global, places: &Places, bytes: &[u8]) -> Result<SetupFields, AllocError>
    requires places { places.now ≡ places_in bytes.now }
    requires fixed { 24 ≤ length bytes.now }
    requires whole { places.now.end ≤ length bytes.now }
    ensures { IfOk result (λ setup. setup ≡ setup_in bytes.now) }
{
    let count = usize::from(u16_at(bytes, 10));
    Ok(SetupFields {
        board: Bytes::from_slice(alloc, text_at(bytes, FIXED))?,
        city: Bytes::from_slice(alloc, text_at(bytes, places.city))?,
        phone: Bytes::from_slice(alloc, text_at(bytes, places.phone))?,
        sysop: Bytes::from_slice(alloc, text_at(bytes, places.sysop))?,
        bbsid: Bytes::from_slice(alloc, text_at(bytes, places.bbsid))?,
        serial: u32_at(bytes, 20),
        zones: u16s_at(alloc, bytes, places.zones, count)?,
        conferences: Conferences::new(alloc),
    })
}

/// Whether the version is neither 1 nor 2.
fn wrong_version(bytes: &[u8]) -> bool
    requires { 24 ≤ length bytes.now }
    ensures { result ≡ version_wrong (u16_in 4 bytes.now) }
{
    let version = u16_at(bytes, 4);
    !(version == 1 || version == 2)
}

/// Whether a count is out of its range.
#[tactic(auto, unfolding(crate::specs::Opening::wrong_counts))]
fn wrong_counts(bytes: &[u8]) -> bool
    requires { 24 ≤ length bytes.now }
    ensures { result ≡ counts_wrong bytes.now }
{
    let conferences = u16_at(bytes, 6);
    ((conferences == 0 || conferences > 64) || u16_at(bytes, 8) as usize > USER_LIMIT)
        || (u16_at(bytes, 10) > 16 || u32_at(bytes, 12) as usize > UPLOAD_LIMIT)
}

/// Whether board, city or phone breaks its rule, or the sysop is no user name.
#[tactic(auto, unfolding(crate::specs::Opening::wrong_texts))]
fn wrong_texts(setup: &SetupFields) -> bool
    ensures { result ≡ texts_wrong setup.now }
{
    let board = is_board_text(setup.board.as_slice());
    let city = is_board_text(setup.city.as_slice());
    let phone = is_board_text(setup.phone.as_slice());
    let sysop = is_user_name(setup.sysop.as_slice());
    !(board && (city && (phone && sysop)))
}

/// The first rule that the first 24 bytes break.
#[tactic(auto, unfolding(crate::specs::Opening::fixed_rules))]
fn broken_fixed(bytes: &[u8]) -> Option<DamageRule>
    ensures rule { result ≡ first_broken (fixed_rules bytes.now) }
    ensures long { MatchOption result (24 ≤ length bytes.now) (λ _. Unit {0}) }
{
    if bytes.len() < FIXED {
        return Some(DamageRule::Short);
    }
    if &bytes[..4] != b"QMDL".as_slice() {
        return Some(DamageRule::Magic);
    }
    if wrong_version(bytes) {
        return Some(DamageRule::Version);
    }
    if wrong_counts(bytes) {
        return Some(DamageRule::Count);
    }
    if u32_at(bytes, 20) > 99_999 {
        return Some(DamageRule::Number);
    }
    None
}

/// The first rule that the setup in record 0 breaks.
fn broken_setup(setup: &SetupFields) -> Option<DamageRule>
    ensures { result ≡ first_broken ((DamageRule.Text, texts_wrong setup.now) ∷ (DamageRule.Id, not (is_bbsid_text setup.now.bbsid)) ∷ (DamageRule.Zones, not (are_zone_numbers setup.now.zones)) ∷ []) }
{
    if wrong_texts(setup) {
        return Some(DamageRule::Text);
    }
    if !is_bbsid(setup.bbsid.as_slice()) {
        return Some(DamageRule::Id);
    }
    if !are_zones(setup.zones.as_slice()) {
        return Some(DamageRule::Zones);
    }
    None
}

/// The setup behind the first 24 bytes and the length of record 0, or the first rule that they break.
#[tactic(auto, unfolding(crate::specs::Opening::setup_rules))]
fn setup_behind(alloc: Global, bytes: &[u8]) -> Result<(SetupFields, usize), LedgerError>
    requires { 24 ≤ length bytes.now }
    ensures gives { LedgerGives (λ x. x) result (by_rules 0 0 (setup_rules bytes.now (setup_in bytes.now)) (setup_in bytes.now, (places_in bytes.now).end)) }
    ensures size { IfOk result (λ x. x.1 ≤ length bytes.now) }
{
    let Some(places) = places_of(bytes) else {
        return Err(damaged(0, DamageRule::Short));
    };
    let setup = setup_of(alloc, &places, bytes)?;
    match broken_setup(&setup) {
        Some(rule) => Err(damaged(0, rule)),
        None => Ok((setup, places.end)),
    }
}

/// Record 0, or the first rule that it breaks.
pub(crate) fn opening_of(alloc: Global, bytes: &[u8]) -> Result<Opening, LedgerError>
    ensures gives { LedgerGives (λ x. x) result (opening_read bytes.now) }
    ensures size { IfOk result (λ opening. opening.size ≤ length bytes.now) }
    ensures counts { IfOk result (λ opening. (opening.conferences ≤ 64) × (opening.users ≤ user_limit) × (opening.uploads ≤ upload_limit)) }
{
    if let Some(rule) = broken_fixed(bytes) {
        return Err(damaged(0, rule));
    }
    let (setup, size) = setup_behind(alloc, bytes)?;
    Ok(Opening {
        version: Version::of_number(u16_at(bytes, 4)),
        setup,
        created: u32_at(bytes, 16),
        conferences: u16_at(bytes, 6),
        users: u16_at(bytes, 8),
        uploads: u32_at(bytes, 12),
        size,
    })
}
