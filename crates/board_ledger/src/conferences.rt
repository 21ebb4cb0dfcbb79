ghost use Rattle.std.specs.Prelude.{◌≡◌, ◌≤◌, ◌<◌, ◌+◌, ◌++◌, [], length, IfOk, OnOk, All};
ghost use Rattle.std.specs.List.{flat_map};
ghost use Rattle.board_ledger.specs.Rules.{LedgerGives};
ghost use Rattle.board_ledger.specs.Records.{records_at};
ghost use Rattle.board_ledger.specs.Conferences.{kind_number as number_of_kind, rules_number as number_of_rules, kind_of_number as kind_in, conference_text, out_of_order as order_wrong, conference_at};
ghost use Rattle.setup_file.specs.Valid.{IsSetupConference};

use crate::damaged::damaged;
use crate::error::LedgerError;
use jam_records::{Bytes, DamageRule, Kind, u16_at};
use open_offers::{add_byte, add_text, add_u16, text_at, text_end};
use setup_file::{Conference, Conferences, is_conference_name};
use std::alloc::{AllocError, Global};

/// The kind of a number: 0 local, 1 echo, and else net.
fn kind_of_number(number: u8) -> Kind
    ensures { result ≡ kind_in number }
{
    match number {
        0 => Kind::Local,
        1 => Kind::Echo,
        _ => Kind::Net,
    }
}

/// The number of a kind.
fn kind_number(kind: Kind) -> u8
    ensures { result ≡ number_of_kind kind }
{
    match kind {
        Kind::Local => 0,
        Kind::Echo => 1,
        Kind::Net => 2,
    }
}

/// The number of a conference's rules: 1 for readonly and 2 for private.
fn rules_number(conference: &Conference) -> u8
    ensures { result ≡ number_of_rules conference.now }
{
    let readonly = if conference.readonly { 1 } else { 0 };
    let private = if conference.private { 2 } else { 0 };
    readonly + private
}

/// Whether a number isn't above that of the last of these.
fn out_of_order(before: &[Conference], number: u16) -> bool
    ensures { result ≡ order_wrong before.now number }
{
    match before {
        [] => false,
        [.., last] => number <= last.number,
    }
}

/// The conference at the front, behind those before, and the length of its record.
#[tactic(auto, unfolding(crate::specs::Conferences::conference_at, crate::specs::Conferences::conference_record_rules, crate::specs::Conferences::conference_fields, open_offers::specs::Texts::text_end))]
fn conference_of(
    alloc: Global,
    before: &[Conference],
    bytes: &[u8],
) -> Result<(Conference, usize), LedgerError>
    requires { length before.now < 64 }
    ensures gives { LedgerGives (λ x. x) result (conference_at before.now bytes.now) }
    ensures size { IfOk result (λ x. x.1 ≤ length bytes.now) }
{
    let item = 1 + before.len() as u32;
    if bytes.len() < 4 {
        return Err(damaged(item, DamageRule::Short));
    }
    let Some(end) = text_end(bytes, 4) else {
        return Err(damaged(item, DamageRule::Short));
    };
    let (kind, rules, name) = (bytes[2], bytes[3], text_at(bytes, 4));
    if kind > 2 {
        return Err(damaged(item, DamageRule::Kind));
    }
    if rules > 3 {
        return Err(damaged(item, DamageRule::Rules));
    }
    if !is_conference_name(name) {
        return Err(damaged(item, DamageRule::Name));
    }
    let number = u16_at(bytes, 0);
    if out_of_order(before, number) {
        return Err(damaged(item, DamageRule::Order));
    }
    let conference = Conference {
        number,
        kind: kind_of_number(kind),
        readonly: rules == 1 || rules == 3,
        private: rules == 2 || rules == 3,
        name: Bytes::from_slice(alloc, name)?,
    };
    Ok((conference, end))
}

/// So many conferences, and the bytes behind the last.
pub(crate) fn conferences_of(
    alloc: Global,
    count: u16,
    bytes: &[u8],
) -> Result<(Conferences, &[u8]), LedgerError>
    requires { count ≤ 64 }
    ensures { LedgerGives (λ x. (x.0, x.1.now)) result (records_at conference_at count [] bytes.now) }
{
    let mut conferences = Conferences::new(alloc);
    let mut rest = bytes;
    for _ in 0..count {
        let (conference, size) = conference_of(alloc, conferences.as_slice(), rest)?;
        conferences.add(conference)?;
        rest = &rest[size..];
    }
    Ok((conferences, rest))
}

/// Adds the record of a conference.
#[tactic(auto, unfolding(crate::specs::Conferences::conference_text))]
fn add_conference(out: &mut Bytes, conference: &Conference) -> Result<(), AllocError>
    requires { IsSetupConference conference.now }
    ensures { OnOk result (out.new ≡ out.old ++ conference_text conference.now) }
{
    add_u16(out, conference.number)?;
    add_byte(out, kind_number(conference.kind))?;
    add_byte(out, rules_number(conference))?;
    add_text(out, conference.name.as_slice())
}

/// Adds the records of conferences.
pub(crate) fn add_conferences(out: &mut Bytes, conferences: &[Conference]) -> Result<(), AllocError>
    requires { All IsSetupConference conferences.now }
    ensures { OnOk result (out.new ≡ out.old ++ flat_map conference_text conferences.now) }
{
    for conference in conferences {
        add_conference(out, conference)?;
    }
    Ok(())
}
