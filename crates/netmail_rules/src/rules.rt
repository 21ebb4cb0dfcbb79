ghost use Rattle.std.specs.Prelude.{◌≡◌, ◌&&◌, not, Some};
ghost use Rattle.std.specs.Str.{str_eq_ignore_ascii_case};
ghost use Rattle.netmail_rules.specs.Draft.{netmail_line as netmail_line_of};
ghost use Rattle.netmail_rules.specs.Rules.{first_refusing as first_refusing_of, is_its_number as is_its_number_of, has_zone as has_zone_of, names_nobody, has_no_room as is_full_of, rules_before as rules_before_of, rules_in as rules_in_of};
ghost use Rattle.qwk_blocks.specs.Status.{private_status, comment_status};

use crate::draft::is_netmail;
use crate::net_line::{NetLine, is_plain};
use crate::rule::Rule;
use crate::size::new_bytes;
use crate::status::{is_comment, is_password, is_private};
use crate::view::{ConferenceView, View};
use jam_layout::SLOT_LIMIT;
use jam_records::Message;
use qwk_blocks::{Header, QwkMessage};
use setup_file::Zones;

/// The activity byte of a killed message.
const KILLED: u8 = 0xE2;

/// The first rule that refuses, of rules in order, each with whether it does.
pub(crate) fn first_refusing(rules: &[(Rule, bool)]) -> Option<Rule>
    ensures { result ≡ first_refusing_of rules.now }
{
    let mut rest = rules;
    while let [(rule, refuses), more @ ..] = rest {
        if *refuses {
            return Some(*rule);
        }
        rest = more;
    }
    None
}

/// Whether the number is that of the view's conference.
fn is_its_number(number: Option<u32>, conference: &Option<ConferenceView>) -> bool
    ensures { result ≡ is_its_number_of number conference.now }
{
    match (number, conference) {
        (Some(number), Some(conference)) => number == u32::from(conference.number),
        _ => false,
    }
}

/// Whether the zone of the address is one of these.
fn has_zone(zones: &Zones, named: Option<NetLine>) -> bool
    ensures { result ≡ has_zone_of zones.now named }
{
    match named {
        Some(found) => zones.as_slice().contains(&found.address.zone),
        None => false,
    }
}

/// The rules before those that speak of the conference.
pub(crate) fn rules_before(view: &View, message: &QwkMessage) -> [(Rule, bool); 3]
    ensures { result ≡ rules_before_of view.now message.now }
{
    let header = &message.header;
    [
        (Rule::Killed, header.activity == KILLED),
        (Rule::Password, is_password(header.status)),
        (
            Rule::Conference,
            !is_its_number(header.number, &view.conference),
        ),
    ]
}

/// Whether the conference has no slot left, or the data files have no room for the draft.
fn is_full(view: &View, conference: &ConferenceView, draft: &Message) -> bool
    ensures { result ≡ is_full_of view.now conference.now draft.now }
{
    conference.slots as usize >= SLOT_LIMIT
        || new_bytes(draft, conference.msgid_len) > u128::from(view.room)
}

/// Whether From is the user's name, ignoring ASCII case.
fn is_from_user(header: &Header, view: &View) -> bool
    ensures { result ≡ str_eq_ignore_ascii_case header.now.from view.now.user }
{
    let from = header.from.as_slice();
    from.eq_ignore_ascii_case(view.user.as_slice())
}

/// Whether the message goes to the name in To, being neither net mail nor a comment, and To names nobody.
fn lacks_recipient(net: bool, header: &Header) -> bool
    ensures { result ≡ ((not net && not (comment_status header.now.status)) && names_nobody header.now.to) }
{
    let to = header.to.as_slice();
    !net && !is_comment(header.status) && (to.is_empty() || !is_plain(to))
}

/// Whether the message is private where it may not be.
fn is_too_private(net: bool, conference: &ConferenceView, status: u8) -> bool
    ensures { result ≡ (private_status status && (not net && not conference.now.private)) }
{
    is_private(status) && !net && !conference.private
}

/// The rules that speak of the conference, for a message whose address line names this.
fn rules_in(
    view: &View,
    conference: &ConferenceView,
    message: &QwkMessage,
    named: Option<NetLine>,
    draft: &Message,
) -> [(Rule, bool); 11]
    requires { named ≡ netmail_line_of view.now message.now }
    ensures { result ≡ rules_in_of view.now (Some conference.now) message.now draft.now }
{
    let header = &message.header;
    let status = header.status;
    let net = is_netmail(view);
    [
        (Rule::Member, !conference.member),
        (Rule::Readonly, conference.readonly && !view.is_sysop),
        (Rule::Sender, !is_from_user(header, view)),
        (Rule::To, lacks_recipient(net, header)),
        (Rule::Subject, !is_plain(header.subject.as_slice())),
        (Rule::Length, draft.body.as_slice().len() > 16_384),
        (Rule::Private, is_too_private(net, conference, status)),
        (Rule::Netuser, net && !view.net),
        (Rule::Address, net && named.is_none()),
        (Rule::Zone, net && !has_zone(&view.zones, named)),
        (Rule::Full, is_full(view, conference, draft)),
    ]
}

/// The first rule that speaks of the conference and refuses, for a message whose address line names this.
pub(crate) fn refusal_in(
    view: &View,
    message: &QwkMessage,
    named: Option<NetLine>,
    draft: &Message,
) -> Option<Rule>
    requires { named ≡ netmail_line_of view.now message.now }
    ensures { result ≡ first_refusing_of (rules_in_of view.now view.now.conference message.now draft.now) }
{
    match &view.conference {
        Some(conference) => first_refusing(&rules_in(view, conference, message, named, draft)),
        None => None,
    }
}
