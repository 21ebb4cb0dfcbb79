//! Which conference takes a packed message.
ghost use Rattle.std.specs.Prelude.{◌≡◌, ◌<◌, ◌≤◌, Some, None, length, position, take, IfSome};
ghost use Rattle.std.specs.Option.{option_copied};
ghost use Rattle.fts_packet.specs.Tossed.{takes_tag, place_for as place_for_of};

use jam_records::Kind;
use setup_file::{Conference, Setup};

/// Whether a conference takes the messages of a tag.
fn takes_echo(conference: &Conference, tag: &[u8]) -> bool
    ensures { result ≡ takes_tag (Some tag.now) conference.now }
{
    let name = conference.name.as_slice();
    matches!(conference.kind, Kind::Echo) && name.eq_ignore_ascii_case(tag)
}

/// Whether a conference takes net mail.
fn takes_netmail(conference: &Conference) -> bool
    ensures { result ≡ takes_tag None conference.now }
{
    matches!(conference.kind, Kind::Net)
}

/// The place of the first conference that takes the messages of a tag.
fn echo_place(conferences: &[Conference], tag: &[u8]) -> Option<usize>
    requires { length conferences.now ≤ 255 }
    ensures place { result ≡ position (takes_tag (Some tag.now)) conferences.now }
    ensures small { IfSome result (λ place. place < 255) }
{
    conferences.iter().position(|c| takes_echo(c, tag))
}

/// The place of the first that takes net mail.
fn net_place(conferences: &[Conference]) -> Option<usize>
    requires { length conferences.now ≤ 255 }
    ensures place { result ≡ position (takes_tag None) conferences.now }
    ensures small { IfSome result (λ place. place < 255) }
{
    conferences.iter().position(|c| takes_netmail(c))
}

/// A place in one byte.
fn in_a_byte(place: Option<usize>) -> Option<u8>
    requires { IfSome place (λ n. n < 255) }
    ensures { result ≡ place }
{
    match place {
        Some(place) => Some(place as u8),
        None => None,
    }
}

/// The conferences that a place is counted for: the first 255.
fn counted(setup: &Setup) -> &[Conference]
    ensures same { result.now ≡ take 255 setup.now.conferences }
    ensures few { length result.now ≤ 255 }
{
    let conferences = setup.fields().conferences.as_slice();
    if conferences.len() <= 255 {
        return conferences;
    }
    &conferences[..255]
}

/// The place of the conference that takes the messages of a tag, or net mail where there is none; None
/// where no conference takes them.
pub fn place_for(setup: &Setup, tag: Option<&[u8]>) -> Option<u8>
    ensures { result ≡ place_for_of (option_copied tag.entry) setup.now }
{
    let conferences = counted(setup);
    match tag {
        Some(tag) => in_a_byte(echo_place(conferences, tag)),
        None => in_a_byte(net_place(conferences)),
    }
}
