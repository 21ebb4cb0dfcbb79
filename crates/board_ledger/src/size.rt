ghost use Rattle.std.specs.Prelude.{◌≡◌, ◌≤◌, ◌+◌, ◌*◌, length, All};
ghost use Rattle.std.specs.List.{flat_map};
ghost use Rattle.board_ledger.specs.Limits.{user_limit};
ghost use Rattle.board_ledger.specs.Opening.{opening_text, setup_text};
ghost use Rattle.board_ledger.specs.Conferences.{conference_text};
ghost use Rattle.board_ledger.specs.Users.{users_text, IsUser};
ghost use Rattle.board_ledger.specs.Ledger.{ledger_text as text_of};
ghost use Rattle.board_ledger.specs.UserPuts.{user_place as user_place_of};
ghost use Rattle.board_ledger.specs.Valid.{IsLedger, today};
ghost use Rattle.open_offers.specs.declared.version.Version.TheVariants.{Second};
ghost use Rattle.setup_file.specs.Valid.{IsSetup, IsSetupConference};

use crate::ledger::Ledger;
use crate::upload::UPLOAD_SIZE;
use crate::user::User;
use jam_records::Bytes;
use open_offers::Version;
use setup_file::{Conference, SetupFields};

/// How many bytes a text of at most 60 bytes has with its length.
fn text_size(text: &Bytes) -> usize
    requires { length text.now ≤ 60 }
    ensures { result ≡ 2 + length text.now }
{
    2 + text.as_slice().len()
}

/// How many bytes the texts and zones of a setup have.
#[tactic(auto, using(crate::proofs::SetupBounds::board_small, crate::proofs::SetupBounds::user_small, crate::proofs::SetupBounds::bbsid_small, crate::proofs::SetupBounds::zones_few, crate::proofs::SizeLaws::setup_length))]
fn setup_size(setup: &SetupFields) -> usize
    requires { IsSetup setup.now }
    ensures size { result ≡ length (setup_text setup.now) }
    ensures small { result ≤ 400 }
{
    let zones = 2 * setup.zones.len();
    let names = text_size(&setup.board) + text_size(&setup.city) + text_size(&setup.phone);
    let ids = text_size(&setup.sysop) + text_size(&setup.bbsid);
    names + ids + zones
}

/// How many bytes the records of conferences have.
fn conferences_size(conferences: &[Conference]) -> usize
    requires each { All IsSetupConference conferences.now }
    requires many { length conferences.now ≤ 64 }
    ensures size { result ≡ length (flat_map conference_text conferences.now) }
    ensures small { result ≤ 19 * length conferences.now }
{
    let mut size = 0;
    for conference in conferences {
        size += 4 + text_size(&conference.name);
    }
    size
}

/// How many bytes the records of users have in version 2, where there are so many conferences.
fn users_size(conferences: u16, users: &[User]) -> usize
    requires each { All (IsUser conferences) users.now }
    requires conferences { conferences ≤ 64 }
    requires many { length users.now ≤ user_limit }
    ensures size { result ≡ length (users_text Second conferences users.now) }
    ensures small { result ≤ 1080 * length users.now }
{
    let mut size = 0;
    for user in users {
        size += text_size(&user.name) + User::size_behind_name(Version::Second, conferences);
    }
    size
}

/// How many bytes of the text of a ledger stand before the records of its users.
fn opening_size(ledger: &Ledger) -> usize
    requires { IsLedger (today ledger.now) }
    ensures size { result ≡ length (opening_text Second ledger.now) + length (flat_map conference_text ledger.now.setup.conferences) }
    ensures small { result ≤ 2000 }
{
    let setup = ledger.setup.fields();
    24 + setup_size(setup) + conferences_size(setup.conferences.as_slice())
}

/// Where the record of the user in a place, from 0, begins in the text of a ledger in version 2.
pub(crate) fn user_place(ledger: &Ledger, place: usize) -> usize
    requires ledger { IsLedger (today ledger.now) }
    requires within { place ≤ length ledger.now.users }
    ensures place { result ≡ user_place_of place ledger.now }
    ensures small { result ≤ 2000 + 1080 * length ledger.now.users }
{
    let conferences = ledger.setup.fields().conferences.len() as u16;
    let before = &ledger.users.as_slice()[..place];
    opening_size(ledger) + users_size(conferences, before)
}

/// How many bytes the text of a ledger in version 2 has.
pub(crate) fn ledger_size(ledger: &Ledger) -> u64
    requires { IsLedger (today ledger.now) }
    ensures { result ≡ length (text_of ledger.now) }
{
    let uploads = UPLOAD_SIZE * ledger.uploads.len();
    (user_place(ledger, ledger.users.len()) + uploads) as u64
}
