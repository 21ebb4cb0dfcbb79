ghost use Rattle.std.specs.Prelude.{◌≡◌, ◌≤◌, ◌<◌, ◌+◌, ◌/◌, ◌%◌, length, codes, option_map, Some, IfOk, IsSome};
ghost use Rattle.std.specs.Str.{str_to_ascii_uppercase};
ghost use Rattle.qwk_control.specs.Written.{WritableControl};
ghost use Rattle.qwk_moments.specs.Moments.{stamp_text};
ghost use Rattle.offered_packets.specs.Control.{five_digits as five_digits_of, listed as listed_of, control};
ghost use Rattle.board_layout.specs.Lookups.{user_of};

use board_layout::StoredBoard;
use board_ledger::{Conference, Setup, User};
use byte_lists::Bytes;
use qwk_control::{Control, Listed};
use qwk_moments::laws::written_bytes;
use qwk_moments::stamp;
use std::alloc::{AllocError, Global};

/// The digit of a number that counts a unit.
fn digit(number: u32, unit: u32) -> u8
    requires { 0 < unit }
    ensures { result ≡ 48 + number / unit % 10 }
{
    b'0' + (number / unit % 10) as u8
}

/// The last five decimal digits of a number.
fn five_digits(number: u32) -> [u8; 5]
    ensures { result ≡ five_digits_of number }
{
    [
        digit(number, 10_000),
        digit(number, 1000),
        digit(number, 100),
        digit(number, 10),
        digit(number, 1),
    ]
}

/// A name in ASCII capitals.
fn in_capitals(alloc: Global, name: &[u8]) -> Result<Bytes, AllocError>
    ensures { IfOk result (λ capitals. capitals ≡ str_to_ascii_uppercase name.now) }
{
    let mut capitals = name.to_vec(alloc)?;
    capitals.make_ascii_uppercase();
    Ok(Bytes::from_vec(capitals))
}

/// Of conferences, by place from 0, the number and the name of each whose member the user is.
fn listed(alloc: Global, conferences: &[Conference], user: &User) -> Result<Listed, AllocError>
    requires { length conferences.now ≤ 64 }
    ensures { IfOk result (λ listed. listed ≡ listed_of conferences.now user.now) }
{
    let mut listed = Listed::new(alloc);
    for (place, conference) in conferences.iter().enumerate() {
        if user.is_member(place as u32) {
            listed.add((conference.number, conference.name.copy(alloc)?))?;
        }
    }
    Ok(listed)
}

/// What a control has of the board.
#[derive(Drop)]
struct BoardTexts {
    name: Bytes,
    city: Bytes,
    phone: Bytes,
    sysop: Bytes,
    serial: Bytes,
    bbsid: Bytes,
}

/// What a control has of the packet, its user and its files.
#[derive(Drop)]
struct PacketTexts {
    stamp: Bytes,
    user: Bytes,
    welcome: Bytes,
    news: Bytes,
    goodbye: Bytes,
}

/// What a control has of the board of a setup.
fn board_texts(alloc: Global, setup: &Setup) -> Result<BoardTexts, AllocError>
    ensures { IfOk result (λ texts. (texts.name ≡ setup.now.board) × (texts.city ≡ setup.now.city) × (texts.phone ≡ setup.now.phone) × (texts.sysop ≡ setup.now.sysop) × (texts.serial ≡ five_digits_of setup.now.serial) × (texts.bbsid ≡ setup.now.bbsid)) }
{
    let fields = setup.fields();
    Ok(BoardTexts {
        name: fields.board.copy(alloc)?,
        city: fields.city.copy(alloc)?,
        phone: fields.phone.copy(alloc)?,
        sysop: fields.sysop.copy(alloc)?,
        serial: Bytes::from_slice(alloc, &five_digits(fields.serial))?,
        bbsid: fields.bbsid.copy(alloc)?,
    })
}

/// What a control has of a packet that is made for a user at a moment.
fn packet_texts(alloc: Global, user: &User, now: u32) -> Result<PacketTexts, AllocError>
    ensures { IfOk result (λ texts. (texts.stamp ≡ stamp_text now) × (texts.user ≡ str_to_ascii_uppercase user.now.name) × (texts.welcome ≡ codes "WELCOME") × (texts.news ≡ codes "NEWS") × (texts.goodbye ≡ codes "GOODBYE")) }
{
    Ok(PacketTexts {
        stamp: Bytes::from_slice(alloc, &stamp(now))?,
        user: in_capitals(alloc, user.name.as_slice())?,
        welcome: Bytes::from_slice(alloc, b"WELCOME")?,
        news: Bytes::from_slice(alloc, b"NEWS")?,
        goodbye: Bytes::from_slice(alloc, b"GOODBYE")?,
    })
}

/// The control of a user's packet of so many messages, made at a moment.
#[tactic(auto, unfolding(crate::specs::Control::control))]
fn control_for(
    alloc: Global,
    board: &StoredBoard,
    user: &User,
    count: u32,
    now: u32,
) -> Result<Control, AllocError>
    ensures { IfOk result (λ made. made ≡ control board.now user.now count now) }
{
    let setup = &board.ledger().setup;
    let about = board_texts(alloc, setup)?;
    let made = packet_texts(alloc, user, now)?;
    let conferences = listed(alloc, setup.fields().conferences.as_slice(), user)?;
    Ok(Control {
        board: about.name,
        city: about.city,
        phone: about.phone,
        sysop: about.sysop,
        serial: about.serial,
        bbsid: about.bbsid,
        stamp: made.stamp,
        user: made.user,
        menu: Bytes::new(alloc),
        count,
        conferences,
        welcome: made.welcome,
        news: made.news,
        goodbye: made.goodbye,
    })
}

/// The control of a packet of so many messages, made at a moment in Unix seconds for the user of an id, from 1, who
/// is there. It has the setup's texts, the user's name in capitals and the conferences whose member the user is. With
/// at most 999,999,999 messages it can be written.
///
/// The error comes where there is no memory.
pub fn control_of(
    alloc: Global,
    board: &StoredBoard,
    user: u32,
    count: u32,
    now: u32,
) -> Result<Control, AllocError>
    requires { IsSome (user_of user board.now) }
    ensures control { IfOk result (λ made. Some made ≡ option_map (λ u. control board.now u count now) (user_of user board.now)) }
    ensures writable { count ≤ 999999999 → IfOk result WritableControl }
{
    let Some(user) = board.user_at(user) else {
        unreachable!()
    };
    // A stamp has no line's end.
    written_bytes();
    control_for(alloc, board, user, count, now)
}
