// What a board answers from memory.
ghost use Rattle.std.specs.Prelude.{◌≡◌, ◌<◌, ◌==◌, length, position, slice_get, Some, IfSome};
ghost use Rattle.std.specs.List.{list_any};
ghost use Rattle.std.specs.Option.{option_copied, option_map};
ghost use Rattle.std.specs.Str.{str_eq_ignore_ascii_case};
ghost use Rattle.board_layout.specs.Layout.{board_size};
ghost use Rattle.board_layout.specs.Valid.{IsBoard};
ghost use Rattle.board_layout.specs.jam_base.Slots.{numbered};
ghost use Rattle.jam_layout.specs.Conference.{live_count as live_in};
ghost use Rattle.jam_layout.specs.jam_threads.Children.{has_msgid, original};
ghost use Rattle.offered_packets.specs.Sees.{sees as is_seen};
ghost use Rattle.board_layout.specs.Lookups.{user_of, pointer_at, place_of};
ghost use Rattle.mail_board.specs.Readers.{user_id as id_of, offer_of, is_offered, upload_of as counts_of, has_msgid_in};

use crate::board::Board;
use board_layout::{Base, StoredBoard};
use board_ledger::{Counts, OpenOffer, Setup, User};
use jam_records::Slot;
use offered_packets::sees;

/// The place of the user of a name, ignoring ASCII case, or None where none has it.
fn place_named(users: &[User], name: &[u8]) -> Option<usize>
    ensures place { result ≡ position (λ u. str_eq_ignore_ascii_case u.name name.now) users.now }
    ensures within { IfSome result (λ place. place < length users.now) }
{
    users
        .iter()
        .position(|user| user.name.as_slice().eq_ignore_ascii_case(name))
}

/// Whether one of these offers has a number.
fn is_open(packet: u32, offers: &[OpenOffer]) -> bool
    ensures { result ≡ list_any (λ o. o.number == packet) offers.now }
{
    offers.iter().any(|offer| offer.number == packet)
}

/// Whether a slot of this number, from 1, holds a message with this msgid.
fn holds_msgid(base: &Base, number: u32, msgid: &[u8]) -> bool
    ensures { result ≡ has_msgid msgid.now (numbered base.now.conference.slots number) }
{
    match base.slot(number) {
        Some(Slot::Held(message)) => message.msgid.as_slice() == msgid,
        Some(Slot::Gone) => false,
        None => false,
    }
}

impl Board {
    /// What the board is made of. The board is valid.
    pub fn setup(&self) -> &Setup
        ensures setup { result.now ≡ self.now.board.ledger.setup }
        ensures valid { IsBoard self.now.board }
    {
        &self.stored.ledger().setup
    }

    /// The board itself, for what reads boards in memory. It is valid.
    pub fn stored(&self) -> &StoredBoard
        ensures board { result.now ≡ self.now.board }
        ensures valid { IsBoard self.now.board }
    {
        let _ledger = self.stored.ledger();
        &self.stored
    }

    /// Whether a change ended with a disk fault, so that the files hold the board before it or the one after it.
    /// The next load finds which.
    pub fn doubtful(&self) -> bool
        ensures { result ≡ self.now.doubtful }
    {
        self.doubtful
    }

    /// The place, from 0, of the conference of a number, or None where no conference has it.
    pub fn place_of(&self, conference: u16) -> Option<u8>
        ensures { result ≡ place_of conference self.now.board }
    {
        self.stored.place_of(u32::from(conference))
    }

    /// The base of a place that has one.
    fn base(&self, place: u8) -> &Base
        requires { place < length self.now.board.conferences }
        ensures { Some result.now.conference ≡ slice_get self.now.board.conferences place }
    {
        match self.stored.base_at(place) {
            Some(base) => base,
            None => unreachable!(),
        }
    }

    /// How many slots the conference in a place has, 0 to 9,999. It is the greatest message number. The place is there.
    pub fn slot_count(&self, place: u8) -> u32
        requires { place < length self.now.board.conferences }
        ensures { Some result ≡ option_map (λ c. length c.slots) (slice_get self.now.board.conferences place) }
    {
        self.base(place).slot_count()
    }

    /// How many of its messages aren't deleted. The place is there.
    pub fn live_count(&self, place: u8) -> u32
        requires { place < length self.now.board.conferences }
        ensures { Some result ≡ option_map (λ c. live_in c.slots) (slice_get self.now.board.conferences place) }
    {
        self.base(place).live_count()
    }

    /// The number of the message that the message of a number answers. It is 0 where that answers none that is there,
    /// or no slot has the number. The place is there. For callers of the library; the program doesn't call it.
    pub fn reply_to(&self, place: u8, number: u32) -> u32
        requires { place < length self.now.board.conferences }
        ensures { Some result ≡ option_map (λ c. original c.slots number) (slice_get self.now.board.conferences place) }
    {
        self.base(place).reply_to(number)
    }

    /// Whether a message that the conference in a place holds, deleted or not, has this msgid. The place is there. It takes
    /// no memory, and goes over the slots. For callers of the library; the program doesn't call it.
    pub fn has_msgid(&self, place: u8, msgid: &[u8]) -> bool
        requires { place < length self.now.board.conferences }
        ensures { result ≡ has_msgid_in place msgid.now self.now.board }
    {
        let base = self.base(place);
        for before in 0..base.slot_count() {
            if holds_msgid(base, before + 1, msgid) {
                return true;
            }
        }
        false
    }

    /// The last-read pointer of a user in the conference in a place: a message number, or 0 before the first. None
    /// where the board has no such place, or the user isn't a member. For callers of the library; the program doesn't
    /// call it.
    pub fn pointer(&self, place: u8, user: u32) -> Option<u32>
        ensures { result ≡ pointer_at place user self.now.board }
    {
        match self.stored.bases().get(usize::from(place)) {
            Some(base) => base.pointer(user),
            None => None,
        }
    }

    /// Whether the user of an id, from 1, sees the message of a number, from 1, in a place, from 0. All three must be
    /// there. The message mustn't be deleted, and the user must be a member of its conference. A private message must
    /// be to the user or from the user, ignoring ASCII case, or the user must be the sysop. It takes no memory. For
    /// callers of the library; the program doesn't call it.
    pub fn sees(&self, user: u32, place: u8, number: u32) -> bool
        ensures { result ≡ is_seen self.now.board user place number }
    {
        sees(&self.stored, user, place, number)
    }

    /// How many users there are, at most 500. Their ids are those from 1 to this number.
    pub fn user_count(&self) -> u32
        ensures { result ≡ length self.now.board.ledger.users }
    {
        self.stored.ledger().users.len() as u32
    }

    /// The id, from 1, of the user of a name, ignoring ASCII case, or None where no user has it.
    pub fn user_id(&self, name: &[u8]) -> Option<u32>
        ensures { result ≡ id_of name.now self.now.board }
    {
        let users = self.stored.ledger().users.as_slice();
        match place_named(users, name) {
            Some(place) => Some(place as u32 + 1),
            None => None,
        }
    }

    /// The user of an id, from 1, or None where there is none.
    pub fn user(&self, id: u32) -> Option<&User>
        ensures { option_copied result ≡ user_of id self.now.board }
    {
        self.stored.user_at(id)
    }

    /// The greatest number of a packet that is open for a user, or None where there is none or no user has the id. It
    /// takes no memory.
    pub fn offer(&self, id: u32) -> Option<u32>
        ensures { result ≡ offer_of id self.now.board }
    {
        let last = self.user(id)?.offers.as_slice().last()?;
        Some(last.number)
    }

    /// Whether the packet of a number is open for the user of an id, from 1. It takes no memory.
    pub fn has_offer(&self, id: u32, packet: u32) -> bool
        ensures { result ≡ is_offered id packet self.now.board }
    {
        match self.user(id) {
            Some(user) => is_open(packet, user.offers.as_slice()),
            None => false,
        }
    }

    /// What became of the reply packet of a SHA-256 that a user sent, or None where that user sent none.
    pub fn upload_of(&self, id: u32, digest: &[u8; 32]) -> Option<Counts>
        ensures { result ≡ counts_of id digest.now self.now.board }
    {
        let uploads = self.stored.ledger().uploads.as_slice();
        let record = uploads
            .iter()
            .find(|record| record.user == id && record.digest == *digest)?;
        Some(record.counts)
    }

    /// How many upload records are kept, at most 100,000.
    pub fn upload_count(&self) -> u32
        ensures { result ≡ length self.now.board.ledger.uploads }
    {
        self.stored.ledger().uploads.len() as u32
    }

    /// How many bytes the data files have together, at most 34,603,008.
    pub fn size(&self) -> u64
        ensures { result ≡ board_size self.now.board }
    {
        self.stored.size()
    }
}
