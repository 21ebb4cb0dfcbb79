// What is looked up in a board.
ghost use Rattle.std.specs.Prelude.{◌≡◌, ◌≤◌, ◌<◌, ◌==◌, [], Some, length, position, slice_get, Contains, IfSome, IfNone, IsSome};
ghost use Rattle.std.specs.Option.{option_copied, option_map};
ghost use Rattle.jam_base.specs.jam_layout.Limits.{slot_limit};
ghost use Rattle.board_layout.specs.Lookups.{held_in, place_of as place_with_number, slots_in, user_of as user_with_id};
ghost use Rattle.board_layout.specs.Outlines.{board_outline};
ghost use Rattle.board_layout.specs.Renewed.{contents_of};
ghost use Rattle.board_layout.specs.Valid.{IsBoard};
ghost use Rattle.jam_base.specs.Slots.{numbered};
ghost use Rattle.jam_base.specs.jam_layout.Outlines.{slot_bare};

use crate::board::StoredBoard;
use board_ledger::{Conference, User};
use jam_base::Base;
use jam_records::{Message, Slot};

/// The base in a place, or None past the last.
fn base_in(bases: &[Base], place: u8) -> Option<&Base>
    ensures { option_copied result ≡ slice_get bases.now place }
{
    bases.get(usize::from(place))
}

/// The index of the conference of a number, or None where none has it.
fn index_of(conferences: &[Conference], number: u32) -> Option<usize>
    ensures index { result ≡ position (λ c. c.number == number) conferences.now }
    ensures within { IfSome result (λ index. index < length conferences.now) }
{
    conferences
        .iter()
        .position(|c| u32::from(c.number) == number)
}

/// The message of a number, from 1, with an empty body, or None where no slot of it holds one.
pub fn message_of(base: &Base, number: u32) -> Option<&Message>
    ensures { option_copied result ≡ held_in (slot_bare (numbered base.now.conference.slots number)) }
{
    match base.slot(number) {
        Some(Slot::Held(message)) => Some(message),
        Some(Slot::Gone) => None,
        None => None,
    }
}

impl StoredBoard {
    /// The user of an id, from 1, or None where there is none.
    pub fn user_at(&self, id: u32) -> Option<&User>
        ensures user { option_copied result ≡ user_with_id id self.now }
        ensures there { IfSome result (λ user. Contains self.now.ledger.users user.now) }
        ensures board { IsBoard self.now }
    {
        let users = &self.ledger().users;
        if id == 0 {
            return None;
        }
        users.get(id as usize - 1)
    }

    /// The user of an id that one has.
    pub fn user_of(&self, id: u32) -> &User
        requires { IsSome (user_with_id id self.now) }
        ensures user { user_with_id id self.now ≡ Some result.now }
        ensures board { IsBoard self.now }
    {
        match self.user_at(id) {
            Some(user) => user,
            None => unreachable!(),
        }
    }

    /// The place, from 0, of the conference of a number, or None where no conference has it.
    pub fn place_of(&self, number: u32) -> Option<u8>
        ensures place { result ≡ place_with_number number self.now }
        ensures within { IfSome result (λ place. place < length self.now.ledger.setup.conferences) }
    {
        let conferences = self.ledger().setup.fields().conferences.as_slice();
        match index_of(conferences, number) {
            Some(index) => Some(index as u8),
            None => None,
        }
    }

    /// What the setup says of the conference in a place, from 0, that has one.
    pub fn conference_of(&self, place: u8) -> &Conference
        requires { place < length self.now.conferences }
        ensures { slice_get self.now.ledger.setup.conferences place ≡ Some result.now }
    {
        let conferences = &self.ledger().setup.fields().conferences;
        match conferences.get(usize::from(place)) {
            Some(conference) => conference,
            None => unreachable!(),
        }
    }

    /// The base of a place, from 0, or None past the last.
    pub fn base_at(&self, place: u8) -> Option<&Base>
        ensures contents { option_copied result ≡ slice_get (contents_of self.now) place }
        ensures conference { option_map (λ base. base.conference) (option_copied result) ≡ slice_get self.now.conferences place }
        ensures slots { IfSome result (λ base. base.now.conference.slots ≡ slots_in self.now place) }
        ensures place { IfSome result (λ base. place < 64) }
        ensures none { IfNone result (slots_in self.now place ≡ []) }
        ensures board { IsBoard self.now }
    {
        base_in(self.bases(), place)
    }

    /// The base of a place that has one.
    pub fn base_of(&self, place: u8) -> &Base
        requires { place < length self.now.conferences }
        ensures base { slice_get (contents_of self.now) place ≡ Some result.now }
        ensures board { IsBoard self.now }
        ensures outline { board_outline self.now ≡ self.now }
    {
        match self.bases().get(usize::from(place)) {
            Some(base) => base,
            None => unreachable!(),
        }
    }

    /// How many slots the conference in a place has, none where no conference is there.
    pub fn slot_count(&self, place: u8) -> u32
        ensures count { result ≡ length (slots_in self.now place) }
        ensures few { result ≤ slot_limit }
        ensures board { IsBoard self.now }
    {
        match self.base_at(place) {
            Some(base) => base.slot_count(),
            None => 0,
        }
    }
}
