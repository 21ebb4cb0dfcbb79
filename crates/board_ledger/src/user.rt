ghost use Rattle.std.specs.Prelude.{◌≡◌, ◌≤◌, ◌<◌, ◌+◌, ◌^◌, ◌++◌, length, nat_lt, All, IfOk, OnOk};
ghost use Rattle.open_offers.specs.Texts.{text_end as end_of};
ghost use Rattle.board_ledger.specs.Users.{user_text, behind_name as size_behind_name, user_record_of as record_in, user_end, right_members as members_right, right_offers as offers_right, is_member as member_at, with_open as with_open_offers};
ghost use Rattle.open_offers.specs.declared.version.Version.TheVariants.{Second};

use jam_records::{Bytes, Duplicate, List, u32_at};
use open_offers::{
    Offers, Version, add_byte, add_cells, add_text, add_u32, add_u64, cells_behind, is_in_set,
    members_at, open_in, right_cells, size_behind_last, text_at,
};
use std::alloc::{AllocError, Global};

/// A user of a board. A valid user keeps the rules that the fields name.
#[derive(Debug, Drop)]
pub struct User {
    /// The name: 1 to 25 bytes from 20h to 7Eh without `"`, and no space at either end.
    pub name: Bytes,
    /// Whether the user may write net mail.
    pub net: bool,
    /// The places of the conferences whose member the user is, bit k for place k. At least one is there.
    pub members: u64,
    /// The number of the last packet, 0 before the first.
    pub last: u32,
    /// The packets that the user may acknowledge, in rising number: at most four, from 1 to the last. A high is 0 in a
    /// conference whose member the user isn't.
    pub offers: Offers,
}

/// The users of a board, by id from 1.
pub type Users = List<User>;

impl Duplicate for User {
    fn duplicate(&self, alloc: Global) -> Result<User, AllocError> {
        Ok(User {
            name: self.name.copy(alloc)?,
            net: self.net,
            members: self.members,
            last: self.last,
            offers: self.offers.copy(alloc)?,
        })
    }
}

/// Whether a set has no place past so many.
fn are_below(members: u64, count: u16) -> bool
    requires { count ≤ 64 }
    ensures { result ≡ nat_lt members (2 ^ count) }
{
    if count == 64 {
        return true;
    }
    members >> count == 0
}

/// Whether a set of places is one of a member: a place is there, bit k for place k, and none past so many
/// conferences.
#[tactic(auto, unfolding(crate::specs::Users::right_members))]
pub fn are_members(members: u64, conferences: u16) -> bool
    requires { conferences ≤ 64 }
    ensures { result ≡ members_right conferences members }
{
    let within = are_below(members, conferences);
    members != 0 && within
}

impl User {
    /// How many bytes of a user's record stand behind the name, where there are so many conferences.
    pub(crate) fn size_behind_name(version: Version, conferences: u16) -> usize
        ensures { result ≡ size_behind_name version conferences }
    {
        5 + size_behind_last(version, conferences)
    }

    /// The user of the record at the front, whose name ends at a place, where there are so many conferences. His offers
    /// are all cells of the record.
    #[tactic(auto, unfolding(crate::specs::Users::user_record_of, crate::specs::Users::user_end))]
    pub(crate) fn read(
        alloc: Global,
        version: Version,
        conferences: u16,
        place: usize,
        bytes: &[u8],
    ) -> Result<User, AllocError>
        requires conferences { conferences ≤ 64 }
        requires place { place ≡ end_of 0 bytes.now }
        requires whole { user_end version conferences bytes.now ≤ length bytes.now }
        ensures user { IfOk result (λ user. user ≡ record_in version conferences bytes.now) }
        ensures highs { IfOk result (λ user. All (λ o. length o.highs ≤ 64) user.offers) }
    {
        Ok(User {
            name: Bytes::from_slice(alloc, text_at(bytes, 0))?,
            net: bytes[place] == 1,
            members: members_at(version, bytes, place + 5),
            last: u32_at(bytes, place + 1),
            offers: cells_behind(alloc, version, bytes, place + 5, conferences)?,
        })
    }

    /// The user with the open offers of the cells.
    pub(crate) fn with_open(self) -> User
        ensures { result ≡ with_open_offers self }
    {
        User {
            offers: open_in(self.offers),
            ..self
        }
    }

    /// Whether the user is a member of the conference in a place, from 0 to 63.
    pub fn is_member(&self, place: u32) -> bool
        requires { place < 64 }
        ensures { result ≡ member_at self.now place }
    {
        is_in_set(self.members, place)
    }

    /// Whether the user is a member somewhere, and of no place past the conferences.
    pub(crate) fn right_members(&self, conferences: u16) -> bool
        requires { conferences ≤ 64 }
        ensures { result ≡ members_right conferences self.now.members }
    {
        are_members(self.members, conferences)
    }

    /// Whether the cells of the user's record are right.
    pub(crate) fn right_offers(&self, version: Version) -> bool
        requires { All (λ o. length o.highs ≤ 64) self.now.offers }
        ensures { result ≡ offers_right version self.now }
    {
        right_cells(version, self.members, self.last, self.offers.as_slice())
    }

    /// Adds the record of the user in version 2, where there are so many conferences.
    #[tactic(auto, unfolding(crate::specs::Users::user_text))]
    pub(crate) fn write(&self, out: &mut Bytes, conferences: u16) -> Result<(), AllocError>
        requires name { length self.now.name < 2 ^ 16 }
        requires offers { length self.now.offers ≤ 4 }
        ensures { OnOk result (out.new ≡ out.old ++ user_text Second conferences self.now) }
    {
        add_text(out, self.name.as_slice())?;
        add_byte(out, u8::from(self.net))?;
        add_u32(out, self.last)?;
        add_u64(out, self.members)?;
        add_cells(out, conferences, self.offers.as_slice())
    }
}
