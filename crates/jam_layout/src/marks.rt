ghost use Rattle.std.specs.Prelude.{◌≡◌, ◌≤◌};
ghost use Rattle.jam_layout.specs.Marks.{mark_bit, type_bit, is_net as is_net_kind, attribute_of, marks_of, wrong_attribute as is_wrong_attribute};

use jam_records::Kind;

/// The marks of a message.
#[derive(Debug, Clone, Copy, PartialEq, Eq)]
pub struct Marks {
    /// Whether it was made on this board.
    pub local: bool,
    /// Whether only its sender and its recipient may see it.
    pub private: bool,
    /// Whether its recipient has read it.
    pub seen: bool,
    /// Whether it was deleted.
    pub deleted: bool,
}

/// The bit of a mark, or 0 where it isn't set.
fn mark(set: bool, bit: u32) -> u32
    ensures value { result ≡ mark_bit set bit }
    ensures bound { result ≤ bit }
{
    if set { bit } else { 0 }
}

/// The bit of a kind.
fn type_of(kind: Kind) -> u32
    ensures value { result ≡ type_bit kind }
    ensures bound { result ≤ 0x200_0000 }
{
    match kind {
        Kind::Local => 0x80_0000,
        Kind::Echo => 0x100_0000,
        Kind::Net => 0x200_0000,
    }
}

/// Whether the messages are netmail.
fn is_net(kind: Kind) -> bool
    ensures { result ≡ is_net_kind kind }
{
    match kind {
        Kind::Net => true,
        Kind::Local | Kind::Echo => false,
    }
}

impl Marks {
    /// The marks that an attribute shows.
    #[tactic(auto, unfolding(crate::specs::Marks::marks_of))]
    pub fn of(attribute: u32) -> Marks
        ensures { result ≡ marks_of attribute }
    {
        Marks {
            local: attribute % 2 == 1,
            private: (attribute >> 2) % 2 == 1,
            seen: (attribute >> 3) % 2 == 1,
            deleted: (attribute >> 31) % 2 == 1,
        }
    }

    /// The attribute of a message of this kind.
    #[tactic(auto, unfolding(crate::specs::Marks::attribute_of))]
    pub fn attribute(self, kind: Kind) -> u32
        ensures { result ≡ attribute_of kind self }
    {
        let low = mark(self.seen, 0x8) + (type_of(kind) + mark(self.deleted, 0x8000_0000));
        mark(self.local, 0x1) + (mark(self.private, 0x4) + low)
    }
}

/// Whether an attribute has a bit that the door doesn't write, another kind's bit, or no PRIVATE in netmail.
#[tactic(auto, unfolding(crate::specs::Marks::wrong_attribute))]
pub fn wrong_attribute(kind: Kind, attribute: u32) -> bool
    ensures { result ≡ is_wrong_attribute kind attribute }
{
    let marks = Marks::of(attribute);
    attribute != marks.attribute(kind) || (is_net(kind) && !marks.private)
}
