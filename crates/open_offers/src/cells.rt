//! The offers in a user's record, which has cells for them: one in version 1, and four in version 2.
ghost use Rattle.std.specs.Prelude.{◌≡◌, ◌≤◌, ◌<◌, ◌+◌, ◌++◌, ◌||◌, ◌==◌, length, replicate, take, All, IfOk, OnOk};
ghost use Rattle.std.specs.List.{flat_map, list_all};
ghost use Rattle.std.specs.Int.{bit_at};
ghost use Rattle.record_numbers.specs.Numbers.{u32s_text};
ghost use Rattle.open_offers.specs.Offers.{are_of_member as of_member, behind_size, cell_text, cells_at as cells_from, cells_behind as cells_in, cells_for, cells_size, is_behind as behind_one, is_nothing, members_at as members_in, is_last_packet as last_in, open_in as open_of, right_cells as cells_right, rise as rise_in};
ghost use Rattle.open_offers.specs.declared.version.Version.TheVariants.{First};

use crate::offer::{Offers, OpenOffer};
use crate::texts::{add_u32, u64_at};
use crate::version::Version;
use record_numbers::{Bytes, List};
use std::alloc::{AllocError, Global};

/// How many cells a record of version 2 has.
const CELLS: usize = 4;

/// How many bytes of a record stand behind the last packet, where there are so many conferences.
pub fn size_behind_last(version: Version, conferences: u16) -> usize
    ensures { result ≡ behind_size version conferences }
{
    let cell = OpenOffer::size(conferences);
    match version {
        Version::First => 8 + cell,
        Version::Second => 8 + CELLS * cell,
    }
}

/// The member set in a record whose last packet ends at a place.
pub fn members_at(version: Version, bytes: &[u8], at: usize) -> u64
    requires { at + 12 ≤ length bytes.now }
    ensures { result ≡ members_in version at bytes.now }
{
    match version {
        Version::First => u64_at(bytes, at + 4),
        Version::Second => u64_at(bytes, at),
    }
}

/// The one cell in a record of version 1 whose last packet ends at a place.
fn first_cell(
    alloc: Global,
    bytes: &[u8],
    at: usize,
    conferences: u16,
) -> Result<Offers, AllocError>
    requires conferences { conferences ≤ 64 }
    requires whole { at + behind_size First conferences ≤ length bytes.now }
    ensures cells { IfOk result (λ cells. cells ≡ cells_in First at conferences bytes.now) }
    ensures highs { IfOk result (λ cells. All (λ o. length o.highs ≤ 64) cells) }
{
    let mut cells = Offers::new(alloc);
    cells.add(OpenOffer::read(alloc, bytes, at, at + 12, conferences)?)?;
    Ok(cells)
}

/// The four cells from a place on.
fn cells_at(alloc: Global, bytes: &[u8], at: usize, conferences: u16) -> Result<Offers, AllocError>
    requires conferences { conferences ≤ 64 }
    requires whole { at + cells_size conferences 4 ≤ length bytes.now }
    ensures cells { IfOk result (λ cells. cells ≡ cells_from at conferences 4 bytes.now) }
    ensures highs { IfOk result (λ cells. All (λ o. length o.highs ≤ 64) cells) }
{
    let mut cells = Offers::new(alloc);
    let mut number = at;
    for _ in 0..CELLS {
        cells.add(OpenOffer::read(alloc, bytes, number, number + 4, conferences)?)?;
        number += OpenOffer::size(conferences);
    }
    Ok(cells)
}

/// The cells of a record whose last packet ends at a place.
pub fn cells_behind(
    alloc: Global,
    version: Version,
    bytes: &[u8],
    at: usize,
    conferences: u16,
) -> Result<Offers, AllocError>
    requires conferences { conferences ≤ 64 }
    requires whole { at + behind_size version conferences ≤ length bytes.now }
    ensures cells { IfOk result (λ cells. cells ≡ cells_in version at conferences bytes.now) }
    ensures highs { IfOk result (λ cells. All (λ o. length o.highs ≤ 64) cells) }
{
    match version {
        Version::First => first_cell(alloc, bytes, at, conferences),
        Version::Second => cells_at(alloc, bytes, at + 8, conferences),
    }
}

/// Whether a place, from 0 to 63, is in a member set.
pub fn is_in_set(members: u64, place: u32) -> bool
    requires { place < 64 }
    ensures { result ≡ (bit_at members place == 1) }
{
    (members >> place) & 1 == 1
}

/// Whether a high is 0 where the user of this member set isn't a member of the conference in its place, from 0 to 63.
fn is_of_member(members: u64, place: u32, high: u32) -> bool
    requires { place < 64 }
    ensures { result ≡ (high == 0 || bit_at members place == 1) }
{
    high == 0 || is_in_set(members, place)
}

/// Whether each high is 0 where the user of this member set isn't a member.
fn are_of_member(members: u64, highs: &[u32]) -> bool
    requires { length highs.now ≤ 64 }
    ensures { result ≡ of_member members 0 highs.now }
{
    for (place, high) in highs.iter().enumerate() {
        if !is_of_member(members, place as u32, *high) {
            return false;
        }
    }
    true
}

/// Whether an offer's number is above the one before and at most the user's last packet, and its highs are those of a
/// member.
fn is_behind(members: u64, last: u32, before: u32, offer: &OpenOffer) -> bool
    requires { length offer.now.highs ≤ 64 }
    ensures { result ≡ behind_one members last before offer.now }
{
    let of_member = are_of_member(members, offer.highs.as_slice());
    before < offer.number && (offer.number <= last && of_member)
}

/// Whether no offer is in these cells.
fn are_nothing(cells: &[OpenOffer]) -> bool
    ensures { result ≡ list_all is_nothing cells.now }
{
    cells.iter().all(|cell| cell.is_nothing())
}

/// Whether each number in the cells is behind the one before, up to the first that is 0, and no offer is from there on.
fn rise(members: u64, last: u32, cells: &[OpenOffer]) -> bool
    requires { All (λ o. length o.highs ≤ 64) cells.now }
    ensures { result ≡ rise_in members last 0 cells.now }
{
    let mut before = 0;
    for (k, cell) in cells.iter().enumerate() {
        if cell.number == 0 {
            return are_nothing(&cells[k..]);
        }
        if !is_behind(members, last, before, cell) {
            return false;
        }
        before = cell.number;
    }
    true
}

/// Whether the first cell has no offer, or that of the last packet.
fn is_last(last: u32, cells: &[OpenOffer]) -> bool
    ensures { result ≡ last_in last cells.now }
{
    match cells {
        [] => true,
        [cell, ..] => cell.number == 0 || cell.number == last,
    }
}

/// Whether the cells of the record of a user with this member set and this last packet are right.
pub fn right_cells(version: Version, members: u64, last: u32, cells: &[OpenOffer]) -> bool
    requires { All (λ o. length o.highs ≤ 64) cells.now }
    ensures { result ≡ cells_right version members last cells.now }
{
    let rise = rise(members, last, cells);
    match version {
        Version::First => rise && is_last(last, cells),
        Version::Second => rise,
    }
}

/// How many cells stand before the first without an offer.
fn open_count(cells: &[OpenOffer]) -> usize
    ensures { take result cells.now ≡ open_of cells.now }
{
    for (k, cell) in cells.iter().enumerate() {
        if cell.number == 0 {
            return k;
        }
    }
    cells.len()
}

/// The open offers in cells.
pub fn open_in(cells: Offers) -> Offers
    ensures { result ≡ open_of cells }
{
    let open = open_count(cells.as_slice());
    let mut offers = cells.into_vec();
    offers.truncate(open);
    List::from_vec(offers)
}

/// Adds so many zeros, of four bytes each.
fn add_zeros(out: &mut Bytes, count: usize) -> Result<(), AllocError>
    ensures { OnOk result (out.new ≡ out.old ++ u32s_text (replicate count 0)) }
{
    for _ in 0..count {
        add_u32(out, 0)?;
    }
    Ok(())
}

/// Adds offers.
fn add_offers(out: &mut Bytes, offers: &[OpenOffer]) -> Result<(), AllocError>
    ensures { OnOk result (out.new ≡ out.old ++ flat_map cell_text offers.now) }
{
    for offer in offers {
        offer.write(out)?;
    }
    Ok(())
}

/// Adds the four cells of a record, of which the first have these offers.
pub fn add_cells(out: &mut Bytes, conferences: u16, offers: &[OpenOffer]) -> Result<(), AllocError>
    requires { length offers.now ≤ 4 }
    ensures { OnOk result (out.new ≡ out.old ++ flat_map cell_text (cells_for conferences 4 offers.now)) }
{
    add_offers(out, offers)?;
    add_zeros(out, (CELLS - offers.len()) * (1 + usize::from(conferences)))
}
