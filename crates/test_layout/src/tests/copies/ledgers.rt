//! What a ledger lists: users, their offers and upload records.
use super::expect;
use board_ledger::{Counts, Highs, Offers, OpenOffer, UploadRecord, Uploads, User, Users};
use byte_lists::Bytes;
use std::alloc::{AllocError, Global};
use std::test::Fail;

/// The offer of packet 3.
fn offers_of(alloc: Global) -> Result<Offers, AllocError> {
    let mut highs = Highs::new(alloc);
    highs.add(7)?;
    let mut offers = Offers::new(alloc);
    offers.add(OpenOffer { number: 3, highs })?;
    Ok(offers)
}

/// Ann Lee, to whom it is offered.
fn user_of(alloc: Global) -> Result<User, AllocError> {
    let name = Bytes::from_slice(alloc, b"Ann Lee")?;
    Ok(User {
        name,
        net: true,
        members: 5,
        last: 3,
        offers: offers_of(alloc)?,
    })
}

fn users_of(alloc: Global) -> Result<Users, AllocError> {
    let mut users = Users::new(alloc);
    users.add(user_of(alloc)?)?;
    Ok(users)
}

/// Whether offers are that of packet 3.
fn are_offers(offers: &Offers) -> bool {
    match offers.get(0) {
        Some(offer) => offer.number == 3 && offer.highs.as_slice() == [7].as_slice(),
        None => false,
    }
}

/// Whether the first of some users is Ann Lee.
fn are_users(users: &Users) -> bool {
    match users.get(0) {
        Some(user) => {
            user.name.as_slice() == b"Ann Lee".as_slice()
                && (user.net, user.members, user.last) == (true, 5, 3)
                && are_offers(&user.offers)
        }
        None => false,
    }
}

fn copies_users(alloc: Global) -> Result<bool, AllocError> {
    let copies = users_of(alloc)?.copy(alloc)?;
    Ok(are_users(&copies))
}

fn copies_uploads(alloc: Global) -> Result<bool, AllocError> {
    let record = UploadRecord {
        user: 1,
        digest: [9; 32],
        counts: Counts {
            posted: 2,
            refused: 1,
        },
    };
    let mut uploads = Uploads::new(alloc);
    uploads.add(record)?;
    let copies = uploads.copy(alloc)?;
    Ok(copies.as_slice() == [record].as_slice())
}

#[test]
fn users_and_upload_records_are_copied(rt: HostRuntime) -> Result<(), Fail> {
    expect(copies_users(rt.alloc())? && copies_uploads(rt.alloc())?)
}
