//! The numbers of statuses, and how a run's status grows.
use entry_runs::{Class, Status};

/// All statuses, from number 0 on.
const STATUSES: [Status; 8] = [
    Status::Done,
    Status::Refused,
    Status::Usage,
    Status::Damaged,
    Status::DiskFault,
    Status::ShelfFault,
    Status::VoiceFault,
    Status::OutOfMemory,
];

#[test]
fn statuses_have_their_numbers(_rt: HostRuntime) -> Result<(), Status> {
    for (number, status) in STATUSES.iter().enumerate() {
        if usize::from(status.code()) != number {
            return Err(*status);
        }
    }
    Ok(())
}

#[test]
fn a_refusal_stays_to_the_end(rt: HostRuntime) {
    let stays = Class::Done.after(Class::Refused.after(Status::Done)) == Status::Refused;
    assert!(rt; stays && !Class::Refused.is_last() && Class::Usage.is_last());
}
