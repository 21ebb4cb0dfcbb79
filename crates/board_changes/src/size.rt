ghost use Rattle.std.specs.Prelude.{◌≡◌, ◌==◌, ◌<◌, ◌≤◌, ◌^◌, ◌-◌, min};
ghost use Rattle.std.specs.Int.{bit_at};
ghost use Rattle.board_changes.specs.Changed.{enrolled as enrolled_of};
ghost use Rattle.board_changes.specs.Enrolling.{joined_count as joined_count_of};
ghost use Rattle.board_layout.specs.Layout.{board_size};

use board_layout::StoredBoard;

/// How many bytes a reader's record has.
const READER_SIZE: u64 = 16;

/// How many bytes a user's record has besides the name and the highs of four offers.
const USER_SIZE: u64 = 31;

/// How many bytes its highs have for each conference, one in each of four offers.
const HIGHS_SIZE: u64 = 16;

/// Whether a place is in a member set, bit k for place k.
fn is_joined(members: u64, place: u32) -> bool
    requires { place < 64 }
    ensures { result ≡ (bit_at members place == 1) }
{
    (members >> place) & 1 == 1
}

/// How many of the first places are in a member set.
fn joined_count(members: u64, count: u32) -> u64
    requires { count ≤ 64 }
    ensures count { result ≡ joined_count_of members 0 count }
    ensures few { result ≤ count }
{
    let mut joined = 0;
    for place in 0..count {
        joined += u64::from(is_joined(members, place));
    }
    joined
}

/// How many bytes the data files have together once a user of this name is enrolled, a member of the conferences in
/// these places, bit k for place k, or 18,446,744,073,709,551,615 where they are more. It takes no memory.
pub fn size_with_user(board: &StoredBoard, name: &[u8], net: bool, members: u64) -> u64
    ensures { result ≡ min (board_size (enrolled_of name.now net members board.now)) (2 ^ 64 - 1) }
{
    let count = board.ledger().setup.fields().conferences.len();
    let readers = READER_SIZE * joined_count(members, count as u32);
    let record = USER_SIZE + HIGHS_SIZE * count as u64;
    (board.size() + readers + record).saturating_add(name.len() as u64)
}
