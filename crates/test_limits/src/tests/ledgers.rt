//! Ledgers as long as they may be: 64 conferences, 500 users and 100,000 upload records.

/// A board of 64 conferences and 499 users.
const BOARD: &str = r#"
* put setup board: Many\ncity: Springfield\nphone: 555-0100\nsysop: Sam Sysop\nbbsid: MANY\nserial: 1\nzones:\n[[0 9 conference: # local - C\n]][[16 25 conference: # local - C\n]][[32 41 conference: # local - C\n]][[48 57 conference: # local - C\n]][[64 73 conference: # local - C\n]][[80 89 conference: # local - C\n]][[96 99 conference: # local - C\n]]
* put lines init setup\n[[1 499 enroll "User #" - all\n]]
> batch lines
made 64 conferences
[[1 499 user # User #
]]"#;

/// A user more.
const LAST_USER: &str = r#"> enroll "User 500" - all
user 500 User 500
"#;

/// The front of a ledger of version 1 with 499 users, and of one with 500: the counts.
const FRONT: &str = r#"* ledger QMDL\x01\0@\0\xF3\x01\0\0\xA0\x86\x01\0"#;

const LAST_FRONT: &str = r#"* ledger QMDL\x01\0@\0\xF4\x01\0\0\xA0\x86\x01\0"#;

/// The setup, the conferences and 499 users of version 1, whose records have 275 bytes and their names.
const RECORDS: &str =
    r#"\0\xCA\x9A;\x01\0\0\0\x04\0Many\x0B\0Springfield\x08\0555-0100\x09\0Sam Sysop\x04\0MANY[[0 9 \x0#\0\0\0\x01\0C]][[0 9 \x1#\0\0\0\x01\0C]][[0 9 \x2#\0\0\0\x01\0C]][[0 9 \x3#\0\0\0\x01\0C]][[0 9 \x4#\0\0\0\x01\0C]][[0 9 \x5#\0\0\0\x01\0C]][[0 3 \x6#\0\0\0\x01\0C]][[1 9 \x06\0User #\0\0\0\0\0\0\0\0\0\xFF\xFF\xFF\xFF\xFF\xFF\xFF\xFF\0\0\0\0\0\0\0\0\0\0\0\0\0\0\0\0\0\0\0\0\0\0\0\0\0\0\0\0\0\0\0\0\0\0\0\0\0\0\0\0\0\0\0\0\0\0\0\0\0\0\0\0\0\0\0\0\0\0\0\0\0\0\0\0\0\0\0\0\0\0\0\0\0\0\0\0\0\0\0\0\0\0\0\0\0\0\0\0\0\0\0\0\0\0\0\0\0\0\0\0\0\0\0\0\0\0\0\0\0\0\0\0\0\0\0\0\0\0\0\0\0\0\0\0\0\0\0\0\0\0\0\0\0\0\0\0\0\0\0\0\0\0\0\0\0\0\0\0\0\0\0\0\0\0\0\0\0\0\0\0\0\0\0\0\0\0\0\0\0\0\0\0\0\0\0\0\0\0\0\0\0\0\0\0\0\0\0\0\0\0\0\0\0\0\0\0\0\0\0\0\0\0\0\0\0\0\0\0\0\0\0\0\0\0\0\0\0\0\0\0\0\0\0\0\0\0\0\0\0\0\0\0\0\0\0\0\0\0\0\0\0\0\0\0\0\0\0\0\0\0\0\0\0\0\0\0]][[10 99 \x07\0User #\0\0\0\0\0\0\0\0\0\xFF\xFF\xFF\xFF\xFF\xFF\xFF\xFF\0\0\0\0\0\0\0\0\0\0\0\0\0\0\0\0\0\0\0\0\0\0\0\0\0\0\0\0\0\0\0\0\0\0\0\0\0\0\0\0\0\0\0\0\0\0\0\0\0\0\0\0\0\0\0\0\0\0\0\0\0\0\0\0\0\0\0\0\0\0\0\0\0\0\0\0\0\0\0\0\0\0\0\0\0\0\0\0\0\0\0\0\0\0\0\0\0\0\0\0\0\0\0\0\0\0\0\0\0\0\0\0\0\0\0\0\0\0\0\0\0\0\0\0\0\0\0\0\0\0\0\0\0\0\0\0\0\0\0\0\0\0\0\0\0\0\0\0\0\0\0\0\0\0\0\0\0\0\0\0\0\0\0\0\0\0\0\0\0\0\0\0\0\0\0\0\0\0\0\0\0\0\0\0\0\0\0\0\0\0\0\0\0\0\0\0\0\0\0\0\0\0\0\0\0\0\0\0\0\0\0\0\0\0\0\0\0\0\0\0\0\0\0\0\0\0\0\0\0\0\0\0\0\0\0\0\0\0\0\0\0\0\0\0\0\0\0\0\0\0\0\0\0\0\0\0]][[100 499 \x08\0User #\0\0\0\0\0\0\0\0\0\xFF\xFF\xFF\xFF\xFF\xFF\xFF\xFF\0\0\0\0\0\0\0\0\0\0\0\0\0\0\0\0\0\0\0\0\0\0\0\0\0\0\0\0\0\0\0\0\0\0\0\0\0\0\0\0\0\0\0\0\0\0\0\0\0\0\0\0\0\0\0\0\0\0\0\0\0\0\0\0\0\0\0\0\0\0\0\0\0\0\0\0\0\0\0\0\0\0\0\0\0\0\0\0\0\0\0\0\0\0\0\0\0\0\0\0\0\0\0\0\0\0\0\0\0\0\0\0\0\0\0\0\0\0\0\0\0\0\0\0\0\0\0\0\0\0\0\0\0\0\0\0\0\0\0\0\0\0\0\0\0\0\0\0\0\0\0\0\0\0\0\0\0\0\0\0\0\0\0\0\0\0\0\0\0\0\0\0\0\0\0\0\0\0\0\0\0\0\0\0\0\0\0\0\0\0\0\0\0\0\0\0\0\0\0\0\0\0\0\0\0\0\0\0\0\0\0\0\0\0\0\0\0\0\0\0\0\0\0\0\0\0\0\0\0\0\0\0\0\0\0\0\0\0\0\0\0\0\0\0\0\0\0\0\0\0\0\0\0\0\0\0]]"#;

/// The record of the last user.
const LAST_RECORD: &str =
    r#"\x08\0User 500\0\0\0\0\0\0\0\0\0\xFF\xFF\xFF\xFF\xFF\xFF\xFF\xFF\0\0\0\0\0\0\0\0\0\0\0\0\0\0\0\0\0\0\0\0\0\0\0\0\0\0\0\0\0\0\0\0\0\0\0\0\0\0\0\0\0\0\0\0\0\0\0\0\0\0\0\0\0\0\0\0\0\0\0\0\0\0\0\0\0\0\0\0\0\0\0\0\0\0\0\0\0\0\0\0\0\0\0\0\0\0\0\0\0\0\0\0\0\0\0\0\0\0\0\0\0\0\0\0\0\0\0\0\0\0\0\0\0\0\0\0\0\0\0\0\0\0\0\0\0\0\0\0\0\0\0\0\0\0\0\0\0\0\0\0\0\0\0\0\0\0\0\0\0\0\0\0\0\0\0\0\0\0\0\0\0\0\0\0\0\0\0\0\0\0\0\0\0\0\0\0\0\0\0\0\0\0\0\0\0\0\0\0\0\0\0\0\0\0\0\0\0\0\0\0\0\0\0\0\0\0\0\0\0\0\0\0\0\0\0\0\0\0\0\0\0\0\0\0\0\0\0\0\0\0\0\0\0\0\0\0\0\0\0\0\0\0\0\0\0\0\0\0\0\0\0\0\0\0\0\0"#;

/// Upload records of the first user, whose digests are a number and zeros.
const UPLOADS: &str =
    r#"[[100001 200000 \x01\0#\0\0\0\0\0\0\0\0\0\0\0\0\0\0\0\0\0\0\0\0\0\0\0\0\0\0\0\0\0\0\0\0\0\0]]
"#;

/// The first command that touches the board migrates it: a user's record has 1,055 bytes and his name then.
const MIGRATED: &str = r#"* data 0 has 4341910
> check
board MANY
[[0 9 # C: 0 slots, 0 live
]][[16 25 # C: 0 slots, 0 live
]][[32 41 # C: 0 slots, 0 live
]][[48 57 # C: 0 slots, 0 live
]][[64 73 # C: 0 slots, 0 live
]][[80 89 # C: 0 slots, 0 live
]][[96 99 # C: 0 slots, 0 live
]]500 users, 100000 uploads, 5309446 bytes
* data 0 has 4731910
> enroll "User 501" - all
refused users
"#;

/// A user is enrolled before the upload records.
const CHECKED: &str = r#"> enroll "User 500" - all
user 500 User 500
> check
board MANY
[[0 9 # C: 0 slots, 0 live
]][[16 25 # C: 0 slots, 0 live
]][[32 41 # C: 0 slots, 0 live
]][[48 57 # C: 0 slots, 0 live
]][[64 73 # C: 0 slots, 0 live
]][[80 89 # C: 0 slots, 0 live
]][[96 99 # C: 0 slots, 0 live
]]500 users, 100000 uploads, 5309446 bytes
"#;

/// A board of version 1 with 500 users is migrated.
pub const OLD: [&str; 7] = [
    BOARD,
    LAST_USER,
    LAST_FRONT,
    RECORDS,
    LAST_RECORD,
    UPLOADS,
    MIGRATED,
];

/// The last user is enrolled in a board of version 1.
pub const ENROLLED: [&str; 5] = [BOARD, FRONT, RECORDS, UPLOADS, CHECKED];
