//! A board of as many users as there may be.

/// The last user gets mail. The users' records have 79 bytes and their names, and each user has three last-read records.
pub const USERS: &str = r#"
* setups
* put lines init setup.txt\n[[1 500 enroll "User #" n all\n]]enroll "User 501" n all\nenroll "user 500" n 5\nenroll "User 501" n 5\ncheck\n
* put mail From: Bob\nTo: User 500\nPrivate: yes\n\nHi\n.\n
> batch lines
made 3 conferences
[[1 500 user # User #
]]refused users
refused dupuser
refused noconference
board TESTBBS
0 GENERAL: 0 slots, 0 live
1 NETMAIL: 0 slots, 0 live
7 NEWS: 0 slots, 0 live
500 users, 0 uploads, 70583 bytes
> import 0 mail
imported 1 into 0
> export "User 499" 10 out
packet 1: 0 messages
> export "User 500" 10 out
packet 1: 1 messages
> ack "User 500" 1
acknowledged 1
> enroll "User 501" - 0
refused users
> check
board TESTBBS
0 GENERAL: 1 slots, 1 live
1 NETMAIL: 0 slots, 0 live
7 NEWS: 0 slots, 0 live
500 users, 0 uploads, 70716 bytes
"#;
