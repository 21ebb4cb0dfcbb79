//! Reply packets of as many messages as fit, and ledgers of as many upload records.

/// Packets that are as long as a packet may be: of 8,191 headers without a text, and of 4,095 messages of two blocks and
/// one of a header.
pub const MOST: &str = r#"
* board B
* blocks bare
 0      09-09-0101:46BOB RAY                  ANN LEE                  Hello                                0       1     \xE1\0\0\x01\0
* blocks said
 0      09-09-0101:46BOB RAY                  ANN LEE                  Hello                                0       2     \xE1\0\0\x01\0
Hi\xE3
* blocks most
TESTBBS
* join most 8191 bare
* put long
* join long 1 most
* add long 1 \x20
> upload "Ann Lee" long
refused toolarge long
> upload "Ann Lee" most
[[1 8191 # posted 0 #
]]posted 8191 refused 0
> upload "Ann Lee" most
again posted 8191 refused 0
> check
board TESTBBS
0 GENERAL: 8191 slots, 8191 live
1 NETMAIL: 0 slots, 0 live
7 NEWS: 0 slots, 0 live
4 users, 1 uploads, 1223058 bytes
* board B
* blocks texts
TESTBBS
* join texts 4095 said
* join texts 1 bare
* length texts 1048576
> upload "Ann Lee" texts
[[1 4096 # posted 0 #
]]posted 4096 refused 0
> check
board TESTBBS
0 GENERAL: 4096 slots, 4096 live
1 NETMAIL: 0 slots, 0 live
7 NEWS: 0 slots, 0 live
4 users, 1 uploads, 625188 bytes
"#;

/// The board B with all upload records but one, of Ann's, whose digests are a number and zeros and whose counts are 0; and
/// what is said where one record more may be kept. Each has 42 bytes, and the message that is posted 149.
pub const RECORDS: &str = r#"
* board B
* blocks rep
TESTBBS
 0      09-09-0101:46BOB RAY                  ANN LEE                  Hello                                0       2     \xE1\0\0\x01\0
Hi\xE3
* blocks other
TESTBBS                                                                                                                        x
* put lines upload "Ann Lee" rep\nupload "Ann Lee" rep\nupload "Bob Ray" rep\nupload "Ann Lee" other\n
* add lines 1 upload "Ann Lee" rep\nexport "Ann Lee" 10 out\nack "Ann Lee" 1\ncheck\n
* ledger QMDL\x02\0\x03\0\x04\0\x02\0\x9F\x86\x01\0\0\xCA\x9A;90\0\0\x0A\0Test Board\x0B\0Springfield\x08\0555-0100\x09\0Sam Sysop\x07\0TESTBBS\x01\0\x02\0\0\0\0\x02\x07\0GENERAL\x01\0\x02\0\x07\0NETMAIL\x07\0\0\x01\x04\0NEWS\x07\0Ann Lee\x01\0\0\0\0\x07[[1 71 \0]]\x07\0Bob Ray\0\0\0\0\0\x01[[1 71 \0]]\x09\0Sam Sysop\x01\0\0\0\0\x07[[1 71 \0]]\x06\0Cy Day\0\0\0\0\0\x01[[1 71 \0]][[100001 199999 \x01\0#\0\0\0\0\0\0\0\0\0\0\0\0\0\0\0\0\0\0\0\0\0\0\0\0\0\0\0\0\0\0\0\0\0\0]]
> batch lines
1 posted 0 1
posted 1 refused 0
again posted 1 refused 0
refused uploads 100000
refused uploads 100000
again posted 1 refused 0
packet 1: 1 messages
acknowledged 1
board TESTBBS
0 GENERAL: 1 slots, 1 live
1 NETMAIL: 0 slots, 0 live
7 NEWS: 0 slots, 0 live
4 users, 100000 uploads, 4203813 bytes
> upload "Ann Lee" rep
again posted 1 refused 0
> upload "Ann Lee" other
refused uploads 100000
* damage 0 becomes 12 161
> check
damaged 0 0 count
"#;
