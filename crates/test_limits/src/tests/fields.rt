//! Bodies and fields as long as they may be, and one byte longer.

/// A message whose fields are as long as they may be: its subfields and the length of its body, and what a caller reads
/// of it. What it answers isn't there.
pub const LONGEST: &str = r#"
* board B
* put most From: ABCDEFGHIJKLMNOPQRSTUVWXYZabcdefghij\nTo: KLMNOPQRSTabcdefghijABCDEFGHIJUVWXYZ\nSubject: A subject that has as many bytes as a subject may have, and not one more\nMsgid: 01234567890123456789012345678901234567890123456789012345678901234567890123456789\nReply: abcdefghijabcdefghijabcdefghijabcdefghijabcdefghijabcdefghijabcdefghijabcdefghij\n\n
* add most 16383 x
* add most 1 \n.\n
> import 0 most
imported 1 into 0
* data 2 from 1100 \x02\0\0\0\x24\0\0\0ABCDEFGHIJKLMNOPQRSTUVWXYZabcdefghij\x03\0\0\0\x24\0\0\0KLMNOPQRSTabcdefghijABCDEFGHIJUVWXYZ
* data 2 from 1188 \x04\0\0\0\x50\0\0\001234567890123456789012345678901234567890123456789012345678901234567890123456789\x05\0\0\0\x50\0\0\0abcdefghijabcdefghijabcdefghijabcdefghijabcdefghijabcdefghijabcdefghijabcdefghij
* data 2 ends 1364 \x06\0\0\0\x48\0\0\0A subject that has as many bytes as a subject may have, and not one more
* data 3 has 16384
> export "Ann Lee" 10 out
packet 1: 1 messages
> read out 1
From: ABCDEFGHIJKLMNOPQRSTUVWXYZabcdefghij
To: KLMNOPQRSTabcdefghijABCDEFGHIJUVWXYZ
Subject: A subject that has as many bytes as a subject may have, and not one more
Date: 09-09-01 01:46
Conference: 0
Number: 1
Reference: 0

[[1 16383 x]]
"#;

/// Sheets of which one value is a byte too long, or the body, in one line or in lines without a byte.
pub const TOO_LONG: &str = r#"
* board B
* put from From: ABCDEFGHIJKLMNOPQRSTUVWXYZabcdefghijx\nTo: b\n\n.\n
* put to From: a\nTo: KLMNOPQRSTabcdefghijABCDEFGHIJUVWXYZx\n\n.\n
* put subject From: a\nTo: b\nSubject: A subject that has as many bytes as a subject may have, and not one morex\n\n.\n
* put msgid From: a\nTo: b\nMsgid: 01234567890123456789012345678901234567890123456789012345678901234567890123456789x\n\n.\n
* put reply From: a\nTo: b\nReply: abcdefghijabcdefghijabcdefghijabcdefghijabcdefghijabcdefghijabcdefghijabcdefghijx\n\n.\n
* put line From: a\nTo: b\n\n
* add line 16384 x
* add line 1 \n.\n
* put lines From: a\nTo: b\n\n
* add lines 16385 \n
* add lines 1 .\n
* put last From: a\nTo: b\n\n
* add last 16384 \n
* add last 1 .\n
> import 0 from
refused sheet 1 from
> import 0 to
refused sheet 2 to
> import 0 subject
refused sheet 3 subject
> import 0 msgid
refused sheet 3 msgid
> import 0 reply
refused sheet 3 reply
> import 0 line
refused sheet 4 length
> import 0 lines
refused sheet 16388 length
> import 0 last
imported 1 into 0
* data 3 has 16384
"#;

/// A user with a name of 25 bytes, whose message has a text of 16,384 bytes, and whose second one has a byte more.
pub const POSTED: &str = r#"
* board B
> enroll "Abcdefgh ijklmnop qrstuvwx" - 0
refused name
> enroll "Abcdefgh ijklmnop qrstuvw" n all
user 5 Abcdefgh ijklmnop qrstuvw
* blocks rep
TESTBBS
 0      09-09-0101:46BOB RAY                  ABCDEFGH IJKLMNOP QRSTUVWHello                                0       129   \xE1\0\0\x01\0
* add rep 16383 x
* add rep 1 \xE3
* blocks over
 0      09-09-0101:46BOB RAY                  ABCDEFGH IJKLMNOP QRSTUVWHello                                0       130   \xE1\0\0\x01\0
* add over 16384 x
* add over 1 \xE3
* add over 127 \x20
* join rep 1 over
> upload "Abcdefgh ijklmnop qrstuvw" rep
1 posted 0 1
2 refused length
posted 1 refused 1
* data 3 has 16384
* data 2 from 1100 \x02\0\0\0\x19\0\0\0Abcdefgh ijklmnop qrstuvw
"#;

/// Net mail to a name of 36 bytes at an address whose numbers are the greatest, to a name of 37, and to each number that
/// is one greater.
pub const ADDRESSED: &str = r#"
* put setup board: Net\ncity: Springfield\nphone: 555-0100\nsysop: Sam Sysop\nbbsid: NET\nserial: 1\nzones: 32767\nconference: 1 net - NET\n
> init setup
made 1 conferences
> enroll "Ann Lee" n all
user 1 Ann Lee
* blocks rep
NET
 1      09-09-0101:46ANN                      ANN LEE                  Hello                                0       2     \xE1\x01\0\x01\0
Abcdefghijklmnopqrstuvwxyz Abcdefghi@32767:32767/32767.32767\xE3
 1      09-09-0101:46ANN                      ANN LEE                  Hello                                0       2     \xE1\x01\0\x01\0
Abcdefghijklmnopqrstuvwxyz Abcdefghix@32767:32767/32767.32767\xE3
 1      09-09-0101:46ANN                      ANN LEE                  Hello                                0       2     \xE1\x01\0\x01\0
Bob Ray@32768:32767/32767.32767\xE3
 1      09-09-0101:46ANN                      ANN LEE                  Hello                                0       2     \xE1\x01\0\x01\0
Bob Ray@32767:32768/32767.32767\xE3
 1      09-09-0101:46ANN                      ANN LEE                  Hello                                0       2     \xE1\x01\0\x01\0
Bob Ray@32767:32767/32768.32767\xE3
 1      09-09-0101:46ANN                      ANN LEE                  Hello                                0       2     \xE1\x01\0\x01\0
Bob Ray@32767:32767/32767.32768\xE3
 1      09-09-0101:46ANN                      ANN LEE                  Hello                                0       2     \xE1\x01\0\x01\0
Bob Ray@32766:32767/32767.32767\xE3
> upload "Ann Lee" rep
1 posted 1 1
2 refused address
3 refused address
4 refused address
5 refused address
6 refused address
7 refused zone
posted 1 refused 6
* data 2 from 1100 \x01\0\0\0\x17\0\0\x0032767:32767/32767.32767\x02\0\0\0\x07\0\0\0Ann Lee\x03\0\0\0\x24\0\0\0Abcdefghijklmnopqrstuvwxyz Abcdefghi
"#;
