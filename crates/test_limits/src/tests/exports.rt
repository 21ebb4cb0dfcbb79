//! Packets of as many messages as a packet has at most, short and long, and the last number of a packet.

/// Two thousand messages are exported.
pub const MOST: &str = r#"
* board B
* add sheet 2001 From: Bob Ray\nTo: All\nSubject: Hello\n\nFirst line\n.\n
> import 0 sheet
imported 2001 into 0
> export "Ann Lee" 2001 out
refused limit
> export "Ann Lee" 2000 out
packet 1: 2000 messages
> list out/MESSAGES.DAT
[[1 2000 # 0/# public BOB RAY > ALL: Hello [1]
]]2000 messages
> ack "Ann Lee" 1
acknowledged 1
> export "Ann Lee" 2000 out
packet 2: 1 messages
> list out/MESSAGES.DAT
1 0/2001 public BOB RAY > ALL: Hello [1]
1 messages
"#;

/// Two thousand messages with bodies as long as they may be, each of 129 blocks in the packet, of which the last is shown.
pub const LONGEST: &str = r#"
* board B
* put longest From: Bob Ray\nTo: All\nSubject: Hello\n\n
* add longest 16383 x
* add longest 1 \n.\n
* join long 255 longest
* join rest 215 longest
* put lines [[1 7 import 0 long\n]]import 0 rest\n
> batch lines
[[1 7 imported 255 into 0
]]imported 215 into 0
> export "Ann Lee" 2000 out
packet 1: 2000 messages
* length out/MESSAGES.DAT 33024128
> list out/MESSAGES.DAT
[[1 2000 # 0/# public BOB RAY > ALL: Hello [1]
]]2000 messages
> scan out/MESSAGES.DAT
2000 messages
> read out 2000
From: BOB RAY
To: ALL
Subject: Hello
Date: 09-09-01 01:46
Conference: 0
Number: 2000
Reference: 0

[[1 16383 x]]
"#;

/// The last packet of Ann's becomes the one before the greatest number: the records before the users' have 119 bytes,
/// and her name and her flags 10.
pub const NUMBERS: &str = r#"
* board B
* damage 0 becomes 129 254
* damage 0 becomes 130 255
* damage 0 becomes 131 255
* damage 0 becomes 132 255
> export "Ann Lee" 10 out
packet 4294967295: 0 messages
* packet out/MESSAGES.DAT
Produced by qwkdoor, packet 4294967295
> export "Ann Lee" 10 out
refused packets
> export "Ann Lee" 0 out
refused limit
> ack "Ann Lee" 4294967294
refused nopacket 4294967295
> ack "Ann Lee" 4294967295
acknowledged 4294967295
> export "Ann Lee" 10 out
refused packets
> export "Bob Ray" 10 out
packet 1: 0 messages
"#;
