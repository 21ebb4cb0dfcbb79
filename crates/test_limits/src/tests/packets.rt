//! MESSAGES.DAT as long as it may be, and one byte longer.

/// A packet of 163,839 messages of two blocks, and one of a header alone.
pub const MANY: &str = r#"
* blocks said
 1      09-09-0101:46ALL                      BOB RAY                  Hello                                0       2     \xE1\0\0\x01\0
First line\xE3
* blocks bare
 1      09-09-0101:46ALL                      BOB RAY                  Hello                                0       1     \xE1\0\0\x01\0
* blocks big/MESSAGES.DAT
Produced by qwkdoor, packet 1
* join big/MESSAGES.DAT 163839 said
* join big/MESSAGES.DAT 1 bare
* length big/MESSAGES.DAT 41943040
> list big/MESSAGES.DAT
[[1 163839 # 0/1 public BOB RAY > ALL: Hello [1]
]]163840 0/1 public BOB RAY > ALL: Hello [0]
163840 messages
"#;

/// The same length as 327,679 headers alone, which are counted and of which the last is shown.
pub const HEADERS: &str = r#"
* folders
* blocks bare
 1      09-09-0101:46ALL                      BOB RAY                  Hello                                0       1     \xE1\0\0\x01\0
* blocks big/MESSAGES.DAT
Produced by qwkdoor, packet 1
* join big/MESSAGES.DAT 327679 bare
* put big/CONTROL.DAT
* join big/CONTROL.DAT 1 out/CONTROL.DAT
* length big/MESSAGES.DAT 41943040
> scan big/MESSAGES.DAT
327679 messages
> read big 327679
From: BOB RAY
To: ALL
Subject: Hello
Date: 09-09-01 01:46
Conference: 0
Number: 1
Reference: 0

> read big 327680
refused nomessage
* add big/MESSAGES.DAT 1 \x20
> list big/MESSAGES.DAT
refused toolarge big/MESSAGES.DAT
> scan big/MESSAGES.DAT
refused toolarge big/MESSAGES.DAT
> read big
refused toolarge big/MESSAGES.DAT
> read big 1
refused toolarge big/MESSAGES.DAT
"#;

/// One message of 327,678 blocks of text, whose one line is as long as fits.
pub const LINE: &str = r#"
* folders
* put big/CONTROL.DAT
* join big/CONTROL.DAT 1 out/CONTROL.DAT
* blocks big/MESSAGES.DAT
Produced by qwkdoor, packet 1
 1      09-09-0101:46ALL                      BOB RAY                  Hello                                0       327679\xE1\0\0\x01\0
* add block 128 x
* join big/MESSAGES.DAT 327677 block
* add big/MESSAGES.DAT 127 x
* add big/MESSAGES.DAT 1 \xE3
* length big/MESSAGES.DAT 41943040
> read big
board Test Board
user ANN LEE
1 0/1 public BOB RAY > ALL: Hello [1]
1 messages
> scan big/MESSAGES.DAT
1 messages
"#;
