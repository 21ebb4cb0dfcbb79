//! Boards of as many conferences, and of as many bytes, as there may be.

/// A board of 64 conferences, each with a letter to its one user; and a setup of 65, whose line 72 is one too many.
pub const MANY: &str = r#"
* put setup board: Many\ncity: Springfield\nphone: 555-0100\nsysop: Sam Sysop\nbbsid: MANY\nserial: 1\nzones:\n[[1 64 conference: # local - C#\n]]
* put more
* join more 1 setup
* add more 1 conference: 65 local - C65\n
* put sheet From: Bob Ray\nTo: Ann Lee\nSubject: Hello\n\nHi\n.\n
* put lines [[1 64 import # sheet\n]]check\n
> init more
refused setup 72 many
> init setup
made 64 conferences
> enroll "Ann Lee" - 65
refused noconference
> enroll "Ann Lee" - all
user 1 Ann Lee
> batch lines
[[1 64 imported 1 into #
]]board MANY
[[1 64 # C#: 1 slots, 1 live
]]1 users, 0 uploads, 77658 bytes
> export "Ann Lee" 63 out
packet 1: 63 messages
> export "Ann Lee" 64 out
packet 2: 64 messages
> list out/MESSAGES.DAT
[[1 64 # #/1 public BOB RAY > ANN LEE: Hello [1]
]]64 messages
> ack "Ann Lee" 2
acknowledged 2
> export "Ann Lee" 64 out
packet 3: 0 messages
> kill 64 1
killed 64 1
> import 65 sheet
refused noconference
"#;

/// A board of eight conferences, and sheets of 255 and 55 messages whose bodies are as long as they may be, with which
/// 2,906 bytes are free. A message of the last sheets has 128 bytes and its body.
pub const ROOM: &str = r#"
* put setup board: Full\ncity: Springfield\nphone: 555-0100\nsysop: Sam Sysop\nbbsid: FULL\nserial: 1\nzones:\n[[0 7 conference: # local - C#\n]]
* put longest From: Bob Ray\nTo: All\n\n
* add longest 16383 x
* add longest 1 \n.\n
* join long 255 longest
* join rest 55 longest
* put fits From: Bob Ray\nTo: All\n\n
* add fits 2777 x
* add fits 1 \n.\n
* put over From: Bob Ray\nTo: All\n\n
* add over 2778 x
* add over 1 \n.\n
* put lines init setup\n[[0 7 import # long\n]]import 7 rest\nimport 7 over\nimport 7 fits\ncheck\n
> batch lines
made 8 conferences
[[0 7 imported 255 into #
]]imported 55 into 7
refused size 34603009
imported 1 into 7
board FULL
[[0 6 # C#: 255 slots, 255 live
]]7 C7: 311 slots, 311 live
0 users, 0 uploads, 34603008 bytes
"#;

/// On that board nothing is added any more, and deleting goes on. With one byte more it isn't a board.
pub const FULL: &str = r#"* put lines enroll A - 0\nkill 7 311\nkill 7 311\nimport 7 over\ncheck\n
> batch lines
refused size 34603184
killed 7 311
refused nomessage
refused size 34605915
board FULL
[[0 6 # C#: 255 slots, 255 live
]]7 C7: 311 slots, 310 live
0 users, 0 uploads, 34603008 bytes
* damage 3 longer 1 120
> check
damaged 0 0 size
"#;
