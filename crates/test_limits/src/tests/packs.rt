//! A full conference of a full board that is packed.

/// A conference of 9,999 messages that fill the board to its last byte: a message takes 124 bytes, the digits of its number
/// and its body, which has 3,332 bytes but for the last, whose body has 9,807. Nothing is packed, and then each second
/// message, whose index record alone stays.
pub const MOST: &str = r#"
* put setup board: One\ncity: Springfield\nphone: 555-0100\nsysop: Sam Sysop\nbbsid: ONE\nserial: 1\nzones:\nconference: 0 local - C0\n
* put message From: Bob Ray\nTo: All\n\n
* add message 3331 x
* add message 1 \n.\n
* join sheet 1249 message
* join rest 6 message
* put last From: Bob Ray\nTo: All\n\n
* add last 9806 x
* add last 1 \n.\n
* put lines init setup\n[[1 8 import 0 sheet\n]]import 0 rest\nimport 0 last\npack 0\ncheck\n
> batch lines
made 1 conferences
[[1 8 imported 1249 into 0
]]imported 6 into 0
imported 1 into 0
packed 0: 0
board ONE
0 C0: 9999 slots, 9999 live
0 users, 0 uploads, 34603008 bytes
* put lines kill 0 2\nkill 0 4\nkill 0 6\nkill 0 8\n[[1 999 kill 0 #0\nkill 0 #2\nkill 0 #4\nkill 0 #6\nkill 0 #8\n]]pack 0\npack 0\ncheck\n
> batch lines
killed 0 2
killed 0 4
killed 0 6
killed 0 8
[[1 999 killed 0 #0
killed 0 #2
killed 0 #4
killed 0 #6
killed 0 #8
]]packed 0: 4999
packed 0: 0
board ONE
0 C0: 9999 slots, 5000 live
0 users, 0 uploads, 17347012 bytes
"#;
