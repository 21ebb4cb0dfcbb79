//! A board that is filled but for a few bytes, which messages of other tools then take.

/// A board of eight conferences on which 2,906 bytes are free.
pub const FILLED: &str = r#"
* put setup board: Full\ncity: Springfield\nphone: 555-0100\nsysop: Sam Sysop\nbbsid: FULL\nserial: 1\nzones:\n[[0 7 conference: # echo - C#\n]]
* put longest From: Bob Ray\nTo: All\n\n
* add longest 16383 x
* add longest 1 \n.\n
* join long 255 longest
* join rest 55 longest
* put lines init setup\n[[0 7 import # long\n]]import 7 rest\ncheck\n
> batch lines
made 8 conferences
[[0 7 imported 255 into #
]]imported 55 into 7
board FULL
[[0 6 # C#: 255 slots, 255 live
]]7 C7: 310 slots, 310 live
0 users, 0 uploads, 34600102 bytes
"#;
