//! Batches, sheets, setups and texts as long as they may be, and one byte longer.

/// A batch of as many commands as fit, where there is no board.
pub const MOST: &str = r#"
* add lines 174762 check\n
* add lines 1 # 2\n
* length lines 1048576
> batch lines
[[1 174761 refused notmade
]]refused notmade
* add lines 1 \n
> batch lines
refused toolarge lines
"#;

/// A batch as long as it may be that makes a board and works on it.
pub const CHECKED: &str = r#"
* put setup board: One\ncity: Springfield\nphone: 555-0100\nsysop: Sam Sysop\nbbsid: ONE\nserial: 1\nzones:\nconference: 0 local - C0\n
* put lines init setup\n
* add lines 69904 kill 0 1\ncheck\n
* add lines 1 # 23\n
* length lines 1048576
> batch lines
made 1 conferences
[[1 69903 refused nomessage
board ONE
0 C0: 0 slots, 0 live
0 users, 0 uploads, 1100 bytes
]]refused nomessage
board ONE
0 C0: 0 slots, 0 live
0 users, 0 uploads, 1100 bytes
"#;

/// A setup, a sheet of as many messages as fit, and a text, each as long as a file may be, and then a byte longer.
pub const FILES: &str = r#"
* folders
* add setup 1 board: One\ncity: Springfield\nphone: 555-0100\nsysop: Sam Sysop\nbbsid: ONE\nserial: 1\nzones:\n
* add setup 1 conference: 0 local - C0\n
* add line 63 #
* add line 1 \n
* join setup 65534 line
* add setup 13 \n
* length setup 4194304
* put longer
* join longer 1 setup
* add longer 1 \n
> init longer
refused toolarge longer
> init setup
made 1 conferences
* add sheet 279620 From:a\nTo:b\n\n.\n
* add sheet 4 \n
* length sheet 4194304
> import 0 sheet
refused slots 279620
* add text 4194304 x
> reply out 1 text R.MSG
refused text 1
* add sheet 1 \n
* add text 1 x
> import 0 sheet
refused toolarge sheet
> reply out 1 text R.MSG
refused toolarge text
"#;
