//! A reply packet of as many messages as fit.

/// A sheet of 4,095 messages is composed, of which the first has two blocks of text and the others one.
pub const MOST: &str = r#"
* folders
* put short From: Ann Lee\nTo: Bob Ray\nSubject: Hello\n\nHi\n.\n
* put sheet From: Ann Lee\nTo: Bob Ray\nSubject: Hello\n\n
* add sheet 128 x
* add sheet 1 \n.\n
* join sheet 4094 short
* put text Thanks\n
> compose out 0 sheet TESTBBS.MSG
composed 4095, 4095 in TESTBBS.MSG
* length TESTBBS.MSG 1048576
> compose out 0 short TESTBBS.MSG
refused toolarge TESTBBS.MSG
> reply out 1 text TESTBBS.MSG
refused toolarge TESTBBS.MSG
* length TESTBBS.MSG 1048576
"#;
