//! A conference of as many slots as there may be.

/// A conference that `sample` fills, what 5,000 messages of the seed 1 and 4,999 of the seed 2 are, and that is packed
/// when it is full: its slots stay as many.
pub const SAMPLED: &str = r#"
* put setup board: One\ncity: Springfield\nphone: 555-0100\nsysop: Sam Sysop\nbbsid: ONE\nserial: 1\nzones:\nconference: 0 local - C0\n
* put one From: Bob Ray\nTo: All\n\nHi\n.\n
* put lines init setup\nenroll "Ann Lee" n all\nsample 1 5000\nsample 3 5000\nsample 2 4999\nsample 3 1\nimport 0 one\ncheck\n
> batch lines
made 1 conferences
user 1 Ann Lee
sampled 5000
refused slots 10000
sampled 4999
refused slots 10000
refused slots 10000
board ONE
0 C0: 9999 slots, 9999 live
1 users, 0 uploads, 2420004 bytes
> export "Ann Lee" 2000 out
packet 1: 2000 messages
> kill 0 9999
killed 0 9999
> kill 0 10000
refused nomessage
> pack 0
packed 0: 1
> pack 0
packed 0: 0
> kill 0 9999
refused nomessage
> sample 3 1
refused slots 10000
"#;
