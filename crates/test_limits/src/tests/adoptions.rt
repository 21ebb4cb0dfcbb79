//! Bases that are adopted: one that fills the board to its last byte, and ones with long runs of subfields.

/// A base of five messages, each of which takes 128 bytes and its text, on the board of `FILLED`, where 2,906 bytes are
/// free. The texts have 2,779, 1,000, 1,651, 1,650 and no bytes, and end where .JDT does.
pub const ADOPTED: &str = r#"* put front JAM\0\x01\0\0\0\x1A\0\0\0
* add front 48 \0
* put back \0\0\0\0\0\0\0\0\x02\0\0\0\x07\0\0\0Bob Ray\x03\0\0\0\x03\0\0\0All
* put base.JHR JAM\0
* add base.JHR 1020 \0
* join base.JHR 1 front
* add base.JHR 1 \0\0\0\0\xDB\n\0\0
* join base.JHR 1 back
* join base.JHR 1 front
* add base.JHR 1 \xF3\x06\0\0\xE8\x03\0\0
* join base.JHR 1 back
* join base.JHR 1 front
* add base.JHR 1 h\x04\0\0s\x06\0\0
* join base.JHR 1 back
* join base.JHR 1 front
* add base.JHR 1 i\x04\0\0r\x06\0\0
* join base.JHR 1 back
* join base.JHR 1 front
* add base.JHR 1 \xDB\n\0\0\0\0\0\0
* join base.JHR 1 back
* add base.JDT 2778 x
* add base.JDT 1 \r
* put base.JDX \0\0\0\0\0\x04\0\0\0\0\0\0f\x04\0\0\0\0\0\0\xCC\x04\0\0\0\0\0\02\x05\0\0\0\0\0\0\x98\x05\0\0
* put lines adopt 7 base\nadopt 7 base\ncheck\n
> batch lines
1 refused full
2 posted 7 311
3 refused full
4 posted 7 312
5 refused full
posted 2 refused 3
1 refused full
2 refused full
3 refused full
4 refused full
5 refused full
posted 0 refused 5
board FULL
[[0 6 # C#: 255 slots, 255 live
]]7 C7: 312 slots, 312 live
0 users, 0 uploads, 34603008 bytes
"#;

/// A header with 65,535 bytes of subfields, of which the last has the sender and the others nothing; and one with as many
/// as a file may have.
pub const SUBFIELDS: &str = r#"
* board B
* put base JAM\0
* add base 1020 \0
* put long.JHR
* join long.JHR 1 base
* add long.JHR 1 JAM\0\x01\0\0\0\xFF\xFF\0\0
* add long.JHR 64 \0
* add long.JHR 8190 \xD0\x07\0\0\0\0\0\0
* add long.JHR 1 \x02\0\0\0\x07\0\0\0Bob Ray
* put long.JDT
* put long.JDX \0\0\0\0\0\x04\0\0
> adopt 0 long
1 posted 0 1
posted 1 refused 0
* put most.JHR
* join most.JHR 1 base
* add most.JHR 1 JAM\0\x01\0\0\0\xB4\xFB\xFF\0
* add most.JHR 64 \0
* add most.JHR 2097013 \xD0\x07\0\0\0\0\0\0
* add most.JHR 1 \x02\0\0\0\x04\0\0\0Anna
* length most.JHR 16777216
* put most.JDT
* put most.JDX \0\0\0\0\0\x04\0\0
> adopt 0 most
1 posted 0 2
posted 1 refused 0
> export "Ann Lee" 10 out
packet 1: 2 messages
> list out/MESSAGES.DAT
1 0/1 public BOB RAY > ALL:  [0]
2 0/2 public ANNA > ALL:  [0]
2 messages
"#;
