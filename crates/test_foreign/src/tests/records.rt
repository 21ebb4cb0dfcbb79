//! Records of .JDX: what becomes of each, in order. A case is what it asks, and then changes of the files of two
//! messages, three words each (`ForeignFiles::change`).
use super::files::ForeignFiles;
use super::lines::{all_found, first_message};
use byte_lists::Bytes;
use std::alloc::Global;
use test_cases::{Miss, expect_cases};

/// Finds for each record that isn't passed over its place, and the rule by which it is refused, or its msgid and the
/// length of its body.
fn records_after(alloc: Global, words: &[Bytes]) -> Result<String, Miss> {
    Ok(all_found(alloc, &ForeignFiles::changed(alloc, words)?.read(alloc)?)?)
}

/// Finds the message of the first record.
fn message_after(alloc: Global, words: &[Bytes]) -> Result<String, Miss> {
    Ok(first_message(alloc, &ForeignFiles::changed(alloc, words)?.read(alloc)?)?)
}

/// What is found of a case, which begins with what it asks.
fn found(alloc: Global, words: &[Bytes]) -> Result<String, Miss> {
    let [asked, words @ ..] = words else {
        return Err(Miss::Words);
    };
    match asked.as_slice() {
        b"all" => records_after(alloc, words),
        b"first" => message_after(alloc, words),
        _ => Err(Miss::Words),
    }
}

const CASES: &str = r#"
# The first header is at 1024 (400h) and its subfields at 1100, the second at 1158 (486h).
# As they stand, and with the last text cut short.
all => 1 "0.1.TESTBBS" 11, 2 "0.2.TESTBBS" 11
all jdt cut 21 => 1 "0.1.TESTBBS" 11, 2 Text
# The base header: two faults, and what is free.
all jhr cut 1023 => Short
all jhr cut 0 => Short
all jhr 0 j => Signature
all jhr cut 1023 jhr 0 j => Short
all jhr 4 \xFF\xFF\xFF\xFF\xFF => 1 "0.1.TESTBBS" 11, 2 "0.2.TESTBBS" 11
all jhr 24 \x01 => 1 "0.1.TESTBBS" 11, 2 "0.2.TESTBBS" 11
# The index: cut, in another order, with one header twice, and with records that name none.
all jdx cut 15 => 1 "0.1.TESTBBS" 11
all jdx add \xFF\xFF\xFF => 1 "0.1.TESTBBS" 11, 2 "0.2.TESTBBS" 11
all jdx cut 7 => none
all jdx 4 \x86\x04 jdx 12 \0\x04 => 1 "0.2.TESTBBS" 11, 2 "0.1.TESTBBS" 11
all jdx 4 \x86\x04 => 1 "0.2.TESTBBS" 11, 2 "0.2.TESTBBS" 11
all jdx 0 \0\0\0\0 => 1 "0.1.TESTBBS" 11, 2 "0.2.TESTBBS" 11
all jdx 0 \xFF\xFF\xFF\xFF\xFF\xFF\xFF\xFF => 2 "0.2.TESTBBS" 11
all jdx 4 \xFF\xFF\xFF\xFF => 1 Header, 2 "0.2.TESTBBS" 11
all jdx 0 \xFF\xFF\xFF\xFF => 1 "0.1.TESTBBS" 11, 2 "0.2.TESTBBS" 11
all jdx 4 \x0C\x05\0\0 => 1 Header, 2 "0.2.TESTBBS" 11
all jhr 100 JAM\0\x01 jdx 4 d\0\0\0 => 1 "" 0, 2 "0.2.TESTBBS" 11
# The header: cut, and with another signature or revision.
all jhr cut 1233 => 1 "0.1.TESTBBS" 11, 2 Header
all jhr cut 1234 => 1 "0.1.TESTBBS" 11, 2 Subfields
all jhr 1158 j => 1 "0.1.TESTBBS" 11, 2 Header
all jhr 1162 \x02 => 1 "0.1.TESTBBS" 11, 2 Header
all jhr 1163 \x01 => 1 "0.1.TESTBBS" 11, 2 Header
all jhr 1164 \x01\x01 => 1 "0.1.TESTBBS" 11, 2 "0.2.TESTBBS" 11
# Deleted headers, which are judged by the rule of the header alone.
all jhr 1079 \x80 => 2 "0.2.TESTBBS" 11
all jhr 1079 \x80 jhr 1032 9 => 2 "0.2.TESTBBS" 11
all jhr 1079 \x80 jhr 1028 \x02 => 1 Header, 2 "0.2.TESTBBS" 11
# Subfields.
all jhr 1166 ; => 1 "0.1.TESTBBS" 11, 2 Subfields
all jhr 1032 ; => 1 Subfields, 2 "0.2.TESTBBS" 11
all jhr 1032 9 => 1 Subfields, 2 "0.2.TESTBBS" 11
all jhr 1032 \xFF\xFF\xFF\xFF => 1 Subfields, 2 "0.2.TESTBBS" 11
all jhr 1032 9 jdt cut 5 => 1 Subfields, 2 Text
all jhr 1104 \xFF\xFF\xFF\xFF => 1 Subfields, 2 "0.2.TESTBBS" 11
# What of a header is free.
all jhr 1048 \xFF\xFF\xFF\xFF jhr 1072 \xFF\xFF => 1 "0.1.TESTBBS" 11, 2 "0.2.TESTBBS" 11
# Texts.
all jhr 1088 \x16 => 1 "0.1.TESTBBS" 22, 2 "0.2.TESTBBS" 11
all jhr 1088 \x17 => 1 Text, 2 "0.2.TESTBBS" 11
all jhr 1084 \x16\0\0\0\0 => 1 "0.1.TESTBBS" 0, 2 "0.2.TESTBBS" 11
all jhr 1084 \x17\0\0\0\0 => 1 Text, 2 "0.2.TESTBBS" 11
all jhr 1084 \xFF\xFF\xFF\xFF\xFF\xFF\xFF\xFF => 1 Text, 2 "0.2.TESTBBS" 11
all jhr 1088 \n => 1 "0.1.TESTBBS" 11, 2 "0.2.TESTBBS" 11
all jdt 10 \n\n => 1 "0.1.TESTBBS" 11, 2 "0.2.TESTBBS" 10
# Lengths: the CR that is added counts, and line feeds do not.
all jdt add a\{16383} jhr 1084 \x16\0\0\0\xFF? => 1 "0.1.TESTBBS" 16384, 2 "0.2.TESTBBS" 11
all jdt add a\{16384} jhr 1084 \x16\0\0\0\0@ => 1 Length, 2 "0.2.TESTBBS" 11
all jdt add a\{16383} jdt add \r jhr 1084 \x16\0\0\0\0@ => 1 "0.1.TESTBBS" 16384, 2 "0.2.TESTBBS" 11
all jdt add a\{16383} jdt add \n jhr 1084 \x16\0\0\0\0@ => 1 "0.1.TESTBBS" 16384, 2 "0.2.TESTBBS" 11
all jdt add \n\{30000} jhr 1084 \x16\0\0\00u => 1 "0.1.TESTBBS" 0, 2 "0.2.TESTBBS" 11
all jdt add \n\{30000} jhr 1084 \x15\0\0\00u => 1 "0.1.TESTBBS" 1, 2 "0.2.TESTBBS" 11
# The first message.
first => "Bob Ray" "All" "Hello" "0.1.TESTBBS" "" "" "" "First line\r" 1000000000 0 1000000000 true false false false
first jhr 100 JAM\0\x01 jdx 4 d\0\0\0 => "Unknown" "All" "" "" "" "" "" "" 0 0 0 false false false false
first jhr 1032 \0 => "Unknown" "All" "" "" "" "" "" "First line\r" 1000000000 0 1000000000 true false false false
first jhr 1032 - => "Bob Ray" "All" "" "0.1.TESTBBS" "" "" "" "First line\r" 1000000000 0 1000000000 true false false false
first jhr 1100 \x07 => "Unknown" "All" "Hello" "0.1.TESTBBS" "" "" "" "First line\r" 1000000000 0 1000000000 true false false false
first jhr 1102 \x07\x07 => "Bob Ray" "All" "Hello" "0.1.TESTBBS" "" "" "" "First line\r" 1000000000 0 1000000000 true false false false
first jhr 1101 \x01 => "Unknown" "All" "Hello" "0.1.TESTBBS" "" "" "" "First line\r" 1000000000 0 1000000000 true false false false
first jhr 1115 \x02 => "Bob Ray" "All" "Hello" "0.1.TESTBBS" "" "" "" "First line\r" 1000000000 0 1000000000 true false false false
first jhr 1100 \x03 => "Unknown" "Bob Ray" "Hello" "0.1.TESTBBS" "" "" "" "First line\r" 1000000000 0 1000000000 true false false false
first jhr 1064 \x02 jhr 1076 \x0C\0\0\x01 => "Bob Ray" "All" "Hello" "0.1.TESTBBS" "" "" "" "First line\r" 1000000000 2 1000000000 false true true false
first jdt 0 \n jdt 10 \n => "Bob Ray" "All" "Hello" "0.1.TESTBBS" "" "" "" "irst line\r" 1000000000 0 1000000000 true false false false
"#;

#[test]
fn records_are_judged_in_order(rt: HostRuntime) -> Result<(), Miss> {
    expect_cases(rt.alloc(), CASES, found)
}
