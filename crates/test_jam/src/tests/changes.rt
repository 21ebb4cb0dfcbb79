//! A base with its files, and its changes.
ghost use Rattle.std.specs.Prelude.{◌≡◌, ◌≤◌, ◌<◌, ◌^◌, length, All, IfOk, IsSome, IsTrue};
ghost use Rattle.byte_lists.specs.Byte.{IsByte};
ghost use Rattle.jam_base.specs.Contents.{reader_place};
ghost use Rattle.jam_layout.specs.Fields.{is_text};
ghost use Rattle.jam_layout.specs.Layout.{files_size, layout};
ghost use Rattle.jam_layout.specs.Messages.{EmptyOr, IsMessage};

use super::stage::Stage;
use super::texts::{Subject, expect, number_of, parted};
use byte_lists::Bytes;
use jam_base::{Base, BaseChange, laws};
use jam_records::{Kind, Message, Messages};
use std::alloc::{AllocError, Global};
use std::test::Fail;

/// Changes of the base of four readers in place 0. What is found of a change is how many slots, live messages and bytes
/// there are then, and `unchanged` where it has no patches. Where it is refused, the reason is found. `file` looks at
/// one of the base's files, which the patches of all changes since `new` made.
///
/// Messages are named by their numbers, with that of the message that they answer. `fill` appends so many copies of the
/// first. `cost` looks whether a commit of the last change writes at most so many bytes.
const TABLE: &str = r#"
new = 0 0 1088
file 2 JAM\0\0\xCA\x9A;\0\0\0\0\0\0\0\0\xFF\xFF\xFF\xFF\x01\z\0\0\0 = same
file 3  = same
file 4  = same
file 5 \x99W\x03\x9F\x01\0\0\0\0\0\0\0\0\0\0\0\x91d\x92\xC6\x02\0\0\0\0\0\0\0\0\0\0\0#9\xC6m\x03\0\0\0\0\0\0\0\0\0\0\0\xAA\xFEL\x8E\x04\0\0\0\0\0\0\0\0\0\0\0 = same
join = 0 0 1104
cost 58 = true
pointer 5 = Some(0)
file 5 \x99W\x03\x9F\x01\0\0\0\0\0\0\0\0\0\0\0\x91d\x92\xC6\x02\0\0\0\0\0\0\0\0\0\0\0#9\xC6m\x03\0\0\0\0\0\0\0\0\0\0\0\xAA\xFEL\x8E\x04\0\0\0\0\0\0\0\0\0\0\0\xE8\xC3gg\x05\0\0\0\0\0\0\0\0\0\0\0 = same
new = 0 0 1088
append = 0 0 1088 unchanged
append 1 2 = 2 2 1394
file 2 JAM\0\0\xCA\x9A;\x01\0\0\0\x02\0\0\0\xFF\xFF\xFF\xFF\x01\z\0\0\0JAM\0\x01\0\0\0:\0\0\0\0\0\0\0qc\x95\xF7\xFF\xFF\xFF\xFF\0\0\0\0\0\0\0\0\0\0\0\0\0\xCA\x9A;\0\0\0\0\0\xCA\x9A;\x01\0\0\0\x01\0\x80\0\0\0\0\0\0\0\0\0\x0B\0\0\0\xFF\xFF\xFF\xFF\0\0\0\0\x02\0\0\0\x07\0\0\0Bob Ray\x03\0\0\0\x03\0\0\0All\x04\0\0\0\x0B\0\0\00.1.TESTBBS\x06\0\0\0\x05\0\0\0HelloJAM\0\x01\0\0\0:\0\0\0\0\0\0\0\xB4_\x18\xCE\xFF\xFF\xFF\xFF\0\0\0\0\0\0\0\0\0\0\0\0\0\xCA\x9A;\0\0\0\0\0\xCA\x9A;\x02\0\0\0\x01\0\x80\0\0\0\0\0\x0B\0\0\0\x0B\0\0\0\xFF\xFF\xFF\xFF\0\0\0\0\x02\0\0\0\x07\0\0\0Bob Ray\x03\0\0\0\x03\0\0\0All\x04\0\0\0\x0B\0\0\00.2.TESTBBS\x06\0\0\0\x05\0\0\0Hello = same
file 3 First line\rFirst line\r = same
file 4 "\x8E\xE7\xC4\0\x04\0\0"\x8E\xE7\xC4\x86\x04\0\0 = same
file 5 \x99W\x03\x9F\x01\0\0\0\0\0\0\0\0\0\0\0\x91d\x92\xC6\x02\0\0\0\0\0\0\0\0\0\0\0#9\xC6m\x03\0\0\0\0\0\0\0\0\0\0\0\xAA\xFEL\x8E\x04\0\0\0\0\0\0\0\0\0\0\0 = same
point 2 2 = 2 2 1394
pointer 2 = Some(2)
pointer 1 = Some(0)
file 5 \x99W\x03\x9F\x01\0\0\0\0\0\0\0\0\0\0\0\x91d\x92\xC6\x02\0\0\0\x02\0\0\0\x02\0\0\0#9\xC6m\x03\0\0\0\0\0\0\0\0\0\0\0\xAA\xFEL\x8E\x04\0\0\0\0\0\0\0\0\0\0\0 = same
new = 0 0 1088
append 1 = 1 1 1241
append 2<1 3<1 4<1 = 4 4 1757
reply 0 = 0
reply 1 = 0
reply 2 = 1
reply 3 = 1
reply 4 = 1
reply 5 = 0
file 2 JAM\0\0\xCA\x9A;\x02\0\0\0\x04\0\0\0\xFF\xFF\xFF\xFF\x01\z\0\0\0JAM\0\x01\0\0\0:\0\0\0\0\0\0\0qc\x95\xF7\xFF\xFF\xFF\xFF\0\0\0\0\x02\0\0\0\0\0\0\0\0\xCA\x9A;\0\0\0\0\0\xCA\x9A;\x01\0\0\0\x01\0\x80\0\0\0\0\0\0\0\0\0\x0B\0\0\0\xFF\xFF\xFF\xFF\0\0\0\0\x02\0\0\0\x07\0\0\0Bob Ray\x03\0\0\0\x03\0\0\0All\x04\0\0\0\x0B\0\0\00.1.TESTBBS\x06\0\0\0\x05\0\0\0HelloJAM\0\x01\0\0\0M\0\0\0\0\0\0\0\xB4_\x18\xCEqc\x95\xF7\x01\0\0\0\0\0\0\0\x03\0\0\0\0\xCA\x9A;\0\0\0\0\0\xCA\x9A;\x02\0\0\0\x01\0\x80\0\0\0\0\0\x0B\0\0\0\x0B\0\0\0\xFF\xFF\xFF\xFF\0\0\0\0\x02\0\0\0\x07\0\0\0Bob Ray\x03\0\0\0\x03\0\0\0All\x04\0\0\0\x0B\0\0\00.2.TESTBBS\x05\0\0\0\x0B\0\0\00.1.TESTBBS\x06\0\0\0\x05\0\0\0HelloJAM\0\x01\0\0\0M\0\0\0\0\0\0\0\xF7Kc\xD9qc\x95\xF7\x01\0\0\0\0\0\0\0\x04\0\0\0\0\xCA\x9A;\0\0\0\0\0\xCA\x9A;\x03\0\0\0\x01\0\x80\0\0\0\0\0\x16\0\0\0\x0B\0\0\0\xFF\xFF\xFF\xFF\0\0\0\0\x02\0\0\0\x07\0\0\0Bob Ray\x03\0\0\0\x03\0\0\0All\x04\0\0\0\x0B\0\0\00.3.TESTBBS\x05\0\0\0\x0B\0\0\00.1.TESTBBS\x06\0\0\0\x05\0\0\0HelloJAM\0\x01\0\0\0M\0\0\0\0\0\0\0>&\x02\xBDqc\x95\xF7\x01\0\0\0\0\0\0\0\0\0\0\0\0\xCA\x9A;\0\0\0\0\0\xCA\x9A;\x04\0\0\0\x01\0\x80\0\0\0\0\0!\0\0\0\x0B\0\0\0\xFF\xFF\xFF\xFF\0\0\0\0\x02\0\0\0\x07\0\0\0Bob Ray\x03\0\0\0\x03\0\0\0All\x04\0\0\0\x0B\0\0\00.4.TESTBBS\x05\0\0\0\x0B\0\0\00.1.TESTBBS\x06\0\0\0\x05\0\0\0Hello = same
file 3 First line\rFirst line\rFirst line\rFirst line\r = same
file 4 "\x8E\xE7\xC4\0\x04\0\0"\x8E\xE7\xC4\x86\x04\0\0"\x8E\xE7\xC4\x1F\x05\0\0"\x8E\xE7\xC4\xB8\x05\0\0 = same
file 5 \x99W\x03\x9F\x01\0\0\0\0\0\0\0\0\0\0\0\x91d\x92\xC6\x02\0\0\0\0\0\0\0\0\0\0\0#9\xC6m\x03\0\0\0\0\0\0\0\0\0\0\0\xAA\xFEL\x8E\x04\0\0\0\0\0\0\0\0\0\0\0 = same
receive 0 4 Bob Ray = 4 4 1757 unchanged
kill 3 = 4 3 1757
file 2 JAM\0\0\xCA\x9A;\x03\0\0\0\x03\0\0\0\xFF\xFF\xFF\xFF\x01\z\0\0\0JAM\0\x01\0\0\0:\0\0\0\0\0\0\0qc\x95\xF7\xFF\xFF\xFF\xFF\0\0\0\0\x02\0\0\0\0\0\0\0\0\xCA\x9A;\0\0\0\0\0\xCA\x9A;\x01\0\0\0\x01\0\x80\0\0\0\0\0\0\0\0\0\x0B\0\0\0\xFF\xFF\xFF\xFF\0\0\0\0\x02\0\0\0\x07\0\0\0Bob Ray\x03\0\0\0\x03\0\0\0All\x04\0\0\0\x0B\0\0\00.1.TESTBBS\x06\0\0\0\x05\0\0\0HelloJAM\0\x01\0\0\0M\0\0\0\0\0\0\0\xB4_\x18\xCEqc\x95\xF7\x01\0\0\0\0\0\0\0\x03\0\0\0\0\xCA\x9A;\0\0\0\0\0\xCA\x9A;\x02\0\0\0\x01\0\x80\0\0\0\0\0\x0B\0\0\0\x0B\0\0\0\xFF\xFF\xFF\xFF\0\0\0\0\x02\0\0\0\x07\0\0\0Bob Ray\x03\0\0\0\x03\0\0\0All\x04\0\0\0\x0B\0\0\00.2.TESTBBS\x05\0\0\0\x0B\0\0\00.1.TESTBBS\x06\0\0\0\x05\0\0\0HelloJAM\0\x01\0\0\0M\0\0\0\0\0\0\0\xF7Kc\xD9qc\x95\xF7\x01\0\0\0\0\0\0\0\x04\0\0\0\0\xCA\x9A;\0\0\0\0\0\xCA\x9A;\x03\0\0\0\x01\0\x80\x80\0\0\0\0\x16\0\0\0\x0B\0\0\0\xFF\xFF\xFF\xFF\0\0\0\0\x02\0\0\0\x07\0\0\0Bob Ray\x03\0\0\0\x03\0\0\0All\x04\0\0\0\x0B\0\0\00.3.TESTBBS\x05\0\0\0\x0B\0\0\00.1.TESTBBS\x06\0\0\0\x05\0\0\0HelloJAM\0\x01\0\0\0M\0\0\0\0\0\0\0>&\x02\xBDqc\x95\xF7\x01\0\0\0\0\0\0\0\0\0\0\0\0\xCA\x9A;\0\0\0\0\0\xCA\x9A;\x04\0\0\0\x01\0\x80\0\0\0\0\0!\0\0\0\x0B\0\0\0\xFF\xFF\xFF\xFF\0\0\0\0\x02\0\0\0\x07\0\0\0Bob Ray\x03\0\0\0\x03\0\0\0All\x04\0\0\0\x0B\0\0\00.4.TESTBBS\x05\0\0\0\x0B\0\0\00.1.TESTBBS\x06\0\0\0\x05\0\0\0Hello = same
kill 0 = NoMessage
kill 3 = NoMessage
kill 5 = NoMessage
read = 4 3 1757
reply 0 = 0
reply 1 = 0
reply 2 = 1
reply 3 = 1
reply 4 = 1
reply 5 = 0
pointer 4 = Some(0)
pointer 5 = None
message 3 = "Bob Ray" "All" "Hello" "0.3.TESTBBS" "0.1.TESTBBS" "" "" "First line\r" 1000000000 0 1000000000 true false false true
new = 0 0 1088
append 1 = 1 1 1241
append 2<1 3<1 4<1 = 4 4 1757
receive 1 3 aLL = 4 4 1757
message 1 = "Bob Ray" "All" "Hello" "0.1.TESTBBS" "" "" "" "First line\r" 1000000000 0 1000000000 true false false false
message 2 = "Bob Ray" "All" "Hello" "0.2.TESTBBS" "0.1.TESTBBS" "" "" "First line\r" 1000000000 1000000100 1000000000 true false true false
message 3 = "Bob Ray" "All" "Hello" "0.3.TESTBBS" "0.1.TESTBBS" "" "" "First line\r" 1000000000 1000000100 1000000000 true false true false
message 4 = "Bob Ray" "All" "Hello" "0.4.TESTBBS" "0.1.TESTBBS" "" "" "First line\r" 1000000000 0 1000000000 true false false false
file 2 JAM\0\0\xCA\x9A;\x03\0\0\0\x04\0\0\0\xFF\xFF\xFF\xFF\x01\z\0\0\0JAM\0\x01\0\0\0:\0\0\0\0\0\0\0qc\x95\xF7\xFF\xFF\xFF\xFF\0\0\0\0\x02\0\0\0\0\0\0\0\0\xCA\x9A;\0\0\0\0\0\xCA\x9A;\x01\0\0\0\x01\0\x80\0\0\0\0\0\0\0\0\0\x0B\0\0\0\xFF\xFF\xFF\xFF\0\0\0\0\x02\0\0\0\x07\0\0\0Bob Ray\x03\0\0\0\x03\0\0\0All\x04\0\0\0\x0B\0\0\00.1.TESTBBS\x06\0\0\0\x05\0\0\0HelloJAM\0\x01\0\0\0M\0\0\0\0\0\0\0\xB4_\x18\xCEqc\x95\xF7\x01\0\0\0\0\0\0\0\x03\0\0\0\0\xCA\x9A;d\xCA\x9A;\0\xCA\x9A;\x02\0\0\0\x09\0\x80\0\0\0\0\0\x0B\0\0\0\x0B\0\0\0\xFF\xFF\xFF\xFF\0\0\0\0\x02\0\0\0\x07\0\0\0Bob Ray\x03\0\0\0\x03\0\0\0All\x04\0\0\0\x0B\0\0\00.2.TESTBBS\x05\0\0\0\x0B\0\0\00.1.TESTBBS\x06\0\0\0\x05\0\0\0HelloJAM\0\x01\0\0\0M\0\0\0\0\0\0\0\xF7Kc\xD9qc\x95\xF7\x01\0\0\0\0\0\0\0\x04\0\0\0\0\xCA\x9A;d\xCA\x9A;\0\xCA\x9A;\x03\0\0\0\x09\0\x80\0\0\0\0\0\x16\0\0\0\x0B\0\0\0\xFF\xFF\xFF\xFF\0\0\0\0\x02\0\0\0\x07\0\0\0Bob Ray\x03\0\0\0\x03\0\0\0All\x04\0\0\0\x0B\0\0\00.3.TESTBBS\x05\0\0\0\x0B\0\0\00.1.TESTBBS\x06\0\0\0\x05\0\0\0HelloJAM\0\x01\0\0\0M\0\0\0\0\0\0\0>&\x02\xBDqc\x95\xF7\x01\0\0\0\0\0\0\0\0\0\0\0\0\xCA\x9A;\0\0\0\0\0\xCA\x9A;\x04\0\0\0\x01\0\x80\0\0\0\0\0!\0\0\0\x0B\0\0\0\xFF\xFF\xFF\xFF\0\0\0\0\x02\0\0\0\x07\0\0\0Bob Ray\x03\0\0\0\x03\0\0\0All\x04\0\0\0\x0B\0\0\00.4.TESTBBS\x05\0\0\0\x0B\0\0\00.1.TESTBBS\x06\0\0\0\x05\0\0\0Hello = same
receive 0 4 All = 4 4 1757
file 2 JAM\0\0\xCA\x9A;\x04\0\0\0\x04\0\0\0\xFF\xFF\xFF\xFF\x01\z\0\0\0JAM\0\x01\0\0\0:\0\0\0\0\0\0\0qc\x95\xF7\xFF\xFF\xFF\xFF\0\0\0\0\x02\0\0\0\0\0\0\0\0\xCA\x9A;d\xCA\x9A;\0\xCA\x9A;\x01\0\0\0\x09\0\x80\0\0\0\0\0\0\0\0\0\x0B\0\0\0\xFF\xFF\xFF\xFF\0\0\0\0\x02\0\0\0\x07\0\0\0Bob Ray\x03\0\0\0\x03\0\0\0All\x04\0\0\0\x0B\0\0\00.1.TESTBBS\x06\0\0\0\x05\0\0\0HelloJAM\0\x01\0\0\0M\0\0\0\0\0\0\0\xB4_\x18\xCEqc\x95\xF7\x01\0\0\0\0\0\0\0\x03\0\0\0\0\xCA\x9A;d\xCA\x9A;\0\xCA\x9A;\x02\0\0\0\x09\0\x80\0\0\0\0\0\x0B\0\0\0\x0B\0\0\0\xFF\xFF\xFF\xFF\0\0\0\0\x02\0\0\0\x07\0\0\0Bob Ray\x03\0\0\0\x03\0\0\0All\x04\0\0\0\x0B\0\0\00.2.TESTBBS\x05\0\0\0\x0B\0\0\00.1.TESTBBS\x06\0\0\0\x05\0\0\0HelloJAM\0\x01\0\0\0M\0\0\0\0\0\0\0\xF7Kc\xD9qc\x95\xF7\x01\0\0\0\0\0\0\0\x04\0\0\0\0\xCA\x9A;d\xCA\x9A;\0\xCA\x9A;\x03\0\0\0\x09\0\x80\0\0\0\0\0\x16\0\0\0\x0B\0\0\0\xFF\xFF\xFF\xFF\0\0\0\0\x02\0\0\0\x07\0\0\0Bob Ray\x03\0\0\0\x03\0\0\0All\x04\0\0\0\x0B\0\0\00.3.TESTBBS\x05\0\0\0\x0B\0\0\00.1.TESTBBS\x06\0\0\0\x05\0\0\0HelloJAM\0\x01\0\0\0M\0\0\0\0\0\0\0>&\x02\xBDqc\x95\xF7\x01\0\0\0\0\0\0\0\0\0\0\0\0\xCA\x9A;d\xCA\x9A;\0\xCA\x9A;\x04\0\0\0\x09\0\x80\0\0\0\0\0!\0\0\0\x0B\0\0\0\xFF\xFF\xFF\xFF\0\0\0\0\x02\0\0\0\x07\0\0\0Bob Ray\x03\0\0\0\x03\0\0\0All\x04\0\0\0\x0B\0\0\00.4.TESTBBS\x05\0\0\0\x0B\0\0\00.1.TESTBBS\x06\0\0\0\x05\0\0\0Hello = same
receive 0 4 All = 4 4 1757 unchanged
new = 0 0 1088
append 1 = 1 1 1241
append 2<1 3<1 4<1 = 4 4 1757
acknowledge 2 2 All = 4 4 1757
message 1 = "Bob Ray" "All" "Hello" "0.1.TESTBBS" "" "" "" "First line\r" 1000000000 1000000100 1000000000 true false true false
message 2 = "Bob Ray" "All" "Hello" "0.2.TESTBBS" "0.1.TESTBBS" "" "" "First line\r" 1000000000 1000000100 1000000000 true false true false
message 3 = "Bob Ray" "All" "Hello" "0.3.TESTBBS" "0.1.TESTBBS" "" "" "First line\r" 1000000000 0 1000000000 true false false false
file 2 JAM\0\0\xCA\x9A;\x03\0\0\0\x04\0\0\0\xFF\xFF\xFF\xFF\x01\z\0\0\0JAM\0\x01\0\0\0:\0\0\0\0\0\0\0qc\x95\xF7\xFF\xFF\xFF\xFF\0\0\0\0\x02\0\0\0\0\0\0\0\0\xCA\x9A;d\xCA\x9A;\0\xCA\x9A;\x01\0\0\0\x09\0\x80\0\0\0\0\0\0\0\0\0\x0B\0\0\0\xFF\xFF\xFF\xFF\0\0\0\0\x02\0\0\0\x07\0\0\0Bob Ray\x03\0\0\0\x03\0\0\0All\x04\0\0\0\x0B\0\0\00.1.TESTBBS\x06\0\0\0\x05\0\0\0HelloJAM\0\x01\0\0\0M\0\0\0\0\0\0\0\xB4_\x18\xCEqc\x95\xF7\x01\0\0\0\0\0\0\0\x03\0\0\0\0\xCA\x9A;d\xCA\x9A;\0\xCA\x9A;\x02\0\0\0\x09\0\x80\0\0\0\0\0\x0B\0\0\0\x0B\0\0\0\xFF\xFF\xFF\xFF\0\0\0\0\x02\0\0\0\x07\0\0\0Bob Ray\x03\0\0\0\x03\0\0\0All\x04\0\0\0\x0B\0\0\00.2.TESTBBS\x05\0\0\0\x0B\0\0\00.1.TESTBBS\x06\0\0\0\x05\0\0\0HelloJAM\0\x01\0\0\0M\0\0\0\0\0\0\0\xF7Kc\xD9qc\x95\xF7\x01\0\0\0\0\0\0\0\x04\0\0\0\0\xCA\x9A;\0\0\0\0\0\xCA\x9A;\x03\0\0\0\x01\0\x80\0\0\0\0\0\x16\0\0\0\x0B\0\0\0\xFF\xFF\xFF\xFF\0\0\0\0\x02\0\0\0\x07\0\0\0Bob Ray\x03\0\0\0\x03\0\0\0All\x04\0\0\0\x0B\0\0\00.3.TESTBBS\x05\0\0\0\x0B\0\0\00.1.TESTBBS\x06\0\0\0\x05\0\0\0HelloJAM\0\x01\0\0\0M\0\0\0\0\0\0\0>&\x02\xBDqc\x95\xF7\x01\0\0\0\0\0\0\0\0\0\0\0\0\xCA\x9A;\0\0\0\0\0\xCA\x9A;\x04\0\0\0\x01\0\x80\0\0\0\0\0!\0\0\0\x0B\0\0\0\xFF\xFF\xFF\xFF\0\0\0\0\x02\0\0\0\x07\0\0\0Bob Ray\x03\0\0\0\x03\0\0\0All\x04\0\0\0\x0B\0\0\00.4.TESTBBS\x05\0\0\0\x0B\0\0\00.1.TESTBBS\x06\0\0\0\x05\0\0\0Hello = same
file 5 \x99W\x03\x9F\x01\0\0\0\0\0\0\0\0\0\0\0\x91d\x92\xC6\x02\0\0\0\x02\0\0\0\x02\0\0\0#9\xC6m\x03\0\0\0\0\0\0\0\0\0\0\0\xAA\xFEL\x8E\x04\0\0\0\0\0\0\0\0\0\0\0 = same
"#;

/// What a message costs in place; and a conference that is full, whose messages are all received.
const FULL: &str = r#"
new = 0 0 1088
fill 1000 = 1000 1000 154088
append 1001 = 1001 1001 154244
cost 1112 = true
new = 0 0 1088
fill 9999 = 9999 9999 1530935
append 1 = Slots(10000)
receive 0 9999 All = 9999 9999 1530935
message 1 = "Bob Ray" "All" "Hello" "0.1.TESTBBS" "" "" "" "First line\r" 1000000000 1000000100 1000000000 true false true false
message 9999 = "Bob Ray" "All" "Hello" "0.1.TESTBBS" "" "" "" "First line\r" 1000000000 1000000100 1000000000 true false true false
receive 0 9999 All = 9999 9999 1530935 unchanged
point 2 9999 = 9999 9999 1530935
pointer 2 = Some(9999)
read = 9999 9999 1530935
"#;

/// The moment at which each message was written.
const NOW: u32 = 1_000_000_000;

/// A text of these bytes.
fn text(alloc: Global, bytes: &[u8]) -> Result<Bytes, AllocError>
    ensures same { IfOk result (λ text. text ≡ bytes.now) }
    ensures bytes { IfOk result (λ text. All IsByte text) }
{
    Bytes::from_slice(alloc, bytes)
}

/// A message to all of one line, with this id, which answers the other id or none.
fn hello(alloc: Global, msgid: &[u8], replyid: &[u8]) -> Result<Message, AllocError>
    requires msgid { IsTrue (is_text 80 msgid.now) }
    requires replyid { EmptyOr (is_text 80) replyid.now }
    ensures { IfOk result (λ message. IsMessage Kind.Local message) }
{
    Ok(Message {
        from: text(alloc, b"Bob Ray")?,
        to: text(alloc, b"All")?,
        subject: text(alloc, b"Hello")?,
        msgid: text(alloc, msgid)?,
        replyid: text(alloc, replyid)?,
        origin: Bytes::new(alloc),
        destination: Bytes::new(alloc),
        body: text(alloc, b"First line\r")?,
        written: NOW,
        received: 0,
        processed: NOW,
        local: true,
        private: false,
        seen: false,
        deleted: false,
    })
}

/// The id of the message of a number.
#[tactic(auto, unfolding(jam_layout::specs::Fields::is_text))]
fn id_of(number: &str) -> &'static [u8]
    ensures { IsTrue (is_text 80 result.now) }
{
    match number {
        "1" => b"0.1.TESTBBS",
        "2" => b"0.2.TESTBBS",
        "3" => b"0.3.TESTBBS",
        "4" => b"0.4.TESTBBS",
        _ => b"0.1001.TESTBBS",
    }
}

/// The message of a number, which answers another one or none.
fn message_of(alloc: Global, word: &str) -> Result<Message, AllocError>
    ensures { IfOk result (λ message. IsMessage Kind.Local message) }
{
    match word.split_once('<') {
        Some((number, answered)) => hello(alloc, id_of(number), id_of(answered)),
        None => hello(alloc, id_of(word), b""),
    }
}

/// The messages of these numbers.
fn messages_of(alloc: Global, words: &str) -> Result<Messages, AllocError>
    ensures { IfOk result (All (IsMessage Kind.Local)) }
{
    let mut messages = Messages::new(alloc);
    for word in words.split_ascii_whitespace() {
        messages.add(message_of(alloc, word)?)?;
    }
    Ok(messages)
}

/// So many copies of the first message.
fn copies(alloc: Global, count: usize) -> Result<Messages, AllocError>
    requires { count ≤ 9999 }
    ensures { IfOk result (All (IsMessage Kind.Local)) }
{
    let message = message_of(alloc, "1")?;
    let mut messages = Messages::new(alloc);
    messages.fill(alloc, &message, count)?;
    Ok(messages)
}

/// Whether a reader and the message of a number are there, in short files.
fn has(base: &Base, user: u32, number: u32) -> bool
    ensures reader { IsTrue result → IsSome (reader_place user base.now.shape.readers) }
    ensures within { IsTrue result → number ≤ length base.now.conference.slots }
    ensures small { IsTrue result → files_size (layout base.now.shape base.now.conference) < 2 ^ 31 }
{
    base.pointer(user).is_some() && number <= base.slot_count() && base.size() < 1 << 31
}

impl Stage {
    fn append(&mut self, alloc: Global, words: &str) -> Result<String, Fail> {
        let messages = messages_of(alloc, words)?;
        self.extend(alloc, &messages)
    }

    fn fill(&mut self, alloc: Global, count: &str) -> Result<String, Fail> {
        let count = number_of(count)? as usize;
        let messages = copies(alloc, count.min(9999))?;
        self.extend(alloc, &messages)
    }

    fn kill(&mut self, alloc: Global, number: &str) -> Result<String, Fail> {
        match self.base.killed(alloc, number_of(number)?) {
            Ok(change) => self.make(alloc, change),
            Err(error) => Ok(format!(in alloc; "{error:?}")?),
        }
    }

    /// `receive ABOVE UPTO NAME`, a hundred seconds after the messages were written.
    fn receive(&mut self, alloc: Global, words: &str) -> Result<String, Fail> {
        let (above, words) = parted(words)?;
        let (upto, name) = parted(words)?;
        let (above, upto) = (number_of(above)?, number_of(upto)?);
        let name = name.as_bytes();
        let change = self.base.received(alloc, name, above, upto, NOW + 100)?;
        self.make(alloc, change)
    }

    /// `point USER NUMBER`, or `acknowledge USER NUMBER NAME` at the same moment.
    fn point(&mut self, alloc: Global, words: &str) -> Result<String, Fail> {
        let (user, words) = parted(words)?;
        let (number, name) = words.split_once(' ').unwrap_or((words, ""));
        let (user, number) = (number_of(user)?, number_of(number)?);
        if !has(&self.base, user, number) {
            return Err(Fail::from("no reader or no message"));
        }
        let change = pointed(alloc, &self.base, user, number, name.as_bytes())?;
        self.make(alloc, change)
    }
}

/// The change by which a reader has read up to a number, or by which a reader of this name has acknowledged that.
fn pointed(
    alloc: Global,
    base: &Base,
    user: u32,
    number: u32,
    name: &[u8],
) -> Result<BaseChange, AllocError>
    requires reader { IsSome (reader_place user base.now.shape.readers) }
    requires within { number ≤ length base.now.conference.slots }
    requires small { files_size (layout base.now.shape base.now.conference) < 2 ^ 31 }
    ensures { IfOk result (λ change. change.base.shape.kind ≡ base.now.shape.kind) }
{
    if name.is_empty() {
        return base.pointed(alloc, user, number);
    }
    base.acknowledged(alloc, user, name, number, NOW + 100)
}

impl Subject for Stage {
    fn found(&mut self, alloc: Global, asked: &str) -> Result<String, Fail> {
        let (verb, words) = asked.split_once(' ').unwrap_or((asked, ""));
        match verb {
            "append" => self.append(alloc, words),
            "fill" => self.fill(alloc, words),
            "kill" => self.kill(alloc, words),
            "receive" => self.receive(alloc, words),
            "point" | "acknowledge" => self.point(alloc, words),
            "file" => self.compare(alloc, words),
            _ => self.look(alloc, verb, words),
        }
    }
}

#[test]
fn bases_are_changed(rt: HostRuntime) -> Result<(), Fail> {
    laws::one_append();
    let mut stage = Stage::new(rt.alloc())?;
    expect(rt.alloc(), &mut stage, TABLE)
}

#[test]
fn bases_are_filled(rt: HostRuntime) -> Result<(), Fail> {
    let mut stage = Stage::new(rt.alloc())?;
    expect(rt.alloc(), &mut stage, FULL)
}
