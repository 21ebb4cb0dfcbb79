//! A board that version 1.0 of the program left.

/// What is done to make it, with the files of its shelf: a batch, whose moment is that of the ledger.
pub const OLD_BOARD: &str = r#"
* setups
* now 1795948666
* add forty.txt 40 From: Bob Ray\nTo: All\nSubject: Note\n\nHello\n.\n
* put hello.txt From: Bob Ray\nTo: All\nSubject: Hello\n\nFirst line\n.\n
* put thanks.txt Thanks\n
> init setup.txt
made 3 conferences
> enroll "Ann Lee" n all
user 1 Ann Lee
> enroll "Bob Ray" - 0,7
user 2 Bob Ray
> enroll "Sam Sysop" n all
user 3 Sam Sysop
> enroll "Cy Day" - 0
user 4 Cy Day
> import 0 forty.txt
imported 40 into 0
> kill 0 3
killed 0 3
> import 7 hello.txt
imported 1 into 7
> export "Ann Lee" 10 out
packet 1: 10 messages
> reply out 3 thanks.txt DAY.MSG
replied to 3, 1 in DAY.MSG
> upload "Ann Lee" DAY.MSG
1 posted 0 41
posted 1 refused 0
> ack "Ann Lee" 1
acknowledged 1
> export "Ann Lee" 5 out
packet 2: 5 messages
> export "Bob Ray" 2000 bob
packet 1: 41 messages
> export "Cy Day" 7 cy
packet 1: 7 messages
> ack "Cy Day" 1
acknowledged 1
> export "Cy Day" 7 cy
packet 2: 7 messages
"#;

/// Puts the ledger of version 1 that it left then. The other files are as they are made now.
pub const OLD_LEDGER: &str = "
* ledger QMDL\\x01\\0\\x03\\0\\x04\\0\\x02\\0\\x01\\0\\0\\0z\\0\\x0Ck90\\0\\0\\x0A\\0Test Board\\x0B\\0Springfield\\x08\\0555-0100\
\\x09\\0Sam Sysop\\x07\\0TESTBBS\\x01\\0\\x02\\0\\0\\0\\0\\x02\\x07\\0GENERAL\\x01\\0\\x02\\0\\x07\\0NETMAIL\\x07\\0\\0\\x01\\x04\\0NEWS\
\\x07\\0Ann Lee\\x01\\x02\\0\\0\\0\\x02\\0\\0\\0\\x07\\0\\0\\0\\0\\0\\0\\0\\x10\\0\\0\\0\\0\\0\\0\\0\\0\\0\\0\\0\
\\x07\\0Bob Ray\\0\\x01\\0\\0\\0\\x01\\0\\0\\0\\x05\\0\\0\\0\\0\\0\\0\\0)\\0\\0\\0\\0\\0\\0\\0\\x01\\0\\0\\0\
\\x09\\0Sam Sysop\\x01\\0\\0\\0\\0\\0\\0\\0\\0\\x07\\0\\0\\0\\0\\0\\0\\0\\0\\0\\0\\0\\0\\0\\0\\0\\0\\0\\0\\0\
\\x06\\0Cy Day\\0\\x02\\0\\0\\0\\x02\\0\\0\\0\\x01\\0\\0\\0\\0\\0\\0\\0\\x0F\\0\\0\\0\\0\\0\\0\\0\\0\\0\\0\\0\
\\x01\\0\\xE3\\xEC\\xF1:\\xCB\\x7FA\\xEB\\xA0\\xD4\\xBF\\xC7\\x9D\\x99(\\xB7fF\\xA6\\xF8\\xB7$\\x8E\\x96R7\\xB2Nf\\xCC\\xFA\\x9B\
\\x01\\0\\0\\0\\0\\0\\0\\0
";
