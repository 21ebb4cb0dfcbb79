//! A packet of Ann's with four messages, of which one is posted.

/// Its blocks. The second message is killed, the third is from somebody else, and the fourth is in a conference that
/// isn't there.
pub const FOUR: &str = r#"
* blocks rep
TESTBBS
 0      09-09-0101:46BOB RAY                  ANN LEE                  Hello                                0       2     \xE1\0\0\x01\0
Hi\xE3
 0      09-09-0101:46BOB RAY                  ANN LEE                  Hello                                0       2     \xE2\0\0\x01\0
Hi\xE3
 0      09-09-0101:46BOB RAY                  ZED                      Hello                                0       2     \xE1\0\0\x01\0
Hi\xE3
 5      09-09-0101:46BOB RAY                  ANN LEE                  Hello                                0       2     \xE1\0\0\x01\0
Hi\xE3
"#;

/// What its first upload says where the conference 0 has one message.
pub const UPLOADED: &str = r#"
> upload "Ann Lee" rep
1 posted 0 2
2 refused killed
3 refused sender
4 refused conference
posted 1 refused 3
"#;
