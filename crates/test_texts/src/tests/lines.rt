//! Lines of a batch, and the words that they are.
use super::shown::{between_bars, only};
use byte_lists::Bytes;
use line_words::words_of;
use std::alloc::Global;
use test_cases::{Miss, expect_cases};

/// The words of a line, each between bars, or a dash where it isn't words.
fn spell(alloc: Global, words: &[Bytes]) -> Result<String, Miss> {
    match words_of(alloc, only(words)?)? {
        Some(words) => Ok(between_bars(alloc, &words)?),
        None => Ok(String::from_str(alloc, "-")?),
    }
}

/// A case is a line, in which `\x22` is a double quote.
const LINES: &str = r#"
"" => "|"
"   " => "|"
check => "|check|"
"  kill  0 3 " => "|kill|0|3|"
"enroll \x22Ann Lee\x22 n all" => "|enroll|Ann Lee|n|all|"
"\x22\x22 a" => "||a|"
"a\x22b c\x22d" => "|a\"b|c\"d|"
"\x22a b\x22" => "|a b|"
a\tb => "|a\tb|"
\x22a => -
\x22 => -
\x22a\x22b => -
\x22a\x22\x22b\x22 => -
"a \x22b c" => -
"#;

#[test]
fn lines_are_words(rt: HostRuntime) -> Result<(), Miss> {
    expect_cases(rt.alloc(), LINES, spell)
}
