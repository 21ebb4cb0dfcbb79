//! Examples as texts of cases: what is given, and what is to be found.
//!
//! A case is words in one line or in several, then `=> `, and what is to be found, up to the end of that line. The next
//! case follows. A word that has spaces in it or is empty stands in double quotes. In a word `\n`, `\r`, `\t`, `\0`, and
//! `\x` with two hexadecimal digits are a byte each, and `\{N}` says that the byte before it stands N times. Empty lines,
//! and lines that begin with `# `, are skipped.
//!
//! What is found is a text that the example's own function makes of the words. Bytes stand in it between double quotes, as
//! `escape_ascii` writes them.
#![tactic(auto)]

mod cases;
mod escapes;
mod miss;

pub use cases::{expect_cases, words_in};
pub use escapes::{bytes_of, number_of, quoted};
pub use miss::Miss;
