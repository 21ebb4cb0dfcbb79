//! What a command may say, as patterns of lines.

/// The patterns of the last line that a command says, and of those before it. A pattern is words between spaces: `#` is
/// a number, `?` any word, and `*` all that follows.
#[derive(Clone, Copy)]
pub struct Answers<'a> {
    pub before: &'a str,
    pub last: &'a str,
}

/// Whether a word is one of a pattern.
fn is_word(word: &str, pattern: &str) -> bool {
    match pattern {
        "?" => true,
        "#" => !word.is_empty() && word.bytes().all(|byte| byte.is_ascii_digit()),
        _ => word == pattern,
    }
}

/// Whether a line is one of a pattern.
fn is_like(line: &str, pattern: &str) -> bool {
    let mut words = line.split(' ');
    for wanted in pattern.split(' ') {
        if wanted == "*" {
            return true;
        }
        match words.next() {
            Some(word) if is_word(word, wanted) => {}
            _ => return false,
        }
    }
    words.next().is_none()
}

/// Whether a line is of one of some patterns, a line each.
pub fn is_one_of(line: &str, patterns: &str) -> bool {
    for pattern in patterns.lines() {
        if is_like(line, pattern) {
            return true;
        }
    }
    false
}

/// Whether each line of a text is of one of some patterns.
fn are_of(lines: &str, patterns: &str) -> bool {
    for line in lines.split('\n') {
        if !is_one_of(line, patterns) {
            return false;
        }
    }
    true
}

impl Answers<'_> {
    /// Whether a reply, in lines that each end with LF, is an answer. A reply of nothing is taken as an empty line.
    pub fn take(&self, reply: &str) -> bool {
        if reply.is_empty() {
            return is_one_of(reply, self.last);
        }
        let Some(lines) = reply.strip_suffix('\n') else {
            return false;
        };
        match lines.rsplit_once('\n') {
            Some((before, last)) => are_of(before, self.before) && is_one_of(last, self.last),
            None => is_one_of(lines, self.last),
        }
    }
}
