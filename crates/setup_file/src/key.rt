ghost use Rattle.std.specs.Prelude.{◌≡◌, MatchResult};
ghost use Rattle.setup_file.specs.Words.{value_behind as value_in};
ghost use Rattle.setup_file.specs.Rules.{key_text, fits as fits_key, key_rule, key_rules};
ghost use Rattle.setup_file.specs.State.{NoneBroken, Breaks};

use crate::error::SetupRule;
use crate::texts::{is_bbsid, is_board_text, is_user_name};
use crate::word::{number_of, value_behind};

/// The key of one of the first six lines.
#[derive(Clone, Copy)]
pub enum Key {
    Board,
    City,
    Phone,
    Sysop,
    Bbsid,
    Serial,
}

impl Key {
    /// The key and the colon that a line begins with.
    fn text(self) -> &'static [u8]
        ensures { result.now ≡ key_text self }
    {
        match self {
            Key::Board => b"board:",
            Key::City => b"city:",
            Key::Phone => b"phone:",
            Key::Sysop => b"sysop:",
            Key::Bbsid => b"bbsid:",
            Key::Serial => b"serial:",
        }
    }

    /// Whether the key may have this value.
    fn fits(self, value: &[u8]) -> bool
        ensures { result ≡ fits_key self value.now }
    {
        match self {
            Key::Board | Key::City | Key::Phone => is_board_text(value),
            Key::Sysop => is_user_name(value),
            Key::Bbsid => is_bbsid(value),
            Key::Serial => number_of(value).is_some(),
        }
    }

    /// The rule that another value breaks.
    fn rule(self) -> SetupRule
        ensures { result ≡ key_rule self }
    {
        match self {
            Key::Board | Key::City | Key::Phone | Key::Sysop => SetupRule::Text,
            Key::Bbsid => SetupRule::Id,
            Key::Serial => SetupRule::Number,
        }
    }

    /// The value that a line gives the key, or the rule that the line breaks.
    pub fn value_of(self, line: &[u8]) -> Result<&[u8], SetupRule>
        ensures { MatchResult result
            (λ value. NoneBroken (key_rules self line.now) × (value.now ≡ value_in (key_text self) line.now))
            (Breaks (key_rules self line.now)) }
    {
        let Some(value) = value_behind(self.text(), line) else {
            return Err(SetupRule::Key);
        };
        if !self.fits(value) {
            return Err(self.rule());
        }
        Ok(value)
    }
}
