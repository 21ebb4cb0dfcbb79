ghost use Rattle.std.specs.Prelude.{◌≡◌};
ghost use Rattle.std.specs.List.{list_all};
ghost use Rattle.setup_file.specs.Texts.{is_printed as printed_test, is_board_text as board_text_test};
ghost use Rattle.setup_file.specs.Texts.{is_name_byte as name_byte_test, has_bare_ends as bare_ends_test, is_user_name as user_name_test};
ghost use Rattle.setup_file.specs.Texts.{is_letter_or_digit as letter_or_digit_test, is_bbsid as bbsid_test};
ghost use Rattle.setup_file.specs.Texts.{is_conference_name as conference_name_test};

/// Whether each byte is from 20h to 7Eh.
fn is_printed(text: &[u8]) -> bool
    ensures { result ≡ printed_test text.now }
{
    text.iter().all(|b| 0x20 <= *b && *b <= 0x7E)
}

/// Whether a text is one of a board, its city or its phone: at most 60 bytes, each from 20h to 7Eh.
#[tactic(auto, unfolding(crate::specs::Texts::is_board_text))]
pub fn is_board_text(text: &[u8]) -> bool
    ensures { result ≡ board_text_test text.now }
{
    let printed = is_printed(text);
    text.len() <= 60 && printed
}

/// Whether each byte is one of a user name: from 20h to 7Eh, and no `"`.
fn has_name_bytes(name: &[u8]) -> bool
    ensures { result ≡ list_all name_byte_test name.now }
{
    name.iter()
        .all(|b| (0x20 <= *b && *b <= 0x7E) && *b != b'"')
}

/// Whether a name that isn't empty has no space at either end.
fn has_bare_ends(name: &[u8]) -> bool
    ensures { result ≡ bare_ends_test name.now }
{
    match name {
        [] => false,
        [first, ..] => *first != b' ' && name[name.len() - 1] != b' ',
    }
}

/// Whether a text is a user name: 1 to 25 bytes from 20h to 7Eh without `"`, and no space at either end.
#[tactic(auto, unfolding(crate::specs::Texts::is_user_name))]
pub fn is_user_name(name: &[u8]) -> bool
    ensures { result ≡ user_name_test name.now }
{
    let right = has_name_bytes(name);
    let bare = has_bare_ends(name);
    name.len() <= 25 && right && bare
}

/// Whether each byte is an ASCII letter or digit.
fn has_letters_and_digits(id: &[u8]) -> bool
    ensures { result ≡ list_all letter_or_digit_test id.now }
{
    id.iter().all(|b| b.is_ascii_alphanumeric())
}

/// Whether a text is a board id: 1 to 8 ASCII letters and digits.
#[tactic(auto, unfolding(crate::specs::Texts::is_bbsid))]
pub fn is_bbsid(id: &[u8]) -> bool
    ensures { result ≡ bbsid_test id.now }
{
    let right = has_letters_and_digits(id);
    1 <= id.len() && id.len() <= 8 && right
}

/// Whether a text is a conference's name: 1 to 13 bytes from 20h to 7Eh.
#[tactic(auto, unfolding(crate::specs::Texts::is_conference_name))]
pub fn is_conference_name(name: &[u8]) -> bool
    ensures { result ≡ conference_name_test name.now }
{
    let printed = is_printed(name);
    1 <= name.len() && name.len() <= 13 && printed
}
