// The texts of a message of a sample.
ghost use Rattle.std.specs.Prelude.{◌≡◌, IfOk};
ghost use Rattle.cmd_messages.specs.Sample.{numbered_line as line_with, recipient_name as name_of, repeated, subject_of as subject_with};

use board_layout::StoredBoard;
use byte_lists::Bytes;
use std::alloc::{AllocError, Global};
use text_fields::add_decimal;

/// The name of the user of an id, and `All` for 0.
pub(crate) fn recipient_name(
    alloc: Global,
    board: &StoredBoard,
    id: u32,
) -> Result<Bytes, AllocError>
    ensures { IfOk result (λ name. name ≡ name_of id board.now) }
{
    match board.user_at(id) {
        Some(user) => user.name.copy(alloc),
        None => Bytes::from_slice(alloc, b"All"),
    }
}

/// The subject of the message of a number.
pub(crate) fn subject_of(alloc: Global, number: u32) -> Result<Bytes, AllocError>
    ensures { IfOk result (λ subject. subject ≡ subject_with number) }
{
    let mut subject = Bytes::from_slice(alloc, b"Sample ")?;
    add_decimal(&mut subject, u64::from(number))?;
    Ok(subject)
}

/// A line of the message of a number, as it is stored.
fn line_of(alloc: Global, seed: u32, number: u32) -> Result<Bytes, AllocError>
    ensures { IfOk result (λ line. line ≡ line_with seed number) }
{
    let mut line = Bytes::from_slice(alloc, b"Line ")?;
    add_decimal(&mut line, u64::from(number))?;
    line.add(b" of seed ")?;
    add_decimal(&mut line, u64::from(seed))?;
    line.add(b"\r")?;
    Ok(line)
}

/// The body of the message of a number, with so many lines.
pub(crate) fn body_of(
    alloc: Global,
    seed: u32,
    number: u32,
    lines: u32,
) -> Result<Bytes, AllocError>
    ensures { IfOk result (λ body. body ≡ repeated (line_with seed number) lines) }
{
    let line = line_of(alloc, seed, number)?;
    let mut body = Bytes::new(alloc);
    for _ in 0..lines {
        body.add(line.as_slice())?;
    }
    Ok(body)
}
