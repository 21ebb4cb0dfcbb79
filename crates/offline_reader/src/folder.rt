ghost use Rattle.std.specs.Prelude.{◌≡◌, IfOk};
ghost use Rattle.offline_reader.specs.Listing.{folder_listing};

use crate::listing::add_listing;
use crate::print::add_text_line;
use byte_lists::Bytes;
use qwk_blocks::QwkMessages;
use qwk_control::Control;
use std::alloc::{AllocError, Global};

/// The listing of a packet's folder: `board BOARD`, `user USER`, and the listing of its messages.
///
/// The error comes where there is no memory.
pub fn list_folder(
    alloc: Global,
    control: &Control,
    messages: &QwkMessages,
) -> Result<Bytes, AllocError>
    ensures { IfOk result (λ text. text ≡ folder_listing control.now messages.now) }
{
    let mut page = Bytes::new(alloc);
    add_text_line(&mut page, b"board ", control.board.as_slice())?;
    add_text_line(&mut page, b"user ", control.user.as_slice())?;
    add_listing(alloc, &mut page, messages)?;
    Ok(page)
}
