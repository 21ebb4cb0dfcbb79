// What the entries of a sheet become.
ghost use Rattle.std.specs.Prelude.{◌≡◌, All, map, IfOk};
ghost use Rattle.jam_layout.specs.Messages.{IsTyped};
ghost use Rattle.cmd_messages.specs.Import.{imported_message};

use byte_lists::Bytes;
use import_sheet::{Sheet, Sheets};
use jam_layout::typed;
use jam_records::{Kind, Message, Messages};
use post_changes::is_net;
use std::alloc::{AllocError, Global};

/// The message that an entry becomes, imported at a moment into a conference of a kind. Its texts are moved.
fn message_of(alloc: Global, kind: Kind, now: u32, entry: Sheet) -> Message
    ensures message { result ≡ imported_message kind now entry }
    ensures typed { IsTyped result }
{
    typed(Message {
        from: entry.from,
        to: entry.to,
        subject: entry.subject,
        msgid: entry.msgid,
        replyid: entry.reply,
        origin: Bytes::new(alloc),
        destination: Bytes::new(alloc),
        body: entry.body,
        written: entry.date.unwrap_or(now),
        received: 0,
        processed: now,
        local: true,
        private: entry.private || is_net(kind),
        seen: false,
        deleted: false,
    })
}

/// The messages that entries become, imported at a moment into a conference of a kind.
pub(crate) fn messages_of(
    alloc: Global,
    kind: Kind,
    now: u32,
    entries: Sheets,
) -> Result<Messages, AllocError>
    ensures messages { IfOk result (λ messages. messages ≡ map (imported_message kind now) entries) }
    ensures typed { IfOk result (All IsTyped) }
{
    let mut messages = Messages::new(alloc);
    for entry in entries.into_vec() {
        messages.add(message_of(alloc, kind, now, entry))?;
    }
    Ok(messages)
}
