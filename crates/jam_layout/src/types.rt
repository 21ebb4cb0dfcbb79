// What is said of the types of a message.
ghost use Rattle.std.specs.Prelude.{◌≡◌};
ghost use Rattle.jam_layout.specs.Messages.{AreBytes, IsTyped};
ghost use Rattle.jam_records.specs.record_numbers.Numbers.{IsU32};

use jam_records::Message;

/// The same moment, of which it is said that it is one.
fn in_range(moment: u32) -> u32
    ensures same { result ≡ moment }
    ensures bound { IsU32 result }
{
    moment
}

/// The moments of a message, of which it is said that each is one.
pub fn moments(message: &Message) -> [u32; 3]
    ensures written { IsU32 message.now.written }
    ensures received { IsU32 message.now.received }
    ensures processed { IsU32 message.now.processed }
{
    [
        in_range(message.written),
        in_range(message.received),
        in_range(message.processed),
    ]
}

/// The texts of a message, of which it is said that each is one of bytes.
fn texts(message: &Message) -> [&[u8]; 8]
    ensures { AreBytes message.now }
{
    [
        message.origin.as_slice(),
        message.destination.as_slice(),
        message.from.as_slice(),
        message.to.as_slice(),
        message.msgid.as_slice(),
        message.replyid.as_slice(),
        message.subject.as_slice(),
        message.body.as_slice(),
    ]
}

/// The same message, of which it is said that its bytes and its moments are of their types.
pub fn typed(message: Message) -> Message
    ensures same { result ≡ message }
    ensures typed { IsTyped result }
{
    let _moments = moments(&message);
    let _texts = texts(&message);
    message
}
