/// What a block is that a [`BlockReader`](crate::BlockReader) has just gathered.
#[derive(Clone, Copy, Debug, PartialEq, Eq)]
pub enum Event {
    /// The producer's notice, the first block.
    Notice,
    /// The header of a message that takes so many blocks, 1 to 999,999, the header among them.
    Head { blocks: u32 },
    /// A block of a message's text, which so many more of the same message follow: 0 behind the last.
    Text { left: u32 },
}

impl Event {
    ghost use Rattle.std.specs.Prelude.{◌↔◌, IsTrue};
    ghost use Rattle.qwk_blocks.specs.Reader.{EndsMessage};

    /// Whether the block is the last one of a message.
    pub fn ends_message(&self) -> bool
        ensures { IsTrue result ↔ EndsMessage self.now }
    {
        match self {
            Event::Notice => false,
            Event::Head { blocks } => *blocks == 1,
            Event::Text { left } => *left == 0,
        }
    }
}

/// What a feed took, and the event of the block that it made full.
#[derive(Clone, Copy, Debug, PartialEq, Eq)]
pub struct Fed {
    /// How many bytes of the piece were taken, from its front.
    pub used: usize,
    /// The event, or None where no block became full.
    pub event: Option<Event>,
}
