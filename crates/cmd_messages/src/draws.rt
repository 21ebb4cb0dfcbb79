// What is drawn for the messages of a sample.
ghost use Rattle.std.specs.Prelude.{◌≡◌, ◌≤◌, ◌<◌, ◌+◌, ◌*◌, ◌/◌, ◌%◌, ℕ, length};
ghost use Rattle.board_layout.specs.Valid.{IsBoard};
ghost use Rattle.cmd_messages.specs.Draws.{draws_of, next_drawn_number, drawn_number};

use board_layout::StoredBoard;

/// The draws for a message.
#[derive(Debug, Clone, Copy)]
pub(crate) struct Draws {
    /// The place of its conference.
    pub(crate) place: u8,
    /// The id of its recipient, or 0 where it is to all.
    pub(crate) recipient: u32,
    /// 0 where it answers the last message of its conference.
    pub(crate) reply: u32,
    /// How many lines it has.
    pub(crate) lines: u32,
}

/// Numbers, each of which gives the next one.
#[derive(Debug, Clone, Copy)]
pub(crate) struct Numbers {
    /// The number that was used last, or the seed.
    pub(crate) last: u32,
}

impl Numbers {
    /// Those behind a seed.
    pub(crate) fn new(seed: u32) -> Numbers
        ensures { result.last ≡ seed }
    {
        Numbers { last: seed }
    }

    /// A draw below a number that isn't 0, by the next number.
    fn draw(&mut self, below: u32) -> u32
        requires { 0 < below }
        ensures number { self.new.last ≡ next_drawn_number self.old.last }
        ensures draw { result ≡ (self.new.last / 65536) % below }
        ensures below { result < below }
    {
        let next = (1_664_525 * u64::from(self.last) + 1_013_904_223) % 4_294_967_296;
        self.last = next as u32;
        (self.last / 65_536) % below
    }

    /// The draws for the message that comes behind so many others of a sample.
    pub(crate) fn draws(&mut self, board: &StoredBoard) -> Draws
        ensures draws { (seed behind : ℕ) → self.old.last ≡ drawn_number seed (4 * behind) → result ≡ draws_of seed behind board.now }
        ensures number { (seed behind : ℕ) → self.old.last ≡ drawn_number seed (4 * behind) → self.new.last ≡ drawn_number seed (4 * (behind + 1)) }
        ensures place { result.place < length board.now.ledger.setup.conferences }
        ensures lines { result.lines ≤ 8 }
        ensures board { IsBoard board.now }
    {
        let ledger = board.ledger();
        let conferences = ledger.setup.fields().conferences.len() as u32;
        let users = ledger.users.len() as u32;
        let place = self.draw(conferences) as u8;
        let recipient = self.draw(users + 1);
        let reply = self.draw(4);
        let lines = self.draw(8) + 1;
        Draws {
            place,
            recipient,
            reply,
            lines,
        }
    }
}
