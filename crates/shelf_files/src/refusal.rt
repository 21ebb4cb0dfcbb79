ghost use Rattle.std.specs.Prelude.{◌≡◌};
ghost use Rattle.shelf_files.specs.Refusals.{nopacket_line, said_line};

use crate::said::Said;
use door_outside::{Host, ShelfName, VoiceFault};
use fts_packet::FtsRule;
use import_sheet::SheetRule;
use qwk_blocks::QwkFault;
use setup_file::SetupRule;

/// Why a command is refused.
#[derive(Drop)]
pub enum Refusal {
    /// The shelf has no file of that name.
    NoFile(ShelfName),
    /// The file of that name is longer than its limit.
    TooLarge(ShelfName),
    /// The packet is broken.
    Broken(QwkFault),
    /// CONTROL.DAT lacks this line.
    ControlShort(u32),
    /// This line of CONTROL.DAT is no number.
    ControlNumber(u32),
    /// Line 5 of CONTROL.DAT has no board id.
    ControlId,
    /// The packet has no message in that place.
    NoMessage,
    /// The reply packet has no board id.
    NoBoardId,
    /// The reply packet is for another board.
    OtherBoard,
    /// There is no conference of that number.
    NoConference,
    /// This line of the sheet, from 1, is the first that breaks a rule, and this is the rule.
    Sheet { line: u32, rule: SheetRule },
    /// The message of this number, from 1, is the first that can't be put into QWK.
    Text(u32),
    /// There is no board.
    NotMade,
    /// There is a board.
    Exists,
    /// The name breaks the rule for user names.
    Name,
    /// A user has the name.
    DupUser,
    /// There are as many users as there may be.
    Users,
    /// No user has the name.
    NoUser,
    /// The limit of a packet's messages isn't one that it may have.
    Limit,
    /// The user's last packet has the last number that there is.
    Packets,
    /// No packet of that number is open for the user. This is the greatest number of those that are, where one is.
    NoPacket(Option<u32>),
    /// There are as many upload records as may be kept.
    Uploads,
    /// The count of messages isn't one that may be asked for.
    Count,
    /// This line of the setup file, from 1, is the first that breaks a rule, and this is the rule.
    Setup { line: u32, rule: SetupRule },
    /// The conference would have so many slots, more than it may.
    Slots(u64),
    /// The data files would have so many bytes, more than they may.
    Size(u64),
    /// The type 2 packet breaks this rule first, at this byte.
    Packet { rule: FtsRule, at: u32 },
    /// The .JHR of another tool's base has fewer bytes than its base header.
    ForeignShort,
    /// The .JHR of another tool's base doesn't begin with the signature of JAM.
    ForeignSignature,
}

/// What is said of the open packet with the greatest number, or that none is open.
fn packet_said(packet: Option<u32>) -> Said<'static>
    ensures { said_line result ≡ nopacket_line packet }
{
    match packet {
        None => Said::Name(b"nopacket ", b"none"),
        Some(number) => Said::Number(b"nopacket ", u64::from(number)),
    }
}

impl Refusal {
    ghost use Rattle.std.specs.Prelude.{◌≡◌, IsTrue};
    ghost use Rattle.door_outside.specs.Cause.{HasCause};
    ghost use Rattle.entry_runs.specs.Saying.{Voiced};
    ghost use Rattle.shelf_files.specs.Refusals.{refusal_line, said_line};

    /// What the line of the refusal says.
    fn said(&self) -> Said<'_>
        ensures { said_line result ≡ refusal_line self.now }
    {
        match self {
            Refusal::NoFile(name) => Said::Name(b"nofile ", name.as_slice()),
            Refusal::TooLarge(name) => Said::Name(b"toolarge ", name.as_slice()),
            Refusal::Broken(QwkFault::Truncated { at }) => {
                Said::Number(b"broken truncated ", u64::from(*at))
            }
            Refusal::Broken(QwkFault::BadBlocks { at }) => {
                Said::Number(b"broken blocks ", u64::from(*at))
            }
            Refusal::ControlShort(line) => Said::Number(b"control short ", u64::from(*line)),
            Refusal::ControlNumber(line) => Said::Number(b"control number ", u64::from(*line)),
            Refusal::ControlId => Said::Words(b"control id 5"),
            Refusal::NoMessage => Said::Words(b"nomessage"),
            Refusal::NoBoardId => Said::Words(b"noboardid"),
            Refusal::OtherBoard => Said::Words(b"board"),
            Refusal::NoConference => Said::Words(b"noconference"),
            Refusal::Sheet { line, rule } => Said::Rule(b"sheet ", *line, rule.word()),
            Refusal::Text(number) => Said::Number(b"text ", u64::from(*number)),
            Refusal::NotMade => Said::Words(b"notmade"),
            Refusal::Exists => Said::Words(b"exists"),
            Refusal::Name => Said::Words(b"name"),
            Refusal::DupUser => Said::Words(b"dupuser"),
            Refusal::Users => Said::Words(b"users"),
            Refusal::NoUser => Said::Words(b"nouser"),
            Refusal::Limit => Said::Words(b"limit"),
            Refusal::Packets => Said::Words(b"packets"),
            Refusal::NoPacket(packet) => packet_said(*packet),
            Refusal::Uploads => Said::Words(b"uploads 100000"),
            Refusal::Count => Said::Words(b"count"),
            Refusal::Setup { line, rule } => Said::Rule(b"setup ", *line, rule.word()),
            Refusal::Slots(count) => Said::Number(b"slots ", *count),
            Refusal::Size(bytes) => Said::Number(b"size ", *bytes),
            Refusal::Packet { rule, at } => Said::Fault(b"packet ", rule.word(), *at),
            Refusal::ForeignShort => Said::Words(b"foreign short"),
            Refusal::ForeignSignature => Said::Words(b"foreign signature"),
        }
    }

    /// Says the line of the refusal. It takes no memory.
    pub fn say<H: Host>(&self, host: &mut H) -> Result<(), VoiceFault>
        ensures voiced { IsTrue H.tells → Voiced (refusal_line self.now) (H.disk host.old) (H.disk host.new) result }
        ensures cause { HasCause (H.voice_faults host.old) (H.voice_faults host.new) result }
        ensures disk { H.disk_faults host.new ≡ H.disk_faults host.old }
    {
        self.said().say(host)
    }
}
