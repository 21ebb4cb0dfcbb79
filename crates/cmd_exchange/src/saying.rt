// The reply of an upload: a line for each message, and the counts. All of it is gathered, so that it is said in few calls.
ghost use Rattle.std.specs.Prelude.{◌≡◌, ◌++◌, IsTrue};
ghost use Rattle.door_outside.specs.Cause.{HasCause};
ghost use Rattle.entry_runs.specs.Saying.{Gathers, Voiced};
ghost use Rattle.mail_intake.specs.Lines.{counts_line};
ghost use Rattle.mail_intake.specs.packet_verdicts.Judged.{refused_count};
ghost use Rattle.cmd_exchange.specs.Upload.{outcome_line, outcome_lines, tally, uploaded_text};

use door_outside::{Host, VoiceFault};
use door_upload::{Outcome, Outcomes, Uploaded};
use entry_runs::Gathered;
use itoa::Buffer;

/// Gathers what became of the message in a place, from 1.
fn add_outcome<H: Host>(
    host: &mut H,
    gathered: &mut Gathered,
    place: u64,
    outcome: &Outcome,
) -> Result<(), VoiceFault>
    ensures gathers { IsTrue H.tells → Gathers gathered.old (outcome_line place outcome.now) gathered.new (H.disk host.old) (H.disk host.new) result }
    ensures cause { HasCause (H.voice_faults host.old) (H.voice_faults host.new) result }
    ensures disk { H.disk_faults host.new ≡ H.disk_faults host.old }
{
    let mut first = Buffer::new();
    let first = first.format(place).as_bytes();
    match outcome {
        Outcome::Posted { conference, number } => {
            let mut second = Buffer::new();
            let mut third = Buffer::new();
            let conference = second.format(*conference).as_bytes();
            let number = third.format(*number).as_bytes();
            gathered.add(host, &[first, b" posted ", conference, b" ", number, b"\n"])
        }
        Outcome::Refused(rule) => { gathered.add(host, &[first, b" refused ", rule.word(), b"\n"]) }
    }
}

/// Gathers what became of each message.
fn add_outcomes<H: Host>(
    host: &mut H,
    gathered: &mut Gathered,
    outcomes: &Outcomes,
) -> Result<(), VoiceFault>
    ensures gathers { IsTrue H.tells → Gathers gathered.old (outcome_lines 1 outcomes.now) gathered.new (H.disk host.old) (H.disk host.new) result }
    ensures cause { HasCause (H.voice_faults host.old) (H.voice_faults host.new) result }
    ensures disk { H.disk_faults host.new ≡ H.disk_faults host.old }
{
    for (index, outcome) in outcomes.as_slice().iter().enumerate() {
        add_outcome(host, gathered, index as u64 + 1, outcome)?;
    }
    Ok(())
}

/// Gathers how many messages were posted and refused, behind words.
fn add_counts<H: Host>(
    host: &mut H,
    gathered: &mut Gathered,
    words: &[u8],
    posted: u64,
    refused: u64,
) -> Result<(), VoiceFault>
    ensures gathers { IsTrue H.tells → Gathers gathered.old (words.now ++ counts_line posted refused) gathered.new (H.disk host.old) (H.disk host.new) result }
    ensures cause { HasCause (H.voice_faults host.old) (H.voice_faults host.new) result }
    ensures disk { H.disk_faults host.new ≡ H.disk_faults host.old }
{
    let mut first = Buffer::new();
    let mut second = Buffer::new();
    gathered.add(
        host,
        &[
            words,
            b"posted ",
            first.format(posted).as_bytes(),
            b" refused ",
            second.format(refused).as_bytes(),
            b"\n",
        ],
    )
}

/// How many of the messages were refused.
fn count_refused(outcomes: &Outcomes) -> usize
    ensures { result ≡ refused_count outcomes.now }
{
    outcomes
        .as_slice()
        .iter()
        .filter(|outcome| matches!(outcome, Outcome::Refused(_)))
        .count()
}

/// Gathers how many of the messages were posted and refused.
fn add_tally<H: Host>(
    host: &mut H,
    gathered: &mut Gathered,
    outcomes: &Outcomes,
) -> Result<(), VoiceFault>
    ensures gathers { IsTrue H.tells → Gathers gathered.old (tally outcomes.now) gathered.new (H.disk host.old) (H.disk host.new) result }
    ensures cause { HasCause (H.voice_faults host.old) (H.voice_faults host.new) result }
    ensures disk { H.disk_faults host.new ≡ H.disk_faults host.old }
{
    let refused = count_refused(outcomes);
    let posted = outcomes.len().saturating_sub(refused);
    add_counts(host, gathered, b"", posted as u64, refused as u64)
}

/// Gathers what became of a reply packet.
fn add_uploaded<H: Host>(
    host: &mut H,
    gathered: &mut Gathered,
    uploaded: &Uploaded,
) -> Result<(), VoiceFault>
    ensures gathers { IsTrue H.tells → Gathers gathered.old (uploaded_text uploaded.now) gathered.new (H.disk host.old) (H.disk host.new) result }
    ensures cause { HasCause (H.voice_faults host.old) (H.voice_faults host.new) result }
    ensures disk { H.disk_faults host.new ≡ H.disk_faults host.old }
{
    match uploaded {
        Uploaded::Again(counts) => {
            let (posted, refused) = (u64::from(counts.posted), u64::from(counts.refused));
            add_counts(host, gathered, b"again ", posted, refused)
        }
        Uploaded::Judged(outcomes) => {
            add_outcomes(host, gathered, outcomes)?;
            add_tally(host, gathered, outcomes)
        }
    }
}

/// Says what became of a reply packet: a line for each message, in their order, and then how many were posted and
/// refused; or how many were, when it was sent before. It takes no memory.
pub(crate) fn say_uploaded<H: Host>(host: &mut H, uploaded: &Uploaded) -> Result<(), VoiceFault>
    ensures voiced { IsTrue H.tells → Voiced (uploaded_text uploaded.now) (H.disk host.old) (H.disk host.new) result }
    ensures cause { HasCause (H.voice_faults host.old) (H.voice_faults host.new) result }
    ensures disk { H.disk_faults host.new ≡ H.disk_faults host.old }
{
    let mut gathered = Gathered::new();
    add_uploaded(host, &mut gathered, uploaded)?;
    gathered.say(host)
}
