//! One entry of a run.
ghost use Rattle.std.specs.Prelude.{◌≡◌, ◌≢◌, ◌↔◌, false, IsTrue, IfOk, IfErr, IsErrOf};
ghost use Rattle.door_outside.specs.Shelf.{ShelfFiles};
ghost use Rattle.entry_runs.specs.Door.{touches};
ghost use Rattle.entry_runs.specs.Promise.{ended};
ghost use Rattle.cmd_board.specs.Causes.{HaveCauses};
ghost use Rattle.cmd_board.specs.Keeping.{KeepsFiles};
ghost use Rattle.cmd_board.specs.Kept.{AreSure, IsKept};
ghost use Rattle.cmd_entries.specs.Entries.{CanRun, EntryCanRun, IsWrong};
ghost use Rattle.mail_cli.specs.CommandBound.{CommandFilesKeepBound, CommandKeepsBound, EntryFilesKeepBound, EntryKeepsBound};
ghost use Rattle.mail_cli.specs.Run.{FilesStay, PerformsEntry};
ghost use Rattle.mail_cli.specs.Step.{does, door, entry_uses_shelf, uses_shelf};
ghost use Rattle.cmd_entries.specs.declared.entry.Entry.TheVariants.{Run};

use board_laws::{
    AcknowledgedLine, ImportedLine, KilledLine, PackedLine, PacketLine, SampledLine, UploadedText,
    ack, adopt, export, import, kill, pack, sample, toss, upload,
};
use cmd_board::{EnrolledLine, Loaded, MadeLine, check, enroll, init, say_served, say_told};
use cmd_entries::{Command, Entry};
use cmd_packets::{CountLine, list, read, scan, show};
use cmd_replies::{ComposedLine, RepliedLine, compose, reply};
use door_outside::{Host, Shelf};
use entry_runs::{AsText, Class, Stop};
use std::alloc::Global;

/// Carries out a command and says its reply.
fn perform_command<H: Host, S: Shelf>(
    alloc: Global,
    host: &mut H,
    shelf: &mut S,
    kept: &mut Option<Loaded>,
    command: &Command,
    now: u32,
) -> Result<Class, Stop>
    requires can_run { CanRun command.now }
    requires sure { AreSure kept.old }
    requires kept { IsTrue H.tells → IsKept kept.old (H.disk host.old) }
    ensures sure { AreSure kept.new }
    ensures kept { IsTrue H.tells → IsKept kept.new (H.disk host.new) }
    ensures performs { IsTrue H.tells → IsTrue S.tells → PerformsEntry now (Run command.now) (H.disk host.old) (H.disk host.new) (S.files shelf.old) (S.files shelf.new) result }
    ensures performs_any { uses_shelf command.now ≡ false → IsTrue H.tells → (files : ShelfFiles) → PerformsEntry now (Run command.now) (H.disk host.old) (H.disk host.new) files files result }
    ensures keeps { IsTrue (does now command.now).reach.board → IsTrue H.tells → KeepsFiles (H.disk host.old) (H.disk host.new) result }
    ensures causes { HaveCauses H.disk_faults H.voice_faults S.faults host.old host.new shelf.old shelf.new (ended result) }
    ensures usage { IfOk result (λ class. class ≢ Class.Usage) }
    ensures damaged { IfOk result (λ class. class ≡ Class.Damaged → IsTrue (does now command.now).reach.board) }
    ensures files_stay { (does now command.now).reach.board ≡ false → IsTrue H.tells → FilesStay (H.disk host.old) (H.disk host.new) }
    ensures disk_faults_stay { (does now command.now).reach.board ≡ false → H.disk_faults host.new ≡ H.disk_faults host.old }
    ensures shelf_stays { uses_shelf command.now ≡ false → shelf.new ≡ shelf.old }
    ensures wrote { IsTrue H.tells → IsTrue S.tells → CommandKeepsBound now command.now (H.disk host.old) (H.disk host.new) (S.files shelf.old) }
    ensures wrote_any { uses_shelf command.now ≡ false → IsTrue H.tells → (files : ShelfFiles) → CommandKeepsBound now command.now (H.disk host.old) (H.disk host.new) files }
    ensures wrote_between { IsTrue H.tells → ¬ IsErrOf result Stop.DiskFault → CommandFilesKeepBound command.now (H.disk host.old) (H.disk host.new) }
{
    match command {
        Command::Compose {
            folder,
            conference,
            sheet,
            rep,
        } => say_served(
            &ComposedLine { rep },
            compose(alloc, shelf, folder, *conference, sheet, rep, now),
            host,
        ),
        Command::List { file } => say_served(&AsText, list(alloc, shelf, file), host),
        Command::Read { folder } => say_served(&AsText, read(alloc, shelf, folder), host),
        Command::Reply {
            folder,
            place,
            text,
            rep,
        } => say_served(
            &RepliedLine { place: *place, rep },
            reply(alloc, shelf, folder, *place, text, rep, now),
            host,
        ),
        Command::Show { folder, place } => {
            say_served(&AsText, show(alloc, shelf, folder, *place), host)
        }
        Command::Scan { file } => say_served(&CountLine, scan(alloc, shelf, file), host),
        Command::Ack { user, packet } => say_told(
            &AcknowledgedLine { packet: *packet },
            ack(alloc, host, kept, user.as_slice(), *packet, now),
            host,
        ),
        Command::Adopt { conference, prefix } => say_told(
            &AsText,
            adopt(alloc, host, shelf, kept, *conference, prefix.as_slice()),
            host,
        ),
        Command::Check => say_told(&AsText, check(alloc, host, kept), host),
        Command::Enroll {
            name,
            flags,
            conferences,
        } => say_told(
            &EnrolledLine,
            enroll(
                alloc,
                host,
                kept,
                name.as_slice(),
                flags.as_slice(),
                conferences.as_slice(),
            ),
            host,
        ),
        Command::Export {
            user,
            limit,
            folder,
        } => say_told(
            &PacketLine,
            export(
                alloc,
                host,
                shelf,
                kept,
                user.as_slice(),
                *limit,
                folder,
                now,
            ),
            host,
        ),
        Command::Import { conference, file } => say_told(
            &ImportedLine {
                conference: *conference,
            },
            import(alloc, host, shelf, kept, *conference, file, now),
            host,
        ),
        Command::Init { file } => {
            say_told(&MadeLine, init(alloc, host, shelf, kept, file, now), host)
        }
        Command::Kill { conference, number } => {
            let (conference, number) = (*conference, *number);
            let words = KilledLine { conference, number };
            say_told(&words, kill(alloc, host, kept, conference, number), host)
        }
        Command::Pack { conference } => say_told(
            &PackedLine {
                conference: *conference,
            },
            pack(alloc, host, kept, *conference),
            host,
        ),
        Command::Sample { seed, count } => say_told(
            &SampledLine,
            sample(alloc, host, kept, *seed, *count, now),
            host,
        ),
        Command::Toss { file } => {
            say_told(&AsText, toss(alloc, host, shelf, kept, file, now), host)
        }
        Command::Upload { user, file } => say_told(
            &UploadedText,
            upload(alloc, host, shelf, kept, user.as_slice(), file, now),
            host,
        ),
        Command::Batch { .. } => unreachable!(),
    }
}

/// Carries out an entry and says its reply.
pub fn perform<H: Host, S: Shelf>(
    alloc: Global,
    host: &mut H,
    shelf: &mut S,
    kept: &mut Option<Loaded>,
    entry: &Entry,
    now: u32,
) -> Result<Class, Stop>
    requires can_run { EntryCanRun entry.now }
    requires sure { AreSure kept.old }
    requires kept { IsTrue H.tells → IsKept kept.old (H.disk host.old) }
    ensures sure { AreSure kept.new }
    ensures kept { IsTrue H.tells → IsKept kept.new (H.disk host.new) }
    ensures performs { IsTrue H.tells → IsTrue S.tells → PerformsEntry now entry.now (H.disk host.old) (H.disk host.new) (S.files shelf.old) (S.files shelf.new) result }
    ensures performs_any { entry_uses_shelf entry.now ≡ false → IsTrue H.tells → (files : ShelfFiles) → PerformsEntry now entry.now (H.disk host.old) (H.disk host.new) files files result }
    ensures keeps { IsTrue (touches (door now) entry.now) → IsTrue H.tells → KeepsFiles (H.disk host.old) (H.disk host.new) result }
    ensures causes { HaveCauses H.disk_faults H.voice_faults S.faults host.old host.new shelf.old shelf.new (ended result) }
    ensures usage { IfOk result (λ class. (class ≡ Class.Usage) ↔ IsWrong entry.now) }
    ensures wrong { IsWrong entry.now → IfErr result (λ stop. stop ≡ Stop.VoiceFault) }
    ensures damaged { IfOk result (λ class. class ≡ Class.Damaged → IsTrue (touches (door now) entry.now)) }
    ensures files_stay { touches (door now) entry.now ≡ false → IsTrue H.tells → FilesStay (H.disk host.old) (H.disk host.new) }
    ensures disk_faults_stay { touches (door now) entry.now ≡ false → H.disk_faults host.new ≡ H.disk_faults host.old }
    ensures shelf_stays { entry_uses_shelf entry.now ≡ false → shelf.new ≡ shelf.old }
    ensures wrote { IsTrue H.tells → IsTrue S.tells → EntryKeepsBound now entry.now (H.disk host.old) (H.disk host.new) (S.files shelf.old) }
    ensures wrote_any { entry_uses_shelf entry.now ≡ false → IsTrue H.tells → (files : ShelfFiles) → EntryKeepsBound now entry.now (H.disk host.old) (H.disk host.new) files }
    ensures wrote_between { IsTrue H.tells → ¬ IsErrOf result Stop.DiskFault → EntryFilesKeepBound entry.now (H.disk host.old) (H.disk host.new) }
{
    match entry {
        Entry::Run(command) => perform_command(alloc, host, shelf, kept, command, now),
        Entry::Wrong(usage) => Class::Usage.once_said(usage.say(host)),
        Entry::Refuse(refusal) => Class::Refused.once_said(refusal.say(host)),
    }
}
