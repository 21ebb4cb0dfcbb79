//! The command `enroll`.
ghost use Rattle.std.specs.Prelude.{◌≡◌, ◌<◌, IfOk, IsTrue, Option};
ghost use Rattle.board_layout.specs.Board as Boards;
ghost use Rattle.cmd_words.specs.Choice.{ChoiceReads, chosen_from};
ghost use Rattle.cmd_words.specs.declared.choice.Choice as Choices;
ghost use Rattle.door_outside.specs.Shelf.{ShelfFiles};
ghost use Rattle.entry_runs.specs.Door.{World};
ghost use Rattle.entry_runs.specs.Entry.{IsAt, Works};
ghost use Rattle.entry_runs.specs.Promise.{ended};
ghost use Rattle.mail_board.specs.declared.change.Change.TheVariants.{Enroll};
ghost use Rattle.cmd_board.specs.Causes.{HostHasCauses};
ghost use Rattle.cmd_board.specs.Enrolling.{MayEnroll};
ghost use Rattle.cmd_board.specs.Enroll.{enroll_refusals, enrolled_line, enrolls, first_refusal, is_net_flag as is_net_of};
ghost use Rattle.cmd_board.specs.Halts.{told};
ghost use Rattle.cmd_board.specs.Kept.{AreLike, AreSure, IsKept, IsBoardRead, kept_board};
ghost use Rattle.cmd_board.specs.State.{State, Stores};

use crate::finding::find;
use crate::halt::BoardHalt;
use crate::making::make_change;
use crate::sizes::size_refusal;
use board_ledger::USER_LIMIT;
use byte_lists::Bytes;
use cmd_words::Choice;
use door_outside::Host;
use mail_board::{Board, Change, Loaded};
use setup_file::is_user_name;
use shelf_files::Refusal;
use std::alloc::{AllocError, Global};

/// A user who was enrolled.
#[derive(Debug, Drop)]
pub struct Enrolled {
    /// The id, from 1.
    pub id: u32,
    /// The name.
    pub name: Bytes,
}

/// Whether the flags say that the user may write net mail.
fn is_net(flags: &[u8]) -> bool
    ensures { result ≡ is_net_of flags.now }
{
    flags == b"n".as_slice()
}

/// The change that enrolls a user, a member of the chosen conferences.
fn change_of(
    alloc: Global,
    board: &Board,
    name: &[u8],
    net: bool,
    choice: &Choice,
) -> Result<Change, AllocError>
    ensures { IfOk result (λ change. change ≡ Enroll name.now net (chosen_from choice.now 0 board.now.board.ledger.setup.conferences)) }
{
    let members = choice.places(board.setup().fields().conferences.as_slice());
    Ok(Change::Enroll {
        name: Bytes::from_slice(alloc, name)?,
        net,
        members,
    })
}

/// The first reason of these why a change doesn't enroll a user:
///
/// - The name is no user name.
/// - A user has it.
/// - A number is that of no conference.
/// - There are as many users as there may be.
/// - The files would be too long.
fn refusal_of(
    board: &Board,
    name: &[u8],
    net: bool,
    choice: &Choice,
    change: &Change,
) -> Option<Refusal>
    requires { change.now ≡ Enroll name.now net (chosen_from choice.now 0 board.now.board.ledger.setup.conferences) }
    ensures { result ≡ first_refusal (enroll_refusals name.now net choice.now board.now.board) }
{
    if !is_user_name(name) {
        return Some(Refusal::Name);
    }
    if board.user_id(name).is_some() {
        return Some(Refusal::DupUser);
    }
    if choice.has_unknown(board.setup().fields().conferences.as_slice()) {
        return Some(Refusal::NoConference);
    }
    if board.user_count() as usize >= USER_LIMIT {
        return Some(Refusal::Users);
    }
    size_refusal(board, change)
}

/// A user who may be enrolled: by which change, and what is answered.
#[derive(Debug, Drop)]
struct Enrolling {
    change: Change,
    user: Enrolled,
}

/// The enrolling of a user on each board with the outline that is kept, or why it is refused.
fn prepared(
    alloc: Global,
    kept: &Option<Loaded>,
    name: &[u8],
    flags: &[u8],
    conferences: &[u8],
) -> Result<Enrolling, BoardHalt>
    requires choice { (choice : Choices.Choice) × ChoiceReads conferences.now choice }
    requires read { IsBoardRead kept.now }
    requires sure { AreSure kept.now }
    ensures { (board : Option Boards.Board) → AreLike board (kept_board kept.now) → MayEnroll name.now flags.now conferences.now board result }
{
    let Some(Loaded::Ready(board)) = kept else {
        return Err(BoardHalt::Refused(Refusal::NotMade));
    };
    let Some(choice) = Choice::parse(alloc, conferences)? else {
        unreachable!()
    };
    let net = is_net(flags);
    let change = change_of(alloc, board, name, net, &choice)?;
    if let Some(refusal) = refusal_of(board, name, net, &choice, &change) {
        return Err(BoardHalt::Refused(refusal));
    }
    let user = Enrolled {
        id: board.user_count() + 1,
        name: Bytes::from_slice(alloc, name)?,
    };
    Ok(Enrolling { change, user })
}

/// Enrolls a user of a name behind the others, a member of the conferences that the word CONFS names, and answers the
/// id. The user may write net mail where the word FLAGS is `n`.
///
/// It is refused where there is no board, and else for the first of these that applies:
///
/// - The name is no user name.
/// - A user has it.
/// - A number is that of no conference.
/// - There are 500 users.
/// - The files would be too long.
pub fn enroll<H: Host>(
    alloc: Global,
    host: &mut H,
    kept: &mut Option<Loaded>,
    name: &[u8],
    flags: &[u8],
    conferences: &[u8],
) -> Result<Enrolled, BoardHalt>
    requires choice { (choice : Choices.Choice) × ChoiceReads conferences.now choice }
    requires sure { AreSure kept.old }
    requires kept { IsTrue H.tells → IsKept kept.old (H.disk host.old) }
    ensures works { IsTrue H.tells → (world : World State) (shelf : ShelfFiles) → IsAt Stores world (H.disk host.old) shelf → Works Stores (enrolls name.now flags.now conferences.now) world (H.disk host.old) (H.disk host.new) shelf (told enrolled_line result) }
    ensures kept { IsTrue H.tells → IsKept kept.new (H.disk host.new) }
    ensures sure { AreSure kept.new }
    ensures causes { HostHasCauses H.disk_faults H.voice_faults host.old host.new (ended (told enrolled_line result)) }
{
    find(alloc, host, kept)?;
    let enrolling = prepared(alloc, kept, name, flags, conferences)?;
    make_change(alloc, host, kept, &enrolling.change)?;
    Ok(enrolling.user)
}
