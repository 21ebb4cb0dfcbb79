ghost use Rattle.std.specs.Prelude.{◌≡◌, ◌<◌, ◌+◌, [], map, length, slice_get, Some, IfOk, OnOk};
ghost use Rattle.board_changes.specs.Change.{Leads};
ghost use Rattle.board_changes.specs.Changed.{made as made_of, empty_conferences};
ghost use Rattle.board_changes.specs.Gathered.{Gathered, FitJournal};
ghost use Rattle.board_layout.specs.Board.{shape_of, shapes_of};
ghost use Rattle.board_layout.specs.Layout.{AreEmpty, layouts};
ghost use Rattle.board_layout.specs.Valid.{IsBoard};
ghost use Rattle.board_ledger.specs.Ledger.{ledger_text};
ghost use Rattle.board_ledger.specs.Valid.{IsLedger};
ghost use Rattle.board_layout.specs.jam_base.Contents.{no_slots};

use crate::gathering::{add_all, ledger_intent};
use board_layout::{Base, Bases, StoredBoard, shape_at};
use board_ledger::{Ledger, Setup, Uploads, Users};
use intent_journal::Intent;
use jam_records::Kind;
use std::alloc::{AllocError, Global};

/// A new board, and what makes its files of empty ones.
#[derive(Drop)]
pub struct NewBoard {
    /// The board.
    pub board: StoredBoard,
    /// What makes its data files of those of no board.
    pub intent: Intent,
}

/// The base of a new conference in a place, whose files the intent makes too.
fn fresh_base(
    alloc: Global,
    ledger: &Ledger,
    place: u8,
    kind: Kind,
    intent: &mut Intent,
) -> Result<Base, AllocError>
    requires ledger { IsLedger ledger.now }
    requires shape { slice_get (shapes_of ledger.now) place ≡ Some (shape_of ledger.now place kind) }
    requires gathered { Gathered AreEmpty (ledger_text ledger.now) [] (layouts (shapes_of ledger.now) (empty_conferences (shapes_of ledger.now))) place intent.old }
    requires fit { FitJournal (ledger_text ledger.now) (layouts (shapes_of ledger.now) (empty_conferences (shapes_of ledger.now))) }
    ensures base { IfOk result (λ base. base ≡ record { shape = shape_of ledger.now place kind; conference = no_slots (shape_of ledger.now place kind) }) }
    ensures gathers { OnOk result (Gathered AreEmpty (ledger_text ledger.now) [] (layouts (shapes_of ledger.now) (empty_conferences (shapes_of ledger.now))) (place + 1) intent.new) }
{
    let shape = shape_at(alloc, ledger, place, kind)?;
    let change = Base::fresh(alloc, &shape)?;
    add_all(intent, change.patches)?;
    Ok(change.base)
}

/// The bases of new conferences, one for each of the setup, whose files the intent makes too.
fn fresh_bases(alloc: Global, ledger: &Ledger, intent: &mut Intent) -> Result<Bases, AllocError>
    requires ledger { IsLedger ledger.now }
    requires gathered { Gathered AreEmpty (ledger_text ledger.now) [] (layouts (shapes_of ledger.now) (empty_conferences (shapes_of ledger.now))) 0 intent.old }
    requires fit { FitJournal (ledger_text ledger.now) (layouts (shapes_of ledger.now) (empty_conferences (shapes_of ledger.now))) }
    ensures shapes { IfOk result (λ bases. map (λ base. base.shape) bases ≡ shapes_of ledger.now) }
    ensures conferences { IfOk result (λ bases. map (λ base. base.conference) bases ≡ empty_conferences (shapes_of ledger.now)) }
    ensures gathers { OnOk result (Gathered AreEmpty (ledger_text ledger.now) [] (layouts (shapes_of ledger.now) (empty_conferences (shapes_of ledger.now))) (length (shapes_of ledger.now)) intent.new) }
{
    let mut bases = Bases::new(alloc);
    for (place, conference) in ledger
        .setup
        .fields()
        .conferences
        .as_slice()
        .iter()
        .enumerate()
    {
        bases.add(fresh_base(alloc, ledger, place as u8, conference.kind, intent)?)?;
    }
    Ok(bases)
}

/// The board of a setup, which is valid: no users, no slots, and all change counters 0.
///
/// The error comes where there is no memory.
pub fn made(alloc: Global, setup: Setup, created: u32) -> Result<NewBoard, AllocError>
    ensures valid { IsBoard (made_of setup created) }
    ensures board { IfOk result (λ new. new.board ≡ made_of setup created) }
    ensures leads { IfOk result (λ new. Leads AreEmpty (made_of setup created) new.intent) }
{
    let _fields = setup.fields();
    let ledger = Ledger {
        version: 2,
        setup,
        created,
        users: Users::new(alloc),
        uploads: Uploads::new(alloc),
    };
    let mut intent = ledger_intent(alloc, &ledger)?;
    let bases = fresh_bases(alloc, &ledger, &mut intent)?;
    let board = StoredBoard::new(ledger, bases);
    Ok(NewBoard { board, intent })
}
