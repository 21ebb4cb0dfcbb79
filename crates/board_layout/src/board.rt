ghost use Rattle.std.specs.Prelude.{◌≡◌, ◌<◌, ◌^◌, sum_by, unwrap_or};
ghost use Rattle.board_layout.specs.Board.{board_with, conferences_in, shapes_in, shapes_of};
ghost use Rattle.board_layout.specs.Layout.{base_size, board_size};
ghost use Rattle.board_layout.specs.Outlines.{board_outline};
ghost use Rattle.board_layout.specs.Renewed.{contents_of, renewed};
ghost use Rattle.board_layout.specs.Valid.{IsBoard};

use board_ledger::Ledger;
use jam_base::Base;
use jam_records::List;
use std::marker::Model;

/// How many bytes the data files may have together.
pub const BOARD_LIMIT: u64 = 34_603_008;

/// Conferences, by place from 0.
pub type Bases = List<Base>;

/// The outline of a valid board: all that its files hold but the bodies of its messages. Contracts see it as a `Board`,
/// which is its own outline.
#[derive(Debug, Drop)]
pub struct StoredBoard {
    /// Its setup, when it was made, its users and its upload records.
    ledger: Ledger,
    /// Its conferences, one for each of the setup.
    bases: Vec<Base>,
}

impl Model for StoredBoard {
    ghost use Rattle.std.specs.Prelude.{◌≡◌};
    ghost use Rattle.board_layout.specs.Board.{Board, board_with, shapes_in, shapes_of};
    ghost use Rattle.board_layout.specs.Outlines.{board_outline};
    ghost use Rattle.board_layout.specs.Valid.{IsBoard};

    ghost Value = { Board };

    ghost view = { λ s. board_with s.ledger s.bases.items };

    ghost invariant = { λ s. IsBoard (board_with s.ledger s.bases.items) × (shapes_in s.bases.items ≡ shapes_of s.ledger) × (board_outline (board_with s.ledger s.bases.items) ≡ board_with s.ledger s.bases.items) };
}

/// How many bytes the files of bases have together.
fn bases_size(bases: &[Base]) -> u64
    requires { sum_by base_size bases.now < 2 ^ 64 }
    ensures { result ≡ sum_by base_size bases.now }
{
    let mut size = 0;
    for base in bases {
        size += base.size();
    }
    size
}

/// Puts the next ledger in place of the old one, where there is one.
fn renew_ledger(ledger: &mut Ledger, next: Option<Ledger>)
    ensures { ledger.new ≡ unwrap_or next ledger.old }
{
    if let Some(next) = next {
        *ledger = next;
    }
}

/// Puts each new base in place of the old one.
fn renew_bases(olds: &mut [Base], mut news: Vec<Option<Base>>)
    ensures { olds.new ≡ renewed olds.old news.items }
{
    while let Some(new) = news.pop() {
        let place = news.len();
        if let Some(base) = new {
            if place < olds.len() {
                olds[place] = base;
            }
        }
    }
}

impl StoredBoard {
    /// The board of a ledger and its conferences, in order of the setup, which is its own outline.
    pub fn new(ledger: Ledger, bases: Bases) -> StoredBoard
        requires board { IsBoard (board_with ledger bases) }
        requires shapes { shapes_in bases ≡ shapes_of ledger }
        requires outline { board_outline (board_with ledger bases) ≡ board_with ledger bases }
        ensures { result ≡ board_with ledger bases }
    {
        StoredBoard {
            ledger,
            bases: bases.into_vec(),
        }
    }

    /// Its ledger.
    pub fn ledger(&self) -> &Ledger
        ensures ledger { result.now ≡ self.now.ledger }
        ensures board { IsBoard self.now }
        ensures outline { board_outline self.now ≡ self.now }
    {
        &self.ledger
    }

    /// Its conferences, by place.
    pub fn bases(&self) -> &[Base]
        ensures contents { result.now ≡ contents_of self.now }
        ensures conferences { conferences_in result.now ≡ self.now.conferences }
        ensures shapes { shapes_in result.now ≡ shapes_of self.now.ledger }
        ensures board { IsBoard self.now }
        ensures outline { board_outline self.now ≡ self.now }
    {
        self.bases.as_slice()
    }

    /// Puts a ledger in place of its own, where there is one, and each new conference in place of the old one. It
    /// takes no memory.
    pub fn renew(&mut self, ledger: Option<Ledger>, bases: List<Option<Base>>)
        requires board { IsBoard (board_with (unwrap_or ledger self.old.ledger) (renewed (contents_of self.old) bases)) }
        requires shapes { shapes_in (renewed (contents_of self.old) bases) ≡ shapes_of (unwrap_or ledger self.old.ledger) }
        requires outline { board_outline (board_with (unwrap_or ledger self.old.ledger) (renewed (contents_of self.old) bases)) ≡ board_with (unwrap_or ledger self.old.ledger) (renewed (contents_of self.old) bases) }
        ensures { self.new ≡ board_with (unwrap_or ledger self.old.ledger) (renewed (contents_of self.old) bases) }
    {
        renew_bases(&mut self.bases, bases.into_vec());
        renew_ledger(&mut self.ledger, ledger);
    }

    /// How many bytes its data files have together, at most 34,603,008. It takes no memory.
    pub fn size(&self) -> u64
        ensures { result ≡ board_size self.now }
    {
        self.ledger.size() + bases_size(self.bases.as_slice())
    }
}
