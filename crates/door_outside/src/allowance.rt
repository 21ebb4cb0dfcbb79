use crate::fault::ShelfFault;
use crate::name::ShelfName;
use crate::shelf::{Piece, Shelf};
use std::marker::Model;

/// How many bytes of a file may still be asked for. The file is read from its start on, piece behind piece.
#[derive(Drop)]
pub struct Allowance {
    taken: u32,
    left: u32,
}

impl Model for Allowance {
    ghost use Rattle.std.specs.Prelude.{◌+◌, ◌≤◌, ◌^◌};
    ghost use Rattle.door_outside.specs.Allowance.{AllowanceState};

    ghost Value = { AllowanceState };

    ghost view = { λ a. record { taken = a.taken; left = a.left } };

    ghost invariant = { λ a. a.taken + a.left ≤ 2 ^ 31 };
}

impl Allowance {
    ghost use Rattle.std.specs.Prelude.{◌≡◌, ◌≤◌, ◌^◌, length, IfOk, OnErr, IsTrue};
    ghost use Rattle.door_outside.specs.Allowance.{after_piece};
    ghost use Rattle.door_outside.specs.Cause.{HasCause};
    ghost use Rattle.door_outside.specs.Shelf.{held, PieceIs, PieceWithin};

    /// So many bytes of a file of which none came yet.
    pub fn new(most: u32) -> Allowance
        requires { most ≤ 2 ^ 31 }
        ensures { result ≡ record { taken = 0; left = most } }
    {
        Allowance {
            taken: 0,
            left: most,
        }
    }

    /// How many bytes may still be asked for.
    pub fn left(&self) -> usize
        ensures { result ≡ self.now.left }
    {
        self.left as usize
    }

    /// Asks the shelf for the bytes of the file that come next, and takes off what came. The buffer is no longer than
    /// what is left.
    ///
    /// `ShelfFault` comes only where the shelf's count of faults rose. Nothing is taken off then.
    pub fn ask<S: Shelf>(
        &mut self,
        shelf: &mut S,
        name: &ShelfName,
        buf: &mut [u8],
    ) -> Result<Piece, ShelfFault>
        requires { length buf.old ≤ self.old.left }
        ensures bound { IfOk result (PieceWithin (length buf.old)) }
        ensures value { IsTrue S.tells → IfOk result (PieceIs (held (S.files shelf.old) name.now) self.old.taken buf.old buf.new) }
        ensures next { IfOk result (λ piece. self.new ≡ after_piece self.old piece) }
        ensures same { OnErr result (self.new ≡ self.old) }
        ensures unchanged { IsTrue S.tells → S.files shelf.new ≡ S.files shelf.old }
        ensures cause { HasCause (S.faults shelf.old) (S.faults shelf.new) result }
    {
        let piece = shelf.piece(name, self.taken, buf)?;
        if let Piece::Count(count) = piece {
            self.taken += count as u32;
            self.left -= count as u32;
        }
        Ok(piece)
    }
}
