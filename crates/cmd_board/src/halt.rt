use intent_journal::JournalError;
use jam_records::Damage;
use mail_board::LoadError;
use shelf_files::{Halt, Refusal};
use std::alloc::AllocError;

/// Why a command that touches the board isn't carried out.
#[derive(Drop)]
pub enum BoardHalt {
    /// It is refused.
    Refused(Refusal),
    /// The data files are neither all empty nor the layout of a board. This is the first rule that they break.
    Damaged(Damage),
    /// A file call of the host failed.
    DiskFault,
    /// A call of the shelf failed.
    ShelfFault,
    /// Memory ran out.
    OutOfMemory,
}

impl From<LoadError> for BoardHalt {
    ghost use Rattle.std.specs.Prelude.{◌≡◌};
    ghost use Rattle.cmd_board.specs.Halts.{halt_of_read};

    ghost from_gives = { λ error e. e ≡ halt_of_read error };

    fn from(error: LoadError) -> BoardHalt {
        match error {
            LoadError::Damaged(damage) => BoardHalt::Damaged(damage),
            LoadError::DiskFault => BoardHalt::DiskFault,
            LoadError::OutOfMemory => BoardHalt::OutOfMemory,
        }
    }
}

impl From<JournalError> for BoardHalt {
    ghost use Rattle.std.specs.Prelude.{◌≡◌};
    ghost use Rattle.cmd_board.specs.Halts.{of_journal};

    ghost from_gives = { λ error e. e ≡ of_journal error };

    fn from(error: JournalError) -> BoardHalt {
        match error {
            JournalError::DiskFault => BoardHalt::DiskFault,
            JournalError::OutOfMemory => BoardHalt::OutOfMemory,
        }
    }
}

impl From<Halt> for BoardHalt {
    ghost use Rattle.std.specs.Prelude.{◌≡◌};
    ghost use Rattle.cmd_board.specs.Halts.{of_shelf};

    ghost from_gives = { λ halt e. e ≡ of_shelf halt };

    fn from(halt: Halt) -> BoardHalt {
        match halt {
            Halt::Refused(refusal) => BoardHalt::Refused(refusal),
            Halt::ShelfFault => BoardHalt::ShelfFault,
            Halt::OutOfMemory => BoardHalt::OutOfMemory,
        }
    }
}

impl From<AllocError> for BoardHalt {
    ghost use Rattle.std.specs.Prelude.{◌≡◌};
    ghost use Rattle.cmd_board.specs.declared.halt.BoardHalt.TheVariants.{OutOfMemory};

    ghost from_gives = { λ _ e. e ≡ OutOfMemory };

    fn from(_error: AllocError) -> BoardHalt {
        BoardHalt::OutOfMemory
    }
}
