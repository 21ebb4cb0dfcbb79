use crate::refusal::Refusal;
use std::alloc::AllocError;

/// Why a command over the shelf isn't carried out.
#[derive(Drop)]
pub enum Halt {
    /// It is refused.
    Refused(Refusal),
    /// A call of the shelf failed.
    ShelfFault,
    /// Memory ran out.
    OutOfMemory,
}

impl From<AllocError> for Halt {
    ghost use Rattle.std.specs.Prelude.{◌≡◌};
    ghost use Rattle.shelf_files.specs.declared.halt.Halt.TheVariants.{OutOfMemory};

    ghost from_gives = { λ _ e. e ≡ OutOfMemory };

    fn from(_error: AllocError) -> Halt {
        Halt::OutOfMemory
    }
}
