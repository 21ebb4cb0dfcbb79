ghost use Rattle.std.specs.Prelude.{◌<◌, ◌^◌, length, IfOk};
ghost use Rattle.jam_adopt.specs.Texts.{AreTables};

use crate::leaps::Leaps;
use crate::texts::Texts;
use std::alloc::{AllocError, Global};

/// What headers and texts are looked up in: 8 bytes for each of .JHR, and 5 for each of .JDT.
#[derive(Debug, Drop)]
pub(crate) struct Tables {
    pub(crate) leaps: Leaps,
    pub(crate) texts: Texts,
}

impl Tables {
    /// Those of a base.
    pub(crate) fn of(alloc: Global, jhr: &[u8], jdt: &[u8]) -> Result<Tables, AllocError>
        requires jhr { length jhr.now < 2 ^ 31 }
        requires jdt { length jdt.now < 2 ^ 31 }
        ensures { IfOk result (AreTables jhr.now jdt.now) }
    {
        let leaps = Leaps::of(alloc, jhr)?;
        let texts = Texts::of(alloc, jdt)?;
        Ok(Tables { leaps, texts })
    }
}
