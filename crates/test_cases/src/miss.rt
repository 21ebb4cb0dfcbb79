use std::alloc::{AllocError, Global};
use thiserror::Error;

/// Where something differs from its example.
#[derive(Debug, Drop, Error)]
pub enum Miss {
    /// A case has found something else.
    #[error("line {line} of the cases, `{case}`, has found: {found}")]
    Differs {
        line: usize,
        case: String,
        found: String,
    },
    /// A line isn't written as lines of cases are.
    #[error("a line is no line of a case")]
    Notation,
    /// A case has other words than its function takes.
    #[error("a case has other words than it needs")]
    Words,
    /// What is given doesn't lead to the call that the example is about.
    #[error("a case doesn't lead to the call that it is about")]
    Unreached,
    /// The example has no memory.
    #[error(transparent)]
    Memory(#[from(alloc)] AllocError),
}

impl Miss {
    /// A case has found something else.
    pub(crate) fn differs(
        alloc: Global,
        line: usize,
        case: &str,
        found: String,
    ) -> Result<Miss, AllocError> {
        let case = String::from_str(alloc, case)?;
        Ok(Miss::Differs { line, case, found })
    }
}
