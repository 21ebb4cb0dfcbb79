//! Hosts and shelves in memory, and the plans by which their calls fail.
use memory_outside::{CallNumbers, FaultPlan, MemoryHost, MemoryShelf};
use std::alloc::{AllocError, Global};

/// A plan by which no call fails.
pub fn no_faults(alloc: Global) -> FaultPlan {
    stops_at(alloc, None)
}

/// A plan by which every call fails from one on.
pub fn stops_at(alloc: Global, stop: Option<u32>) -> FaultPlan {
    FaultPlan {
        fails: CallNumbers::new(alloc),
        stop,
    }
}

/// A plan by which one call fails.
pub fn fails_at(alloc: Global, call: u32) -> Result<FaultPlan, AllocError> {
    let mut fails = CallNumbers::new(alloc);
    fails.add(call)?;
    Ok(FaultPlan { fails, stop: None })
}

/// A host with empty files.
pub fn empty_host(alloc: Global) -> MemoryHost {
    MemoryHost::new(alloc, no_faults(alloc))
}

/// An empty shelf.
pub fn empty_shelf(alloc: Global) -> MemoryShelf {
    MemoryShelf::new(alloc, no_faults(alloc))
}

/// An empty shelf of which one call fails.
pub fn failing_shelf(alloc: Global, call: u32) -> Result<MemoryShelf, AllocError> {
    let plan = fails_at(alloc, call)?;
    Ok(MemoryShelf::new(alloc, plan))
}
