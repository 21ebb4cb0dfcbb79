use byte_lists::List;

/// Numbers of calls, counted from 1.
pub type CallNumbers = List<u32>;

/// Which calls of an object in memory fail. All its calls are counted, from 1.
#[derive(Debug, Drop)]
pub struct FaultPlan {
    /// The numbers of calls that fail.
    pub fails: CallNumbers,
    /// The number from which on every call fails.
    pub stop: Option<u32>,
}
