/// Where a body stands in .JDT.
#[derive(Debug, Clone, Copy, PartialEq, Eq)]
pub struct Span {
    /// Where it begins, in bytes from 0.
    pub at: u32,
    /// How many bytes it has, at most 16,384.
    pub len: u32,
}
