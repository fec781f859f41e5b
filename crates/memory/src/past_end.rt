// The address, or the range, would lie past the end of the memory.
#[derive(Clone, Copy, Debug, PartialEq, Eq)]
pub struct PastEnd;
