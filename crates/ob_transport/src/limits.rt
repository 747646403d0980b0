/// How much a transport offers to a sink at once. Both are at least 1.
#[derive(Clone, Copy, Debug, PartialEq, Eq)]
pub struct Limits {
    /// The most blocks.
    pub max_count: u32,
    /// The most bytes, but the first block is offered however long it is.
    pub max_bytes: u32,
}
