/// What a managed connection is held to. Times are in units of the caller.
#[derive(Clone, Copy, Debug, PartialEq, Eq)]
pub struct Limits {
    /// The cap: the most bytes that may be pending. A write past it is refused as `Full`.
    pub most_pending: u32,
    /// How long a window is in which the peer has to take something.
    pub window: u64,
    /// The least number of bytes that it has to take in each window; with 0 no peer is ever named.
    pub least_bytes: u64,
}
