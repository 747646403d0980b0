use ob_connection::{Flushed, Written};

/// What a call returns that writes and flushes under one lock.
#[must_use]
#[derive(Clone, Copy, Debug, PartialEq, Eq)]
pub struct WrittenAndFlushed {
    /// What the write returned.
    pub written: Written,
    /// What the flush behind it returned.
    pub flushed: Flushed,
}
