use ob_types::{Message, Refusal};
use thiserror::Error;

/// What a call returned, and whether the end is reached by it. It must be used: nothing tells the end again.
#[must_use]
#[derive(Debug, Drop)]
pub struct Told<T> {
    /// What the connection's call returned.
    pub answer: T,
    /// Whether the end was asked for, and nothing that was accepted is left, for the first time now.
    pub finished: bool,
}

/// Why a write was refused.
#[derive(Clone, Copy, Debug, PartialEq, Eq, Error)]
pub enum WriteFault {
    /// The connection refused it.
    #[error("{0}")]
    Refused(Refusal),
    /// The end was asked for: no write is accepted any more.
    #[error("the connection is finishing")]
    Finishing,
    /// More bytes would be pending than the cap allows.
    #[error("more would be pending than the connection may hold")]
    Full,
}

/// A message that was not written, and why: it is the caller's again.
#[derive(Debug, Drop, Error)]
#[error("{why}")]
pub struct NotWritten {
    /// Why it was not written.
    pub why: WriteFault,
    /// The message, whole.
    pub message: Message,
}
