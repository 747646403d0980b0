use ob_types::{Message, Refusal};
use thiserror::Error;

/// Why a write was refused. The connection is as it was.
#[derive(Clone, Copy, Debug, PartialEq, Eq, Error)]
pub enum WriteFault {
    /// The connection refused it.
    #[error("{0}")]
    Refused(Refusal),
    /// The connection is within a budget, and its seat does not hold what the message counts beside what is pending:
    /// `act_within` has it hold that first, if the budget has room.
    #[error("the seat of the connection does not hold the message")]
    Uncovered,
}

/// A message that was not written, and why: it is the caller's again.
#[derive(Debug, Drop, Error)]
#[error("{why}")]
pub struct NotWritten {
    /// Why it was not written.
    pub why: WriteFault,
    /// The message, whole.
    pub message: Message,
}
