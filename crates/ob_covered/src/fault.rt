use ob_budget::{Pressure, RaiseFault};
use ob_types::{Message, Refusal};
use thiserror::Error;

/// What a call returned, and the turn of pressure that it made. It must be used: nothing tells the turn again.
#[must_use]
#[derive(Debug, Drop)]
pub struct Told<T> {
    /// What the connection's call returned.
    pub answer: T,
    /// Whether this call began pressure at the budget, or ended it.
    pub pressure: Option<Pressure>,
}

/// Why a write was refused.
#[derive(Clone, Copy, Debug, PartialEq, Eq, Error)]
pub enum WriteFault {
    /// The connection refused it.
    #[error("{0}")]
    Refused(Refusal),
    /// The budget did not cover it.
    #[error("{0}")]
    OverBudget(RaiseFault),
}

/// A message that was not written, and why: it is the caller's again.
#[derive(Debug, Drop, Error)]
#[error("{why}")]
pub struct NotWritten {
    /// Why it was not written.
    pub why: WriteFault,
    /// The message, whole.
    pub message: Message,
}

/// No cover was cut off another: that one's seat is for too few, or its budget has more covers than can be counted.
#[derive(Clone, Copy, Debug, PartialEq, Eq, Error)]
#[error("the cover has no seat to give")]
pub struct NoSeat;
