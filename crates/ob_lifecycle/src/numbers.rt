use crate::count::Count;
use crate::refusals::Refusals;

/// What was written to a connection, and how it ended: what was accepted is what was sent, failed, was cancelled and is
/// pending, at each moment.
#[derive(Clone, Copy, Debug, PartialEq, Eq)]
pub struct Numbers {
    /// All that was accepted.
    pub accepted: Count,
    /// What was taken away as sent.
    pub sent: Count,
    /// What was taken away as failed; a close fails all that it finds.
    pub failed: Count,
    /// What was cancelled in time, from the flush on that voided it.
    pub cancelled: Count,
    /// What is pending: what no flush has reached, and what is flushed and was neither voided nor taken away.
    pub pending: Count,
    /// The most bytes that were pending at any moment.
    pub peak: u64,
    /// How often writers were stopped: how often the connection became unwritable.
    pub stops: u64,
    /// For how long it was unwritable, all together, in units of the caller: time goes on at ticks alone.
    pub stopped: u64,
    /// How often calls were refused, by the reason.
    pub refusals: Refusals,
}
