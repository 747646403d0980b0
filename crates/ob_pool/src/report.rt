mod counting;
mod counts;
mod ending;

pub use counting::counts_in;
pub use counts::Counts;
pub use ending::into_report;
use ob_history::Recorded;

/// What a drive came to: the finished history, and its numbers.
#[derive(Debug, Drop)]
pub struct Report {
    /// The whole history. Writer w is caller w, and the transport is the last caller.
    pub recorded: Recorded,
    /// How many writes were accepted.
    pub writes: u64,
    /// How many flushes were accepted.
    pub flushes: u64,
    /// How many cancellations were accepted.
    pub cancels: u64,
    /// How many user bits were accepted.
    pub bits: u64,
    /// How many commands of writers were refused.
    pub refused: u64,
    /// How many bytes the accepted removals took.
    pub taken: u64,
    /// How many promises succeeded.
    pub success: u64,
    /// How many promises failed.
    pub failed: u64,
    /// How many promises were cancelled.
    pub cancelled: u64,
    /// How many promises of accepted writes are not settled.
    pub left: u64,
    /// What is left of the words of the hand-off: the total, and the word.
    pub hand: (u64, u32),
}
