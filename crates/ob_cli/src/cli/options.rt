ghost use Rattle.std.specs.Prelude.{◌<◌, ◌≤◌};
ghost use Rattle.ob_types.specs.Limits.{greatest_overhead, greatest_unknown};
ghost use Rattle.ob_history.specs.History.{most_records};

use ob_types::{Estimate, WaterMark};

/// What a run or a drive is given beside its script. The two numbers of the estimate and that of the task are at most
/// 65535 bytes, and the limit is 1 to 1048576 records.
#[derive(Clone, Copy)]
pub struct Options {
    /// The water marks of the buffer.
    pub marks: WaterMark,
    /// How many bytes a message counts.
    pub estimate: Estimate,
    /// The most commands that the stored history keeps; further ones are refused.
    pub limit: u32,
    /// How many bytes a message counts beside its own while a writer of a drive hands it over. A run has no use for it.
    pub task: u32,
    /// Whether the writers of a drive heed the marks. A run has no use for it.
    pub heed: bool,
    ghost small_overhead: { estimate.overhead ≤ greatest_overhead },
    ghost small_unknown: { estimate.unknown ≤ greatest_unknown },
    ghost some_record: { 0 < limit },
    ghost few_records: { limit ≤ most_records },
    ghost small_task: { task ≤ greatest_overhead },
}
