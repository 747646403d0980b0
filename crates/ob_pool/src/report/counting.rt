//! The numbers of a finished history.

ghost use Rattle.std.specs.Prelude.{◌≡◌};
ghost use Rattle.ob_pool.specs.Inside.{AreTrueIfFit, counts_in, counts_of};
ghost use Rattle.ob_pool.specs.Report.{IsCounted};

use crate::report::Report;
use crate::report::counts::Counts;
use ob_history::{
    Receipt, Recorded, a_history_keeps_to_the_limits, a_history_settles_each_promise_once,
    a_history_tells_each_settled_promise,
};

/// The report of a finished history of *n* writers, whose counts are at hand, with what is left of the words of the
/// hand-off.
pub fn report_of(recorded: Recorded, counts: Counts, writers: u32, hand: (u64, u32)) -> Report
    requires { AreTrueIfFit (counts_of writers recorded.records) counts }
    ensures recorded { result.recorded ≡ recorded }
    ensures counted { IsCounted writers result }
    ensures hand { result.hand ≡ hand }
{
    a_history_keeps_to_the_limits();
    a_history_settles_each_promise_once();
    a_history_tells_each_settled_promise();
    // for the proof alone: the records are legal, and few
    let _records = recorded.records();
    Report {
        recorded,
        writes: counts.writes,
        flushes: counts.flushes,
        cancels: counts.cancels,
        bits: counts.bits,
        refused: counts.refused,
        taken: counts.taken,
        success: counts.success,
        failed: counts.failed,
        cancelled: counts.cancelled,
        left: counts.writes - (counts.success + counts.failed + counts.cancelled),
        hand,
    }
}

/// The counts of receipts, of which *n* callers are writers.
pub fn counts_in(receipts: &[Receipt], writers: u32) -> Counts
    ensures { AreTrueIfFit (counts_in writers receipts.now) result }
{
    let mut counts = Counts::zero();
    for one in receipts {
        counts.add(one, writers);
    }
    counts
}
