//! What the commands of a managed connection return to C: a reply, and whether the end was reached by the call.

ghost use Rattle.std.specs.Prelude.{◌≡◌};
ghost use Rattle.ob_c.specs.Managing.{managed_fault_number, reported, reported_write};
ghost use Rattle.ob_c.specs.Managing.{told_cancelled_in_c, told_changed_in_c, told_done_in_c, told_flushed_in_c};
ghost use Rattle.ob_c.specs.Managing.{told_removed_in_c, told_taken_in_c};

use crate::numbers::{FINISHING, FULL, NOT_OPEN, accepted, status_of};
use crate::replies::{Cancelled, Changed, Flushed, Removed, Taken};
use ob_connection::Written;
use ob_lifecycle::{Told, WriteFault};
use ob_types::{Change, Refusal};

/// What a command has to report, and whether the end is reached by it.
pub(crate) fn reported<T>(told: Option<Told<Result<T, Refusal>>>) -> (Result<T, u32>, bool)
    ensures { result ≡ reported told }
{
    match told {
        None => (Err(NOT_OPEN), false),
        Some(told) => (accepted(Some(told.answer)), told.finished),
    }
}

/// What a write has to report.
pub(crate) fn reported_write(answer: Option<Result<Written, WriteFault>>) -> Result<Written, u32>
    ensures { result ≡ reported_write answer }
{
    match answer {
        None => Err(NOT_OPEN),
        Some(Err(why)) => Err(managed_fault_number(why)),
        Some(Ok(written)) => Ok(written),
    }
}

/// The status of a write that was refused.
fn managed_fault_number(why: WriteFault) -> u32
    ensures { result ≡ managed_fault_number why }
{
    match why {
        WriteFault::Refused(refusal) => u32::from(refusal.number()),
        WriteFault::Finishing => FINISHING,
        WriteFault::Full => FULL,
    }
}

/// What a command returns that has nothing more to say.
#[repr(C)]
#[derive(Clone, Copy)]
pub struct ToldDone {
    /// 0, or why nothing changed.
    pub status: u32,
    /// Whether the end is reached by this call.
    pub finished: bool,
}

impl ToldDone {
    /// What C gets for this.
    pub(crate) fn of(told: (Result<(), u32>, bool)) -> ToldDone
        ensures { result ≡ told_done_in_c told }
    {
        let (answer, finished) = told;
        ToldDone {
            status: status_of(answer),
            finished,
        }
    }
}

/// What a flush returns.
#[repr(C)]
#[derive(Clone, Copy)]
pub struct ToldFlushed {
    /// The reply.
    pub flushed: Flushed,
    /// Whether the end is reached by this call.
    pub finished: bool,
}

impl ToldFlushed {
    /// What C gets for this.
    pub(crate) fn of(told: (Result<ob_connection::Flushed, u32>, bool)) -> ToldFlushed
        ensures { result ≡ told_flushed_in_c told }
    {
        let (answer, finished) = told;
        ToldFlushed {
            flushed: Flushed::of(answer),
            finished,
        }
    }
}

/// What the removal of the first flushed message returns.
#[repr(C)]
#[derive(Clone, Copy)]
pub struct ToldRemoved {
    /// The reply.
    pub removed: Removed,
    /// Whether the end is reached by this call.
    pub finished: bool,
}

impl ToldRemoved {
    /// What C gets for this.
    pub(crate) fn of(told: (Result<ob_connection::Removed, u32>, bool)) -> ToldRemoved
        ensures { result ≡ told_removed_in_c told }
    {
        let (answer, finished) = told;
        ToldRemoved {
            removed: Removed::of(answer),
            finished,
        }
    }
}

/// What a call returns that takes several messages away.
#[repr(C)]
#[derive(Clone, Copy)]
pub struct ToldTaken {
    /// The reply.
    pub taken: Taken,
    /// Whether the end is reached by this call.
    pub finished: bool,
}

impl ToldTaken {
    /// What C gets for this.
    pub(crate) fn of(told: (Result<ob_connection::Taken, u32>, bool)) -> ToldTaken
        ensures { result ≡ told_taken_in_c told }
    {
        let (answer, finished) = told;
        ToldTaken {
            taken: Taken::of(answer),
            finished,
        }
    }
}

/// What a cancellation returns.
#[repr(C)]
#[derive(Clone, Copy)]
pub struct ToldCancelled {
    /// The reply.
    pub cancelled: Cancelled,
    /// Whether the end is reached by this call.
    pub finished: bool,
}

impl ToldCancelled {
    /// What C gets for this.
    pub(crate) fn of(told: (Result<bool, u32>, bool)) -> ToldCancelled
        ensures { result ≡ told_cancelled_in_c told }
    {
        let (answer, finished) = told;
        ToldCancelled {
            cancelled: Cancelled::of(answer),
            finished,
        }
    }
}

/// What a change of a user bit returns.
#[repr(C)]
#[derive(Clone, Copy)]
pub struct ToldChanged {
    /// The reply.
    pub changed: Changed,
    /// Whether the end is reached by this call.
    pub finished: bool,
}

impl ToldChanged {
    /// What C gets for this.
    pub(crate) fn of(told: (Result<Option<Change>, u32>, bool)) -> ToldChanged
        ensures { result ≡ told_changed_in_c told }
    {
        let (answer, finished) = told;
        ToldChanged {
            changed: Changed::of(answer),
            finished,
        }
    }
}
