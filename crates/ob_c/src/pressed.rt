//! What the calls of a connection that a budget covers return to C: a reply, and how pressure at the budget changed.

ghost use Rattle.std.specs.Prelude.{◌≡◌};
ghost use Rattle.ob_c.specs.Budgets.{asked_status, budgeted_fault_number, command_told, covered_ahead_in_c, pressure_number, rested_in_c, write_told};
ghost use Rattle.ob_c.specs.Budgets.{pressed_cancelled_in_c, pressed_changed_in_c, pressed_done_in_c, pressed_flushed_in_c};
ghost use Rattle.ob_c.specs.Budgets.{pressed_removed_in_c, pressed_taken_in_c, pressed_written_in_c};

use crate::numbers::{BUSY, DONE, NOT_OPEN, OVER_BUDGET, accepted, change_number, status_of};
use crate::replies::{Cancelled, Changed, Removed, Taken, WrittenAndFlushed};
use ob_budget::{Pressure, RaiseFault};
use ob_covered::{Told, WriteFault};
use ob_types::{Change, Refusal};

/// The number of a turn of pressure.
pub(crate) fn pressure_number(pressure: Option<Pressure>) -> u16
    ensures { result ≡ pressure_number pressure }
{
    match pressure {
        None => 0,
        Some(Pressure::Began) => 1,
        Some(Pressure::Ended) => 2,
    }
}

/// What a command has to report, and the number of the turn of pressure.
pub(crate) fn command_told<T>(told: Option<Told<Result<T, Refusal>>>) -> (Result<T, u32>, u16)
    ensures { result ≡ command_told told }
{
    match told {
        None => (Err(NOT_OPEN), 0),
        Some(told) => (accepted(Some(told.answer)), pressure_number(told.pressure)),
    }
}

/// What a write has to report, and the number of the turn of pressure.
pub(crate) fn write_told(
    told: Option<Told<Result<ob_connection::Written, WriteFault>>>,
) -> (Result<ob_connection::Written, u32>, u16)
    ensures { result ≡ write_told told }
{
    let Some(told) = told else {
        return (Err(NOT_OPEN), 0);
    };
    match told.answer {
        Err(why) => (
            Err(budgeted_fault_number(why)),
            pressure_number(told.pressure),
        ),
        Ok(written) => (Ok(written), pressure_number(told.pressure)),
    }
}

/// The status of a write that was refused.
fn budgeted_fault_number(why: WriteFault) -> u32
    ensures { result ≡ budgeted_fault_number why }
{
    match why {
        WriteFault::Refused(refusal) => u32::from(refusal.number()),
        WriteFault::OverBudget(RaiseFault::Full) => OVER_BUDGET,
        WriteFault::OverBudget(RaiseFault::Busy) => BUSY,
    }
}

/// The status of an answer to who asked for cover.
fn asked_status(answer: Result<(), RaiseFault>) -> u32
    ensures { result ≡ asked_status answer }
{
    match answer {
        Ok(()) => DONE,
        Err(RaiseFault::Full) => OVER_BUDGET,
        Err(RaiseFault::Busy) => BUSY,
    }
}

/// What a command returns that has nothing more to say.
#[repr(C)]
#[derive(Clone, Copy)]
pub struct PressedDone {
    /// 0, or why nothing changed.
    pub status: u32,
    /// How pressure at the budget changed by this call.
    pub pressure: u32,
}

impl PressedDone {
    /// What C gets for this.
    pub(crate) fn of(told: (Result<(), u32>, u16)) -> PressedDone
        ensures { result ≡ pressed_done_in_c told }
    {
        let (answer, pressure) = told;
        PressedDone {
            status: status_of(answer),
            pressure: u32::from(pressure),
        }
    }

    /// What C gets for a question for cover.
    pub(crate) fn covered_ahead(told: Option<Told<Result<(), RaiseFault>>>) -> PressedDone
        ensures { result ≡ covered_ahead_in_c told }
    {
        let Some(Told { answer, pressure }) = told else {
            return PressedDone {
                status: NOT_OPEN,
                pressure: 0,
            };
        };
        PressedDone {
            status: asked_status(answer),
            pressure: u32::from(pressure_number(pressure)),
        }
    }

    /// What C gets for a rest.
    pub(crate) fn rested(told: Option<Option<Pressure>>) -> PressedDone
        ensures { result ≡ rested_in_c told }
    {
        match told {
            None => PressedDone {
                status: NOT_OPEN,
                pressure: 0,
            },
            Some(pressure) => PressedDone {
                status: DONE,
                pressure: u32::from(pressure_number(pressure)),
            },
        }
    }
}

/// What a write returns: what `Written` tells, with the change as two bytes, so that it comes back in two registers.
#[repr(C)]
#[derive(Clone, Copy)]
pub struct PressedWritten {
    /// 0, or why nothing was written.
    pub status: u32,
    /// How writability changed.
    pub change: u16,
    /// How pressure at the budget changed by this call.
    pub pressure: u16,
    /// The promise of the message.
    pub id: u64,
}

impl PressedWritten {
    /// What C gets for this.
    pub(crate) fn of(told: (Result<ob_connection::Written, u32>, u16)) -> PressedWritten
        ensures { result ≡ pressed_written_in_c told }
    {
        let (answer, pressure) = told;
        match answer {
            Err(status) => PressedWritten {
                status,
                change: 0,
                pressure,
                id: 0,
            },
            Ok(reply) => PressedWritten {
                status: DONE,
                change: change_number(reply.change),
                pressure,
                id: reply.id,
            },
        }
    }
}

/// What a write with the flush behind it returns.
#[repr(C)]
#[derive(Clone, Copy)]
pub struct PressedWrittenAndFlushed {
    /// The reply.
    pub done: WrittenAndFlushed,
    /// How pressure at the budget changed by this call.
    pub pressure: u32,
}

/// What a flush returns: what `Flushed` tells, with the change as two bytes, so that it comes back in two registers.
#[repr(C)]
#[derive(Clone, Copy)]
pub struct PressedFlushed {
    /// 0, or why nothing changed.
    pub status: u32,
    /// How writability changed.
    pub change: u16,
    /// How pressure at the budget changed by this call.
    pub pressure: u16,
    /// How many messages it let the transport have.
    pub count: u64,
}

impl PressedFlushed {
    /// What C gets for this.
    pub(crate) fn of(told: (Result<ob_connection::Flushed, u32>, u16)) -> PressedFlushed
        ensures { result ≡ pressed_flushed_in_c told }
    {
        let (answer, pressure) = told;
        match answer {
            Err(status) => PressedFlushed {
                status,
                change: 0,
                pressure,
                count: 0,
            },
            Ok(reply) => PressedFlushed {
                status: DONE,
                change: change_number(reply.change),
                pressure,
                count: reply.count,
            },
        }
    }
}

/// What the removal of the first flushed message returns.
#[repr(C)]
#[derive(Clone, Copy)]
pub struct PressedRemoved {
    /// The reply.
    pub removed: Removed,
    /// How pressure at the budget changed by this call.
    pub pressure: u32,
}

impl PressedRemoved {
    /// What C gets for this.
    pub(crate) fn of(told: (Result<ob_connection::Removed, u32>, u16)) -> PressedRemoved
        ensures { result ≡ pressed_removed_in_c told }
    {
        let (answer, pressure) = told;
        PressedRemoved {
            removed: Removed::of(answer),
            pressure: u32::from(pressure),
        }
    }
}

/// What a call returns that takes several messages away.
#[repr(C)]
#[derive(Clone, Copy)]
pub struct PressedTaken {
    /// The reply.
    pub taken: Taken,
    /// How pressure at the budget changed by this call.
    pub pressure: u32,
}

impl PressedTaken {
    /// What C gets for this.
    pub(crate) fn of(told: (Result<ob_connection::Taken, u32>, u16)) -> PressedTaken
        ensures { result ≡ pressed_taken_in_c told }
    {
        let (answer, pressure) = told;
        PressedTaken {
            taken: Taken::of(answer),
            pressure: u32::from(pressure),
        }
    }
}

/// What a cancellation returns.
#[repr(C)]
#[derive(Clone, Copy)]
pub struct PressedCancelled {
    /// The reply.
    pub cancelled: Cancelled,
    /// How pressure at the budget changed by this call.
    pub pressure: u32,
}

impl PressedCancelled {
    /// What C gets for this.
    pub(crate) fn of(told: (Result<bool, u32>, u16)) -> PressedCancelled
        ensures { result ≡ pressed_cancelled_in_c told }
    {
        let (answer, pressure) = told;
        PressedCancelled {
            cancelled: Cancelled::of(answer),
            pressure: u32::from(pressure),
        }
    }
}

/// What a change of a user bit returns.
#[repr(C)]
#[derive(Clone, Copy)]
pub struct PressedChanged {
    /// The reply.
    pub changed: Changed,
    /// How pressure at the budget changed by this call.
    pub pressure: u32,
}

impl PressedChanged {
    /// What C gets for this.
    pub(crate) fn of(told: (Result<Option<Change>, u32>, u16)) -> PressedChanged
        ensures { result ≡ pressed_changed_in_c told }
    {
        let (answer, pressure) = told;
        PressedChanged {
            changed: Changed::of(answer),
            pressure: u32::from(pressure),
        }
    }
}
