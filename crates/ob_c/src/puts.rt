//! What a write of a shared connection returns to C.

ghost use Rattle.std.specs.Prelude.{◌≡◌};
ghost use Rattle.ob_c.specs.Replies.{put_and_flushed_in_c, put_in_c, put_number, put_told};
ghost use Rattle.ob_c.specs.Within.{gave_in_c, let_go, within_and_flushed_in_c, within_in_c, within_reply, within_told};

use crate::numbers::{BUSY, DONE, OVER_BUDGET};
use crate::pressed::{PressedDone, PressedWritten, PressedWrittenAndFlushed, pressure_number};
use crate::replies::{Written, WrittenAndFlushed};
use ob_budget::{Pressure, RaiseFault};
use ob_covered::Told;
use ob_shared_connection::{OverBudget, WriteFault};

impl Written {
    /// What C gets for this answer to a write.
    pub(crate) fn put(told: Result<Result<ob_connection::Written, WriteFault>, u32>) -> Written
        ensures { result ≡ put_in_c told }
    {
        Written::of(put_told(told))
    }
}

impl WrittenAndFlushed {
    /// What C gets for this answer to a write with the flush behind it.
    pub(crate) fn put(
        told: Result<Result<ob_shared_connection::WrittenAndFlushed, WriteFault>, u32>,
    ) -> WrittenAndFlushed
        ensures { result ≡ put_and_flushed_in_c told }
    {
        WrittenAndFlushed::of(put_told(told))
    }
}

impl PressedWritten {
    /// What C gets for this answer to a write within a budget.
    pub(crate) fn put(
        told: Result<Told<Result<Result<ob_connection::Written, WriteFault>, RaiseFault>>, u32>,
    ) -> PressedWritten
        ensures { result ≡ within_in_c told }
    {
        PressedWritten::of(within_told(told))
    }
}

impl PressedWrittenAndFlushed {
    /// What C gets for this answer to a write within a budget with the flush behind it.
    pub(crate) fn put(
        told: Result<
            Told<Result<Result<ob_shared_connection::WrittenAndFlushed, WriteFault>, RaiseFault>>,
            u32,
        >,
    ) -> PressedWrittenAndFlushed
        ensures { result ≡ within_and_flushed_in_c told }
    {
        let (answer, pressure) = within_told(told);
        PressedWrittenAndFlushed {
            done: WrittenAndFlushed::of(answer),
            pressure: u32::from(pressure),
        }
    }
}

impl PressedDone {
    /// What C gets once a seat gave back what it could.
    pub(crate) fn gave(told: Result<Option<Pressure>, u32>) -> PressedDone
        ensures { result ≡ gave_in_c told }
    {
        match told {
            Err(status) => PressedDone {
                status,
                pressure: 0,
            },
            Ok(pressure) => PressedDone {
                status: DONE,
                pressure: u32::from(pressure_number(pressure)),
            },
        }
    }
}

/// Lets the act go of a call that the budget did not cover.
pub(crate) fn let_go<T, A: Drop>(
    told: Told<Result<T, OverBudget<A>>>,
) -> Told<Result<T, RaiseFault>>
    ensures { result ≡ let_go told }
{
    let Told { answer, pressure } = told;
    match answer {
        Ok(answer) => Told {
            answer: Ok(answer),
            pressure,
        },
        Err(OverBudget { fault, act: _ }) => Told {
            answer: Err(fault),
            pressure,
        },
    }
}

/// The reply to a write within a budget, or the status of its refusal, and the number of the turn of pressure.
fn within_told<T>(
    told: Result<Told<Result<Result<T, WriteFault>, RaiseFault>>, u32>,
) -> (Result<T, u32>, u16)
    ensures { result ≡ within_told told }
{
    match told {
        Err(status) => (Err(status), 0),
        Ok(told) => (within_reply(told.answer), pressure_number(told.pressure)),
    }
}

/// The reply to a write within a budget, or the status of its refusal.
fn within_reply<T>(answer: Result<Result<T, WriteFault>, RaiseFault>) -> Result<T, u32>
    ensures { result ≡ within_reply answer }
{
    match answer {
        Err(RaiseFault::Full) => Err(OVER_BUDGET),
        Err(RaiseFault::Busy) => Err(BUSY),
        Ok(Err(why)) => Err(put_number(why)),
        Ok(Ok(reply)) => Ok(reply),
    }
}

/// The reply to a write, or the status of its refusal.
fn put_told<T>(told: Result<Result<T, WriteFault>, u32>) -> Result<T, u32>
    ensures { result ≡ put_told told }
{
    match told {
        Err(status) => Err(status),
        Ok(Err(why)) => Err(put_number(why)),
        Ok(Ok(reply)) => Ok(reply),
    }
}

/// The status of a write that was refused.
fn put_number(why: WriteFault) -> u32
    ensures { result ≡ put_number why }
{
    match why {
        WriteFault::Refused(refusal) => u32::from(refusal.number()),
        WriteFault::Uncovered => OVER_BUDGET,
    }
}
