//! The numbers that C sees.

ghost use Rattle.std.specs.Prelude.{◌≡◌};
ghost use Rattle.ob_c.specs.Replies.{accepted, change_number, outcome_number, cause_number, status_in_c};

use ob_types::{Change, Outcome, Refusal};

/// The status of a call that was accepted.
pub(crate) const DONE: u32 = 0;

/// The status of a call that is out of memory.
pub(crate) const NO_MEMORY: u32 = 12;

/// The status of a call with a handle that holds nothing.
pub(crate) const NOT_OPEN: u32 = 13;

/// The status of an opening of a handle that holds something.
pub(crate) const ALREADY_OPEN: u32 = 14;

/// The status of an opening with an overhead or a size of unknown messages above 65535.
pub(crate) const BAD_ESTIMATE: u32 = 15;

/// The status of a write of a block that holds no bytes.
pub(crate) const NO_BLOCK: u32 = 16;

/// The status of an opening for another edge than this one.
pub(crate) const OTHER_VERSION: u32 = 17;

/// The status of a call that found the lock taken by another one, or that lost too many steps at a budget to others.
pub(crate) const BUSY: u32 = 18;

/// The status of a write to a managed connection whose end was asked for.
pub(crate) const FINISHING: u32 = 19;

/// The status of a write to a managed connection past its limit on the pending bytes.
pub(crate) const FULL: u32 = 20;

/// The status of a write that the budget had no room for.
pub(crate) const OVER_BUDGET: u32 = 21;

/// The status of an opening of a budget whose low mark is above the high mark, or whose room is above 2^62 - 1 bytes.
pub(crate) const BAD_BOUNDS: u32 = 22;

/// A number of the structs, functions and numbers that C and this library have to agree on: `ffi/check_edge` computes it of
/// them, and wants another one if they change.
pub(crate) const EDGE: u32 = 409770010;

/// What a call has to report: its reply, or else the status of a handle that holds nothing, or of its refusal.
pub(crate) fn accepted<T>(answer: Option<Result<T, Refusal>>) -> Result<T, u32>
    ensures { result ≡ accepted answer }
{
    match answer {
        None => Err(NOT_OPEN),
        Some(Err(refusal)) => Err(u32::from(refusal.number())),
        Some(Ok(reply)) => Ok(reply),
    }
}

/// The status of a call that has nothing more to say.
pub(crate) fn status_of(answer: Result<(), u32>) -> u32
    ensures { result ≡ status_in_c answer }
{
    match answer {
        Err(status) => status,
        Ok(()) => DONE,
    }
}

/// The number of a change of writability.
pub(crate) fn change_number(change: Option<Change>) -> u16
    ensures { result ≡ change_number change }
{
    match change {
        None => 0,
        Some(Change::Unwritable) => 1,
        Some(Change::Writable) => 2,
    }
}

/// The number of an outcome.
pub(crate) fn outcome_number(outcome: Outcome) -> u32
    ensures { result ≡ outcome_number outcome }
{
    match outcome {
        Outcome::Success => 1,
        Outcome::Failed(_) => 2,
        Outcome::Cancelled => 3,
    }
}

/// The cause of an outcome, which is 0 for one that has none.
pub(crate) fn cause_number(outcome: Outcome) -> u32
    ensures { result ≡ cause_number outcome }
{
    match outcome {
        Outcome::Failed(cause) => cause.0,
        Outcome::Success | Outcome::Cancelled => 0,
    }
}
