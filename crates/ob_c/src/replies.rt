//! What the commands return to C, by value. Each begins with its status; if that is not 0, all else is 0.

ghost use Rattle.std.specs.Prelude.{◌≡◌};
ghost use Rattle.ob_c.specs.Replies.{written_in_c, flushed_in_c, removed_in_c, taken_in_c, cancelled_in_c, changed_in_c};
ghost use Rattle.ob_c.specs.Replies.{removed_with, written_and_flushed_in_c, change_number};

use crate::numbers::{DONE, cause_number, change_number, outcome_number};
use ob_types::Change;

/// What a write returns.
#[repr(C)]
#[derive(Clone, Copy)]
pub struct Written {
    /// 0, or why nothing was written.
    pub status: u32,
    /// How writability changed.
    pub change: u32,
    /// The promise of the message.
    pub id: u64,
}

impl Written {
    /// What C gets for this answer.
    pub(crate) fn of(answer: Result<ob_connection::Written, u32>) -> Written
        ensures { result ≡ written_in_c answer }
    {
        match answer {
            Err(status) => Written {
                status,
                change: 0,
                id: 0,
            },
            Ok(reply) => Written {
                status: DONE,
                change: u32::from(change_number(reply.change)),
                id: reply.id,
            },
        }
    }
}

/// What a flush returns.
#[repr(C)]
#[derive(Clone, Copy)]
pub struct Flushed {
    /// 0, or why nothing changed.
    pub status: u32,
    /// How writability changed.
    pub change: u32,
    /// How many messages it let the transport have.
    pub count: u64,
}

impl Flushed {
    /// What C gets for this answer.
    pub(crate) fn of(answer: Result<ob_connection::Flushed, u32>) -> Flushed
        ensures { result ≡ flushed_in_c answer }
    {
        match answer {
            Err(status) => Flushed {
                status,
                change: 0,
                count: 0,
            },
            Ok(reply) => Flushed {
                status: DONE,
                change: u32::from(change_number(reply.change)),
                count: reply.count,
            },
        }
    }
}

/// What a write with the flush behind it returns.
#[repr(C)]
#[derive(Clone, Copy)]
pub struct WrittenAndFlushed {
    /// 0, or why nothing was written and flushed.
    pub status: u32,
    /// How the write changed writability.
    pub change: u32,
    /// The promise of the message.
    pub id: u64,
    /// How the flush behind it changed writability.
    pub flush_change: u32,
    /// How many messages the flush let the transport have.
    pub count: u64,
}

impl WrittenAndFlushed {
    /// What C gets for this answer.
    pub(crate) fn of(
        answer: Result<ob_shared_connection::WrittenAndFlushed, u32>,
    ) -> WrittenAndFlushed
        ensures { result ≡ written_and_flushed_in_c answer }
    {
        match answer {
            Err(status) => WrittenAndFlushed {
                status,
                change: 0,
                id: 0,
                flush_change: 0,
                count: 0,
            },
            Ok(reply) => WrittenAndFlushed {
                status: DONE,
                change: u32::from(change_number(reply.written.change)),
                id: reply.written.id,
                flush_change: u32::from(change_number(reply.flushed.change)),
                count: reply.flushed.count,
            },
        }
    }
}

/// What the removal of the first flushed message returns.
#[repr(C)]
#[derive(Clone, Copy)]
pub struct Removed {
    /// 0, or why nothing changed.
    pub status: u32,
    /// How writability changed.
    pub change: u32,
    /// Whether a message was flushed.
    pub any: bool,
    /// Whether the removal settled its promise.
    pub settled: bool,
    /// The outcome of the promise that it settled.
    pub outcome: u32,
    /// The cause of that outcome.
    pub cause: u32,
    /// The promise that it settled.
    pub id: u64,
}

impl Removed {
    /// What C gets for this answer.
    pub(crate) fn of(answer: Result<ob_connection::Removed, u32>) -> Removed
        ensures { result ≡ removed_in_c answer }
    {
        match answer {
            Err(status) => Removed {
                status,
                change: 0,
                any: false,
                settled: false,
                outcome: 0,
                cause: 0,
                id: 0,
            },
            Ok(reply) => Removed::done(reply),
        }
    }

    /// What C gets for a removal.
    fn done(reply: ob_connection::Removed) -> Removed
        ensures { result ≡ removed_with (change_number reply.change) reply.any reply.settled }
    {
        let change = u32::from(change_number(reply.change));
        match reply.settled {
            None => Removed {
                status: DONE,
                change,
                any: reply.any,
                settled: false,
                outcome: 0,
                cause: 0,
                id: 0,
            },
            Some((id, outcome)) => Removed {
                status: DONE,
                change,
                any: reply.any,
                settled: true,
                outcome: outcome_number(outcome),
                cause: cause_number(outcome),
                id,
            },
        }
    }
}

/// What a call returns that takes several messages away. It settled each promise from `from` on and below `to` that was
/// not settled before.
#[repr(C)]
#[derive(Clone, Copy)]
pub struct Taken {
    /// 0, or why nothing changed.
    pub status: u32,
    /// How writability changed.
    pub change: u32,
    /// The outcome of the promises that it settled.
    pub outcome: u32,
    /// The cause of that outcome.
    pub cause: u32,
    /// How many messages it took away.
    pub count: u64,
    /// The promise of the first of them.
    pub from: u64,
    /// The promise after that of the last.
    pub to: u64,
}

impl Taken {
    /// What C gets for this answer.
    pub(crate) fn of(answer: Result<ob_connection::Taken, u32>) -> Taken
        ensures { result ≡ taken_in_c answer }
    {
        match answer {
            Err(status) => Taken {
                status,
                change: 0,
                outcome: 0,
                cause: 0,
                count: 0,
                from: 0,
                to: 0,
            },
            Ok(reply) => Taken {
                status: DONE,
                change: u32::from(change_number(reply.change)),
                outcome: outcome_number(reply.outcome),
                cause: cause_number(reply.outcome),
                count: reply.count,
                from: reply.from,
                to: reply.to,
            },
        }
    }
}

/// What a cancellation returns.
#[repr(C)]
#[derive(Clone, Copy)]
pub struct Cancelled {
    /// 0, or why nothing changed.
    pub status: u32,
    /// Whether it came in time.
    pub in_time: bool,
}

impl Cancelled {
    /// What C gets for this answer.
    pub(crate) fn of(answer: Result<bool, u32>) -> Cancelled
        ensures { result ≡ cancelled_in_c answer }
    {
        let (status, in_time) = match answer {
            Err(status) => (status, false),
            Ok(in_time) => (DONE, in_time),
        };
        Cancelled { status, in_time }
    }
}

/// What a change of a user bit returns.
#[repr(C)]
#[derive(Clone, Copy)]
pub struct Changed {
    /// 0, or why nothing changed.
    pub status: u32,
    /// How writability changed.
    pub change: u32,
}

impl Changed {
    /// What C gets for this answer.
    pub(crate) fn of(answer: Result<Option<Change>, u32>) -> Changed
        ensures { result ≡ changed_in_c answer }
    {
        let (status, change) = match answer {
            Err(status) => (status, 0),
            Ok(change) => (DONE, u32::from(change_number(change))),
        };
        Changed { status, change }
    }
}
