//! What the looks return to C, by value. Each begins with its status; if that is not 0, all else is 0.

ghost use Rattle.std.specs.Option.{option_copied};
ghost use Rattle.std.specs.Prelude.{◌≡◌, option_map, Some, None};
ghost use Rattle.ob_c.specs.Looks.{counts_in_c, no_look, settings_in_c, look_in_c, truth_in_c, promise_in_c, front_in_c, less_progress, current_in_c};
ghost use Rattle.ob_c.specs.Looks.{current_or_status, look_or_status, promise_or_status};

use crate::numbers::{DONE, NOT_OPEN, cause_number, outcome_number};
use ob_connection::Status;
use ob_types::{Estimate, Message, WaterMark};

/// What is pending.
#[repr(C)]
#[derive(Clone, Copy)]
pub struct Look {
    /// 0, or why there is nothing to see.
    pub status: u32,
    /// The pending bytes.
    pub total: u32,
    /// Bit 0 is the mark, bit i the user bit i. The connection is writable if the word is 0.
    pub word: u32,
    /// How many bytes more make a writable connection unwritable.
    pub before_unwritable: u32,
    /// How many bytes fewer make an unwritable one writable.
    pub before_writable: u32,
    /// How many messages are flushed and not removed.
    pub size: u64,
    /// The progress of the first flushed message.
    pub current_progress: u64,
}

impl Look {
    /// What C gets if nothing was looked at.
    pub(crate) fn without(status: u32) -> Look
        ensures { result ≡ no_look status }
    {
        Look {
            status,
            total: 0,
            word: 0,
            before_unwritable: 0,
            before_writable: 0,
            size: 0,
            current_progress: 0,
        }
    }

    /// What C gets for this look.
    pub(crate) fn of(look: Option<ob_connection::Look>) -> Look
        ensures { result ≡ look_in_c look }
    {
        match look {
            None => Look::without(NOT_OPEN),
            Some(look) => Look {
                status: DONE,
                total: look.total,
                word: look.word,
                before_unwritable: look.before_unwritable,
                before_writable: look.before_writable,
                size: look.size,
                current_progress: look.current_progress,
            },
        }
    }

    /// What C gets for a look of a shared connection.
    pub(crate) fn tried(look: Result<ob_connection::Look, u32>) -> Look
        ensures { result ≡ look_or_status look }
    {
        match look {
            Err(status) => Look::without(status),
            Ok(look) => Look::of(Some(look)),
        }
    }
}

/// How many messages wait.
#[repr(C)]
#[derive(Clone, Copy)]
pub struct Counts {
    /// 0, or why there is nothing to see.
    pub status: u32,
    /// How many messages no flush has reached.
    pub unflushed: u64,
    /// How many messages wait, flushed or not.
    pub waiting: u64,
}

impl Counts {
    /// What C gets for these numbers.
    pub(crate) fn of(counts: Option<(u64, u64)>) -> Counts
        ensures { result ≡ counts_in_c counts }
    {
        match counts {
            None => Counts {
                status: NOT_OPEN,
                unflushed: 0,
                waiting: 0,
            },
            Some((unflushed, waiting)) => Counts {
                status: DONE,
                unflushed,
                waiting,
            },
        }
    }
}

/// By what a connection goes.
#[repr(C)]
#[derive(Clone, Copy)]
pub struct Settings {
    /// 0, or why there is nothing to see.
    pub status: u32,
    /// The low mark in force, in bytes.
    pub low: u32,
    /// The high mark in force, in bytes.
    pub high: u32,
    /// The bytes that are added for each message.
    pub overhead: u32,
    /// The bytes of a message that is neither a block nor a region.
    pub unknown: u32,
}

impl Settings {
    /// What C gets for these marks and this estimate.
    pub(crate) fn of(settings: Option<(WaterMark, Estimate)>) -> Settings
        ensures { result ≡ settings_in_c settings }
    {
        match settings {
            None => Settings {
                status: NOT_OPEN,
                low: 0,
                high: 0,
                overhead: 0,
                unknown: 0,
            },
            Some((marks, estimate)) => Settings {
                status: DONE,
                low: marks.low(),
                high: marks.high(),
                overhead: estimate.overhead,
                unknown: estimate.unknown,
            },
        }
    }
}

/// Yes or no.
#[repr(C)]
#[derive(Clone, Copy)]
pub struct Truth {
    /// 0, or why there is nothing to see.
    pub status: u32,
    /// Whether it is so.
    pub holds: bool,
}

impl Truth {
    /// What C gets for this answer.
    pub(crate) fn of(answer: Option<bool>) -> Truth
        ensures { result ≡ truth_in_c answer }
    {
        match answer {
            None => Truth {
                status: NOT_OPEN,
                holds: false,
            },
            Some(holds) => Truth {
                status: DONE,
                holds,
            },
        }
    }
}

/// What has become of a promise.
#[repr(C)]
#[derive(Clone, Copy)]
pub struct Promise {
    /// 0, or why there is nothing to see.
    pub status: u32,
    /// 0: no write has this promise. 1: it waits. 2: it is fixed. 3: it is settled. 4: it was settled before.
    pub state: u32,
    /// The outcome of a promise that is settled.
    pub outcome: u32,
    /// The cause of that outcome.
    pub cause: u32,
}

impl Promise {
    /// A promise in this state.
    fn in_state(status: u32, state: u32) -> Promise
        ensures { result ≡ record { status = status; state = state; outcome = 0; cause = 0 } }
    {
        Promise {
            status,
            state,
            outcome: 0,
            cause: 0,
        }
    }

    /// What C gets for this promise.
    pub(crate) fn of(promise: Option<Option<Status>>) -> Promise
        ensures { result ≡ promise_in_c promise }
    {
        match promise {
            None => Promise::in_state(NOT_OPEN, 0),
            Some(None) => Promise::in_state(DONE, 0),
            Some(Some(Status::Waiting)) => Promise::in_state(DONE, 1),
            Some(Some(Status::Fixed)) => Promise::in_state(DONE, 2),
            Some(Some(Status::Settled(outcome))) => Promise {
                status: DONE,
                state: 3,
                outcome: outcome_number(outcome),
                cause: cause_number(outcome),
            },
            Some(Some(Status::SettledBefore)) => Promise::in_state(DONE, 4),
        }
    }

    /// What C gets for this promise of a shared connection.
    pub(crate) fn tried(promise: Result<Option<Status>, u32>) -> Promise
        ensures { result ≡ promise_or_status promise }
    {
        match promise {
            Err(status) => Promise::in_state(status, 0),
            Ok(promise) => Promise::of(Some(promise)),
        }
    }
}

/// The promise of the first flushed message.
#[repr(C)]
#[derive(Clone, Copy)]
pub struct Front {
    /// 0, or why there is nothing to see.
    pub status: u32,
    /// Whether a message is flushed.
    pub any: bool,
    /// Its promise.
    pub id: u64,
}

impl Front {
    /// What C gets for this promise.
    pub(crate) fn of(front: Option<Option<u64>>) -> Front
        ensures { result ≡ front_in_c front }
    {
        let (status, any, id) = match front {
            None => (NOT_OPEN, false, 0),
            Some(None) => (DONE, false, 0),
            Some(Some(id)) => (DONE, true, id),
        };
        Front { status, any, id }
    }
}

/// What is left of the first flushed message.
#[repr(C)]
#[derive(Clone, Copy)]
pub struct Current {
    /// 0, or why there is nothing to see.
    pub status: u32,
    /// 0: nothing is flushed. 1: a block. 2: a region. 3: another message.
    pub kind: u32,
    /// The bytes that are left of a block or of a region, or the number of another message.
    pub number: u64,
}

impl Current {
    /// What C gets if there is no connection.
    pub(crate) fn not_open() -> Current
        ensures { result ≡ current_in_c None }
    {
        Current {
            status: NOT_OPEN,
            kind: 0,
            number: 0,
        }
    }

    /// What C gets for this front with this progress.
    pub(crate) fn of(message: Option<&Message>, progress: u64) -> Current
        ensures { result ≡ current_in_c (Some (option_map (less_progress progress) (option_copied message.entry))) }
    {
        let (kind, number) = match message {
            None => (0, 0),
            Some(Message::Block(bytes)) => (1, bytes.len() as u64),
            Some(Message::Region(length)) => (2, length.saturating_sub(progress)),
            Some(Message::Other(value)) => (3, u64::from(*value)),
        };
        Current {
            status: DONE,
            kind,
            number,
        }
    }

    /// What C gets for the front of a shared connection.
    pub(crate) fn tried(current: Result<Current, u32>) -> Current
        ensures { result ≡ current_or_status current }
    {
        match current {
            Err(status) => Current {
                status,
                kind: 0,
                number: 0,
            },
            Ok(current) => current,
        }
    }
}
