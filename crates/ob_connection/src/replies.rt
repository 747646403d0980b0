//! What the calls of a connection return.

ghost use Rattle.std.specs.Prelude.{◌≡◌};

use crate::ending::Ending;
use ob_types::{Change, Outcome};
use std::ops::Range;

/// What an accepted write returns. It must be used: nothing reports the change again.
#[must_use]
#[derive(Clone, Copy, Debug, PartialEq, Eq)]
pub struct Written {
    /// The promise of the message: ids count the accepted writes from 0.
    pub id: u64,
    /// Whether the write took the connection from writable to unwritable.
    pub change: Option<Change>,
}

/// What a flush returns.
#[must_use]
#[derive(Clone, Copy, Debug, PartialEq, Eq)]
pub struct Flushed {
    /// How many messages it let the transport have, voided ones too.
    pub count: u64,
    /// Whether it took the connection from unwritable to writable: voided messages count nothing any more.
    pub change: Option<Change>,
}

/// What the removal of the first flushed message returns.
#[must_use]
#[derive(Clone, Copy, Debug, PartialEq, Eq)]
pub struct Removed {
    /// Whether a message was flushed. If none was, nothing changed.
    pub any: bool,
    /// The promise that it settled, and its outcome: that of the message, unless it was cancelled before.
    pub settled: Option<(u64, Outcome)>,
    /// Whether it took the connection from unwritable to writable.
    pub change: Option<Change>,
}

/// What a call returns that takes several messages away. It settles each promise from `from` on and below `to` that was
/// not settled before, so all but those whose cancellation came in time, in this order and with this outcome.
#[must_use]
#[derive(Clone, Copy, Debug, PartialEq, Eq)]
pub struct Taken {
    /// How many messages it took away, voided ones too: `to` less `from`.
    pub count: u64,
    /// Whether it changed writability.
    pub change: Option<Change>,
    /// The promise of the first message that it took away.
    pub from: u64,
    /// The promise after that of the last one.
    pub to: u64,
    /// The outcome of the promises that it settled.
    pub outcome: Outcome,
}

impl Taken {
    /// The promises of the messages that it took away, oldest first: the ids from `from` on and below `to`.
    ///
    /// A promise that was cancelled in time is among them, though its cancellation has settled it before: whoever keeps
    /// something by a promise drops it at the cancellation, and finds nothing here.
    pub fn ids(&self) -> Range<u64>
        ensures start { result.start ≡ self.now.from }
        ensures end { result.end ≡ self.now.to }
    {
        self.from..self.to
    }
}

/// What a sending of several turns returns.
#[must_use]
#[derive(Clone, Copy, Debug)]
pub struct SentTurns {
    /// How many bytes the socket took in all turns together.
    pub bytes: u64,
    /// Which messages are gone by that, and how it changed writability: from before the first turn to after the last.
    pub taken: Taken,
    /// How it ended. Flushed messages are left unless that is `Drained`.
    pub ending: Ending,
}
