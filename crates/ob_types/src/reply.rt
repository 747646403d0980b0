ghost use Rattle.std.specs.Prelude.{◌≡◌, ◌≤◌, ◌↔◌, length, IsOk, IfOk, IsTrue};
ghost use Rattle.ob_types.specs.Limits.{inline_settlements};
ghost use Rattle.ob_types.specs.Marks.{change_between};

use crate::promise::PromiseId;
use crate::settlements::{Settlements, Spare};
use std::alloc::AllocError;

/// What an accepted command returns, which promises it settled, and whether it turned writability.
///
/// A reply is the one notice of the change that it reports, and of its settlements: nothing reports them again. So it
/// must be used, or let go with `let _ = ..`.
#[must_use]
#[derive(Debug, Drop)]
pub struct Reply {
    /// What the command returns.
    pub answer: Answer,
    /// The promises that it settled, with their outcomes, in the order of the writes.
    pub settled: Settlements,
    /// Whether it took the buffer from writable to unwritable or back.
    pub change: Option<Change>,
}

impl Reply {
    /// The same reply. It fails only if it is out of memory, and never if at most four promises are settled.
    pub fn copy(&self) -> Result<Reply, AllocError>
        ensures same { IfOk result (λ copy. copy ≡ self.now) }
        ensures succeeds { length self.now.settled ≤ inline_settlements → IsOk result }
    {
        Ok(self.with_settled(self.settled.copy()?))
    }

    /// The same reply, in memory that was allocated before. It allocates no more.
    pub fn copy_in(&self, spare: Spare) -> Reply
        requires { length self.now.settled ≤ spare }
        ensures { result ≡ self.now }
    {
        self.with_settled(spare.copy_of(&self.settled))
    }

    /// Whether the other reply has the same answer, settlements and change. It does not allocate.
    pub fn is_same(&self, other: &Reply) -> bool
        ensures { IsTrue result ↔ (self.now ≡ other.now) }
    {
        self.answer == other.answer
            && self.settled.is_same(&other.settled)
            && self.change == other.change
    }

    /// The reply with other settlements.
    fn with_settled(&self, settled: Settlements) -> Reply
        ensures { result ≡ record self.now { settled = settled } }
    {
        Reply {
            answer: self.answer,
            settled,
            change: self.change,
        }
    }
}

/// The answer of a command.
#[derive(Clone, Copy, Debug, PartialEq, Eq)]
pub enum Answer {
    /// Of a write: the promise of the message.
    Id(PromiseId),
    /// Of a flush: how many messages it flushed. Of a removal of bytes, a failing and a close: how many messages it
    /// took away, voided ones too.
    Count(u32),
    /// Of a removal: whether there was a flushed message. Of a cancellation: whether it came in time.
    Yes(bool),
    /// Of a command that has nothing more to say.
    Done,
}

/// How a command turned writability (Netty's `fireChannelWritabilityChanged`, reported in the reply).
#[derive(Clone, Copy, Debug, PartialEq, Eq)]
pub enum Change {
    /// Writers should stop.
    Unwritable,
    /// Writers may go on.
    Writable,
}

impl Change {
    /// How a word of unwritable bits turned writability, by the word before and after: `Unwritable` if it was 0 and is
    /// not 0 any more, `Writable` in the opposite case, else none. If one of several set bits was cleared, nothing
    /// turned.
    pub fn between(before: u32, after: u32) -> Option<Change>
        ensures { result ≡ change_between before after }
    {
        match (before == 0, after == 0) {
            (true, false) => Some(Change::Unwritable),
            (false, true) => Some(Change::Writable),
            (true, true) | (false, false) => None,
        }
    }
}
