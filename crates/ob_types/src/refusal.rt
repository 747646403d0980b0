ghost use Rattle.std.specs.Prelude.{◌≡◌};

use std::alloc::{AllocError, AllocFailed};
use thiserror::Error;

/// Why a call was refused. A refused call leaves everything as it was.
#[derive(Clone, Copy, Debug, PartialEq, Eq, Error)]
pub enum Refusal {
    /// The pending size of a message passes 2147483647, or a region is longer than 9223372036854775807.
    #[error("the message is too large to be counted")]
    Oversize = 1,
    /// The low mark is above the high mark, or the high mark above 2147483647.
    #[error("the low mark is above the high mark, or the high mark above 2147483647")]
    BadMarks = 2,
    /// The pending bytes would pass 4294967295, or 1048576 writes were accepted.
    #[error("too much is pending, or too many writes were accepted")]
    TooMuch = 3,
    /// The buffer was closed.
    #[error("the buffer is closed")]
    Closed = 4,
    /// Progress was to be added, and no message is flushed.
    #[error("no message is flushed")]
    NothingFlushed = 5,
    /// The progress of a message would pass 9223372036854775807.
    #[error("the progress of the message would pass 9223372036854775807")]
    TooFar = 6,
    /// More bytes were to be removed than the flushed blocks in front hold.
    #[error("the flushed blocks in front hold fewer bytes")]
    TooManyBytes = 7,
    /// A user bit has an index outside 1 to 31.
    #[error("the index of a user bit is 1 to 31")]
    BadIndex = 8,
    /// A buffer was to be closed while flushed messages are left.
    #[error("flushed messages are left")]
    FlushedLeft = 9,
    /// No write was accepted under this promise.
    #[error("no write has this promise")]
    UnknownPromise = 10,
    /// The history holds as many records as it may, or has fewer places left than are to be reserved.
    #[error("the history is full")]
    HistoryFull = 11,
    /// The allocator refused memory, or a block has more owners than can be counted.
    #[error("out of memory")]
    NoMemory = 12,
}

impl Refusal {
    ghost use Rattle.ob_types.specs.Replies.{number_of};

    /// The number of the refusal, 1 to 12, as traces print it.
    pub fn number(self) -> u8
        ensures { result ≡ number_of self }
    {
        self as u8
    }
}

impl From<AllocError> for Refusal {
    ghost use Rattle.ob_types.specs.declared.refusal.Refusal.TheVariants.{NoMemory};

    ghost from_gives = { λ _ refusal. refusal ≡ NoMemory };

    fn from(_error: AllocError) -> Refusal {
        Refusal::NoMemory
    }
}

impl<T: Drop> From<AllocFailed<T>> for Refusal {
    ghost use Rattle.ob_types.specs.declared.refusal.Refusal.TheVariants.{NoMemory};

    ghost from_gives = { λ _ refusal. refusal ≡ NoMemory };

    fn from(_error: AllocFailed<T>) -> Refusal {
        Refusal::NoMemory
    }
}
