ghost use Rattle.std.specs.Prelude.{◌≡◌};

use crate::sink::SinkFault;
use ob_types::Refusal;
use thiserror::Error;

/// What a pass did.
#[derive(Clone, Copy, Debug, PartialEq, Eq)]
pub enum Pass {
    /// Nothing is flushed, and nothing was done.
    Idle,
    /// The sink took nothing of what it was offered.
    Stalled,
    /// What stood in front was taken away without the sink.
    Cleared,
    /// The sink took this many bytes of the blocks in front, or units of the region in front, and they are booked.
    Took(u64),
}

/// Why a pass came to no end. But for `Unbooked`, nothing was taken, and the records are as before the pass.
#[derive(Clone, Copy, Debug, PartialEq, Eq, Error)]
pub enum PassFault {
    /// The sink has failed.
    #[error(transparent)]
    Sink(SinkFault),
    /// The history has no place left for the record that clears the front, or fewer than two for those of a sending.
    #[error("the history is full")]
    HistoryFull,
    /// The allocator refused memory, or a block has more owners than can be counted.
    #[error("out of memory")]
    NoMemory,
    /// The sink took `taken` bytes, which still stand at the front: memory ran out for their removal. `book` makes it
    /// later.
    #[error("out of memory with {taken} bytes taken and not booked")]
    Unbooked {
        /// How many bytes the sink took.
        taken: u64,
    },
}

impl PassFault {
    ghost use Rattle.ob_transport.specs.Pass.{number_of};

    /// The number of the fault, 1 to 4.
    pub fn number(self) -> u8
        ensures { result ≡ number_of self }
    {
        match self {
            PassFault::Sink(_) => 1,
            PassFault::HistoryFull => 2,
            PassFault::NoMemory => 3,
            PassFault::Unbooked { .. } => 4,
        }
    }
}

impl From<SinkFault> for PassFault {
    ghost use Rattle.ob_transport.specs.declared.fault.PassFault.TheVariants.{Sink};

    ghost from_gives = { λ fault given. given ≡ Sink fault };

    fn from(fault: SinkFault) -> PassFault {
        PassFault::Sink(fault)
    }
}

/// A call of a booked buffer is refused only as a full history or as out of memory.
impl From<Refusal> for PassFault {
    ghost use Rattle.ob_transport.specs.Pass.{fault_of};

    ghost from_gives = { λ refusal given. given ≡ fault_of refusal };

    fn from(refusal: Refusal) -> PassFault {
        match refusal {
            Refusal::HistoryFull => PassFault::HistoryFull,
            _ => PassFault::NoMemory,
        }
    }
}
