ghost use Rattle.std.specs.Prelude.{◌≡◌};

use ob_shared::FinishFault;
use ob_transport::PassFault;
use ob_types::Refusal;
use thiserror::Error;

/// Why a drive came to no report. The first three are asked in this order, before any thread starts. Of the others the
/// least writer's comes first, writers' before the transport's, and the end's last.
#[derive(Clone, Copy, Debug, PartialEq, Eq, Error)]
pub enum DriveFault {
    /// There is no plan, or there are more than 64.
    #[error("a drive has 1 to 64 plans")]
    BadCount,
    /// The first step of a plan whose command is no write, flush, cancellation or user bit, and sets no marks.
    #[error("step {step} of writer {writer} may not stand in a plan")]
    BadPlan { writer: u32, step: usize },
    /// The greatest charges of all plans add up to more than 4294967295 bytes.
    #[error("the plans need too much room together")]
    TooMuchRoom,
    /// The allocator refused memory, or a block has more owners than can be counted.
    #[error("out of memory")]
    NoMemory,
    /// The gate held this writer for too long.
    #[error("writer {writer} is stuck")]
    Stuck { writer: u32 },
    /// The history is full, and refused a command of this writer.
    #[error("a command of writer {writer} was refused: {refusal}")]
    Refused { writer: u32, refusal: Refusal },
    /// A pass of the transport came to no end.
    #[error("the transport ended: {0}")]
    Transport(PassFault),
    /// The shared buffer could not be finished.
    #[error("the buffer was not finished: {0}")]
    Finish(FinishFault),
}

impl DriveFault {
    ghost use Rattle.ob_pool.specs.Drive.{number_of};

    /// The number of the fault, 1 to 8, which it keeps for good: pages and traces show it.
    pub fn number(self) -> u8
        ensures { result ≡ number_of self }
    {
        match self {
            DriveFault::BadCount => 1,
            DriveFault::BadPlan { .. } => 2,
            DriveFault::TooMuchRoom => 3,
            DriveFault::NoMemory => 4,
            DriveFault::Stuck { .. } => 5,
            DriveFault::Refused { .. } => 6,
            DriveFault::Transport(_) => 7,
            DriveFault::Finish(_) => 8,
        }
    }
}
