ghost use Rattle.std.specs.Prelude.{◌≡◌};

use thiserror::Error;

/// Why an ask was refused. A refused ask leaves the word, the total and the lanes as they were.
#[derive(Clone, Copy, Debug, PartialEq, Eq, Error)]
pub enum AskFault {
    /// There is no lane with this number.
    #[error("there is no such lane")]
    UnknownLane = 1,
    /// A charge is above the room of its lane. It is asked after `Owing`.
    #[error("the charge is above the room of the lane")]
    NoRoom = 2,
    /// A lane that owes a charge was asked for another.
    #[error("the lane owes a charge already")]
    Owing = 3,
    /// A lane that owes nothing was asked to discharge.
    #[error("the lane owes nothing")]
    NotOwing = 4,
    /// The lane does not hold the bit, or the index is none of 1 to 31.
    #[error("the lane does not hold the bit")]
    NotHeld = 5,
    /// A lane was asked to go on. No lane is ever in the middle of a call.
    #[error("the lane is in the middle of no call")]
    NotInside = 6,
}

impl AskFault {
    ghost use Rattle.ob_core.specs.Step.{number_of};

    /// The number of the fault, 1 to 6, as traces print it.
    pub fn number(self) -> u8
        ensures { result ≡ number_of self }
    {
        self as u8
    }
}
