ghost use Rattle.std.specs.Prelude.{◌≡◌};

use std::alloc::AllocError;
use thiserror::Error;

/// Why no world was made. The faults are asked in this order.
#[derive(Clone, Copy, Debug, PartialEq, Eq, Error)]
pub enum WorldFault {
    /// There is no lane, or there are more than 64.
    #[error("a world has 1 to 64 lanes")]
    BadCount = 1,
    /// The rooms of the lanes add up to more than 4294967295.
    #[error("the rooms of the lanes add up to more than 4294967295")]
    TooMuchRoom = 2,
    /// Two lanes hold one bit, or a lane holds bit 0.
    #[error("a bit is held twice, or bit 0 is held")]
    BitsTwice = 3,
    /// The allocator refused memory.
    #[error("out of memory")]
    NoMemory = 4,
}

impl WorldFault {
    ghost use Rattle.ob_core.specs.World.{number_of};

    /// The number of the fault, 1 to 4.
    pub fn number(self) -> u8
        ensures { result ≡ number_of self }
    {
        self as u8
    }
}

impl From<AllocError> for WorldFault {
    ghost use Rattle.ob_core.specs.declared.world_fault.WorldFault.TheVariants.{NoMemory};

    ghost from_gives = { λ _ fault. fault ≡ NoMemory };

    fn from(_error: AllocError) -> WorldFault {
        WorldFault::NoMemory
    }
}
