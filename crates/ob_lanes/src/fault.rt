use thiserror::Error;

/// A charge was above the room of its lane.
#[derive(Clone, Copy, Debug, PartialEq, Eq, Error)]
#[error("the charge is above the room of the lane")]
pub struct NoRoom;

/// The lane does not hold the bit. No lane holds a bit with an index outside 1 to 31.
#[derive(Clone, Copy, Debug, PartialEq, Eq, Error)]
#[error("the lane does not hold the bit")]
pub struct NotHeld;

/// Some of the room is in other lanes, or was lost with a lane that was dropped.
#[derive(Clone, Copy, Debug, PartialEq, Eq, Error)]
#[error("the lane has not the whole room")]
pub struct RoomOut;

/// Why a lane was not split. The faults are asked in this order.
#[derive(Clone, Copy, Debug, PartialEq, Eq, Error)]
pub enum SplitFault {
    /// More room was asked for than the lane has.
    #[error("the lane has less room than was asked for")]
    NoRoom = 1,
    /// A bit was asked for that the lane does not hold.
    #[error("the lane does not hold a bit that was asked for")]
    NotHeld = 2,
}

impl SplitFault {
    ghost use Rattle.std.specs.Prelude.{◌≡◌};
    ghost use Rattle.ob_lanes.specs.Calls.{number_of};

    /// The number of the fault, 1 or 2.
    pub fn number(self) -> u8
        ensures { result ≡ number_of self }
    {
        self as u8
    }
}
