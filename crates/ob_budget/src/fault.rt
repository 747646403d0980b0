use crate::budget::Budget;
use crate::seat::Seat;
use thiserror::Error;

/// Why numbers are no bounds. The faults are asked in this order.
#[derive(Clone, Copy, Debug, PartialEq, Eq, Error)]
pub enum BoundsFault {
    /// The low mark was above the high mark.
    #[error("the low mark is above the high mark")]
    LowAboveHigh,
    /// The room was above 2^62 - 1 bytes.
    #[error("the room is too great")]
    RoomTooGreat,
}

/// Why a seat was not raised. It holds what it held.
#[derive(Clone, Copy, Debug, PartialEq, Eq, Error)]
pub enum RaiseFault {
    /// The room was not there for the amount, at one moment while the call ran.
    #[error("the budget has no room for the amount")]
    Full,
    /// Other seats came in between 65,536 times.
    #[error("other seats came in between too often")]
    Busy,
}

/// A seat was not lowered, since other seats came in between 65,536 times. It holds what it held.
#[derive(Clone, Copy, Debug, PartialEq, Eq, Error)]
#[error("other seats came in between too often")]
pub struct Busy;

/// A seat was not split, since it is for one seat alone. It is as it was.
#[derive(Clone, Copy, Debug, PartialEq, Eq, Error)]
#[error("the seat is for one alone")]
pub struct OneSeat;

/// Some seats are out still, or were dropped. Both come back as they were.
#[derive(Drop)]
pub struct SeatsOut {
    /// The budget that was to be ended.
    pub budget: Budget,
    /// The seat that was to end it.
    pub seat: Seat,
}
