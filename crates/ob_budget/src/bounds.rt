ghost use Rattle.std.specs.Prelude.{◌≡◌, ◌≤◌};
ghost use Rattle.ob_budget.specs.Bounds.{bounds_of, greatest_room};

use crate::fault::BoundsFault;
use std::marker::Model;

/// The greatest room, in bytes.
const MAX_ROOM: u64 = (1 << 62) - 1;

/// What a budget is opened with, in bytes: the room, which the total never passes, and the two marks of pressure.
///
/// Pressure begins by a raise that leaves more than the high mark, and ends by a fall that leaves less than the low mark.
/// With a high mark of the whole room or above it never begins; once begun, under a low mark of 0 it never ends.
#[derive(Clone, Copy, Debug, PartialEq, Eq)]
pub struct Bounds {
    room: u64,
    low: u64,
    high: u64,
}

impl Model for Bounds {
    ghost use Rattle.ob_budget.specs.Bounds.{BoundsValue, AreBounds};

    ghost Value = { BoundsValue };

    ghost view = { λ bounds. record { room = bounds.room; low = bounds.low; high = bounds.high } };

    ghost invariant = { λ bounds. AreBounds (record { room = bounds.room; low = bounds.low; high = bounds.high }) };

    ghost inverse = { λ bounds. record { room = bounds.room; low = bounds.low; high = bounds.high } };
}

impl Bounds {
    /// The bounds of three numbers of bytes. `LowAboveHigh` comes exactly if low is above high, and then `RoomTooGreat` if
    /// the room is above 2^62 - 1. It does not allocate.
    pub fn new(room: u64, low: u64, high: u64) -> Result<Bounds, BoundsFault>
        ensures { result ≡ bounds_of room low high }
    {
        if low > high {
            return Err(BoundsFault::LowAboveHigh);
        }
        if room > MAX_ROOM {
            return Err(BoundsFault::RoomTooGreat);
        }
        Ok(Bounds { room, low, high })
    }

    /// The most bytes that all seats together may hold.
    pub fn room(self) -> u64
        ensures value { result ≡ self.room }
        ensures within_limit { result ≤ greatest_room }
    {
        self.room
    }

    /// The low mark, in bytes.
    pub fn low(self) -> u64
        ensures value { result ≡ self.low }
        ensures below_high { result ≤ self.high }
    {
        self.low
    }

    /// The high mark, in bytes.
    pub fn high(self) -> u64
        ensures { result ≡ self.high }
    {
        self.high
    }
}
