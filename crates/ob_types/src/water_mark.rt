ghost use Rattle.std.specs.Prelude.{◌≡◌, ◌≤◌, IfOk};
ghost use Rattle.ob_types.specs.Limits.{greatest_mark};
ghost use Rattle.ob_types.specs.Marks.{water_mark_of};

use crate::refusal::Refusal;
use std::marker::Model;

/// The greatest mark, in bytes: `Integer.MAX_VALUE`, the top of Netty's `int` marks.
const MAX_MARK: u32 = 2147483647;

/// The two marks of a buffer, in bytes (Netty's `WriteBufferWaterMark`).
///
/// The mark of a buffer is set by a rise that leaves more bytes pending than the high mark, and cleared by a fall with
/// notice that leaves fewer than the low mark; nothing else decides it. The buffer is writable while neither the mark
/// nor a user bit is set. The low mark is at most the high mark, and both are at most 2147483647. Under a low mark of 0
/// a mark that was set stays set, since no total is below it.
#[derive(Clone, Copy, Debug, PartialEq, Eq)]
pub struct WaterMark {
    low: u32,
    high: u32,
}

impl Model for WaterMark {
    ghost use Rattle.ob_types.specs.Marks.{Marks, AreMarks};

    ghost Value = { Marks };

    ghost view = { λ marks. record { low = marks.low; high = marks.high } };

    ghost invariant = { λ marks. AreMarks (record { low = marks.low; high = marks.high }) };

    ghost inverse = { λ marks. record { low = marks.low; high = marks.high } };
}

impl WaterMark {
    /// The marks, which may be equal. `BadMarks` comes exactly if low is above high, or high above 2147483647. It does
    /// not allocate.
    pub fn new(low: u32, high: u32) -> Result<WaterMark, Refusal>
        ensures { result ≡ water_mark_of low high }
    {
        if low > high || high > MAX_MARK {
            return Err(Refusal::BadMarks);
        }
        Ok(WaterMark { low, high })
    }

    /// The low mark, in bytes.
    pub fn low(self) -> u32
        ensures value { result ≡ self.low }
        ensures below_high { result ≤ self.high }
    {
        self.low
    }

    /// The high mark, in bytes.
    pub fn high(self) -> u32
        ensures value { result ≡ self.high }
        ensures within_limit { result ≤ greatest_mark }
    {
        self.high
    }
}
