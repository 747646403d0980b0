use crate::bits::{MARK_BIT, clear_bit, set_bit};
use crate::lane::Lane;
use ob_types::WaterMark;

/// One atomic step of a lane on the one word, as clauses name it.
#[derive(Clone, Copy, Debug, PartialEq, Eq)]
pub enum LaneStep {
    /// Adds a charge above 0 to the total, and sets bit 0 of the word if that passes the high mark.
    Add(u32),
    /// Takes a charge above 0 off the total, and clears bit 0 of the word if that comes below the low mark.
    Subtract(u32),
    /// Sets a user bit that the lane holds.
    SetBit(u32),
    /// Clears a user bit that the lane holds.
    ClearBit(u32),
    /// Reads the word and the total.
    Load,
}

impl LaneStep {
    ghost use Rattle.std.specs.Prelude.{◌≡◌};
    ghost use Rattle.ob_core.specs.Step.{FitsTotal, FitsWord, total_after, word_after, lane_after};

    /// The total after the step.
    pub(crate) fn total_after(self, total: u32) -> u32
        requires { FitsTotal self total }
        ensures { result ≡ total_after self total }
    {
        match self {
            LaneStep::Add(amount) => total + amount,
            LaneStep::Subtract(amount) => total - amount,
            LaneStep::SetBit(_) | LaneStep::ClearBit(_) | LaneStep::Load => total,
        }
    }

    /// The word after the step, which found this total and this word.
    pub(crate) fn word_after(self, marks: WaterMark, total: u32, word: u32) -> u32
        requires total { FitsTotal self total }
        requires word { FitsWord self }
        ensures { result ≡ word_after self marks total word }
    {
        match self {
            LaneStep::Add(amount) if total + amount > marks.high() => set_bit(word, MARK_BIT),
            LaneStep::Subtract(amount) if total - amount < marks.low() => clear_bit(word, MARK_BIT),
            LaneStep::SetBit(index) => set_bit(word, index),
            LaneStep::ClearBit(index) => clear_bit(word, index),
            LaneStep::Add(_) | LaneStep::Subtract(_) | LaneStep::Load => word,
        }
    }

    /// The lane after its step.
    pub(crate) fn lane_after(self, lane: Lane) -> Lane
        requires { FitsWord self }
        ensures { result ≡ lane_after self lane }
    {
        match self {
            LaneStep::Add(amount) => Lane {
                debt: Some(amount),
                ..lane
            },
            LaneStep::Subtract(_) => Lane { debt: None, ..lane },
            LaneStep::SetBit(index) => Lane {
                raised: set_bit(lane.raised, index),
                ..lane
            },
            LaneStep::ClearBit(index) => Lane {
                raised: clear_bit(lane.raised, index),
                ..lane
            },
            LaneStep::Load => lane,
        }
    }
}
