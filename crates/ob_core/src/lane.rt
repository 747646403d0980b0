ghost use Rattle.std.specs.Prelude.{◌≡◌, ◌≤◌, length, map, IfOk, slice_get};
ghost use Rattle.ob_core.specs.World.{sum_owed, most_lanes, new_lane};

use crate::ask::Ask;
use crate::ask_fault::AskFault;
use crate::bits::has_bit;
use crate::lane_start::LaneStart;
use crate::lane_step::LaneStep;
use std::alloc::{AllocError, Global};

/// A lane between two of its steps, as clauses show it. No call takes one or gives one out: a world is asked by the
/// numbers of its lanes.
#[derive(Clone, Copy, Debug, PartialEq, Eq)]
pub struct Lane {
    /// The most bytes that it may owe at a time.
    pub room: u32,
    /// The bytes of its charge that it has not taken back, which may be 0, or none between charges.
    pub debt: Option<u32>,
    /// The mask of the user bits that it holds.
    pub held: u32,
    /// The mask of those among them that it has set. No call reads it: it says which bits of the word are the lane's
    /// own doing.
    pub raised: u32,
}

impl Lane {
    ghost use Rattle.std.specs.Prelude.{◌≡◌};
    ghost use Rattle.ob_core.specs.World.{owed_by, new_lane};
    ghost use Rattle.ob_core.specs.Step.{is_held, refusal_of};
    ghost use Rattle.ob_core.specs.Turn.{step_of, lane_after_nothing};

    /// A lane that owes nothing and has set no bit.
    pub(crate) fn new(start: LaneStart) -> Lane
        ensures { result ≡ new_lane start }
    {
        Lane {
            room: start.room,
            debt: None,
            held: start.bits,
            raised: 0,
        }
    }

    /// The bytes that the lane owes.
    pub(crate) fn owed(self) -> u32
        ensures { result ≡ owed_by self }
    {
        self.debt.unwrap_or(0)
    }

    /// Whether the lane holds the bit with this index. It holds no bit outside 1 to 31, whatever its mask says.
    pub(crate) fn holds(self, index: u32) -> bool
        ensures { result ≡ is_held self index }
    {
        0 < index && index < 32 && has_bit(self.held, index)
    }

    /// Why the ask is refused, if it is.
    pub(crate) fn refusal(self, ask: Ask) -> Option<AskFault>
        ensures { result ≡ refusal_of self ask }
    {
        match ask {
            Ask::Charge(_) if self.debt.is_some() => Some(AskFault::Owing),
            Ask::Charge(amount) if amount > self.room => Some(AskFault::NoRoom),
            Ask::Discharge if self.debt.is_none() => Some(AskFault::NotOwing),
            Ask::Bit(index, _) if !self.holds(index) => Some(AskFault::NotHeld),
            Ask::Go => Some(AskFault::NotInside),
            _ => None,
        }
    }

    /// The step that the lane makes at an ask that is not refused. A charge of 0 and its discharge make none.
    pub(crate) fn step(self, ask: Ask) -> Option<LaneStep>
        ensures { result ≡ step_of self ask }
    {
        match ask {
            Ask::Charge(0) => None,
            Ask::Charge(amount) => Some(LaneStep::Add(amount)),
            Ask::Discharge => match self.debt {
                None | Some(0) => None,
                Some(amount) => Some(LaneStep::Subtract(amount)),
            },
            Ask::Bit(index, true) => Some(LaneStep::ClearBit(index)),
            Ask::Bit(index, false) => Some(LaneStep::SetBit(index)),
            Ask::Word | Ask::Total => Some(LaneStep::Load),
            Ask::Go => None,
        }
    }

    /// The lane after an ask that is no step: after a charge it owes, after a discharge it does not.
    pub(crate) fn after_nothing(self, ask: Ask) -> Lane
        ensures { result ≡ lane_after_nothing self ask }
    {
        match ask {
            Ask::Charge(amount) => Lane {
                debt: Some(amount),
                ..self
            },
            Ask::Discharge => Lane { debt: None, ..self },
            Ask::Bit(_, _) | Ask::Word | Ask::Total | Ask::Go => self,
        }
    }
}

/// The lanes of a world that begins, in their order.
pub fn make_lanes(alloc: Global, starts: &[LaneStart]) -> Result<Vec<Lane>, AllocError>
    ensures { IfOk result (λ lanes. lanes.items ≡ map new_lane starts.now) }
{
    starts.iter().map(|start| Lane::new(*start)).collect(alloc)
}

/// What the lanes owe together.
pub fn add_debts(lanes: &[Lane]) -> u64
    requires { length lanes.now ≤ most_lanes }
    ensures { result ≡ sum_owed lanes.now }
{
    lanes.iter().map(|lane| u64::from(lane.owed())).sum()
}

/// The lane with this number, if there is one.
pub fn find_lane(lanes: &[Lane], number: u32) -> Option<Lane>
    ensures { result ≡ slice_get lanes.now number }
{
    lanes.get(number as usize).copied()
}
