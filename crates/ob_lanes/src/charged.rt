ghost use Rattle.ob_lanes.specs.Calls.{debt_of};
ghost use Rattle.ob_lanes.specs.Inside.{view_of, IsBetweenCalls};
ghost use Rattle.ob_lanes.specs.Run.{RunningLane};

mod discharge;
mod looks;

use crate::running::Running;
use std::marker::Model;

/// A lane between a charge and its discharge. It may go to another thread, and be discharged there.
///
/// One that is dropped keeps its charge in the total, and its room, for good: `finish` is refused from then on.
#[derive(Drop)]
pub struct Charged {
    pub(crate) running: Running,
    pub(crate) owed: u32,
}

impl Model for Charged {
    ghost Value = { RunningLane };

    ghost view = { λ lane. view_of lane.running };

    ghost invariant = { λ lane. IsBetweenCalls lane.running (debt_of lane.owed) };
}
