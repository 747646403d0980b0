mod bit;
mod charge;
mod finish;
mod join;
mod looks;
mod split;

use crate::running::Running;
use std::marker::Model;

/// A lane that owes nothing. It may go to another thread.
///
/// Whoever has one has a free one: see `every_lane_is_free`.
///
/// A lane that is dropped keeps its room and its bits for good: `finish` is refused from then on.
#[derive(Drop)]
pub struct Lane {
    pub(crate) running: Running,
}

impl Model for Lane {
    ghost use Rattle.ob_lanes.specs.Run.{RunningLane};

    ghost Value = { RunningLane };

    ghost use Rattle.std.specs.Prelude.{None};
    ghost use Rattle.ob_lanes.specs.Inside.{view_of, IsBetweenCalls};

    ghost view = { λ lane. view_of lane.running };

    ghost invariant = { λ lane. IsBetweenCalls lane.running None };
}
