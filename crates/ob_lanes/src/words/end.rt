ghost use Rattle.ob_lanes.specs.Inside.{IsEnd};
ghost use Rattle.ob_lanes.specs.Ruled.{IsSeatOf};
ghost use Rattle.std.specs.Prelude.{◌<◌, ◌^◌};

use super::Words;
use crate::facts::Facts;
use crate::rule::BOTH;
use atomic_table::Seat;

impl Words {
    /// Gives the memory back, and returns both as they were.
    pub(crate) fn end(self, seat: Seat<(), Facts>) -> u64
        requires words { IsSeatOf self seat }
        ensures end { IsEnd self.grant seat result }
        ensures bits { self.grant.bits < 2 ^ 32 }
    {
        let Words { table, grant: _ } = self;
        let closed = table.close_with(seat);
        let both = closed.word(BOTH);
        closed.free();
        both
    }
}
