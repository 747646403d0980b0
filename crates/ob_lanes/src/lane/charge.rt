ghost use Rattle.std.specs.Prelude.{◌≡◌, ◌<◌, ◌≤◌, IsOk, IfOk, IsErrAnd};
ghost use Rattle.ob_core.specs.declared.lane_step.LaneStep.TheVariants.{Add};
ghost use Rattle.ob_lanes.specs.Calls.{debt_of, ChangesDebt};

use super::Lane;
use crate::both::{after_add, change_of};
use crate::charged::Charged;
use crate::fault::NoRoom;
use crate::words::Words;
use ob_types::Change;
use std::sync::Wait;

impl Lane {
    /// Adds bytes to the total and, if that passes the high mark, sets bit 0 of the word, in one step. It tries again
    /// for as long as other lanes come between its read and its step, so whether it returns is not promised. If the whole
    /// room is at most the high mark, no bit can move, and it is one addition, which does not fail.
    ///
    /// The change is `Unwritable` if this call set bit 0 and found no bit set, and else none. `NoRoom` comes exactly if
    /// the amount is above the lane's room, and hands the lane back as it was. A charge of 0 does not touch the word.
    pub fn charge<R: Wait>(
        self,
        rt: &R,
        words: &Words,
        amount: u32,
    ) -> Result<(Charged, Option<Change>), (Lane, NoRoom)>
        requires { self.words ≡ words.now }
        ensures no_room { self.lane.room < amount → IsErrAnd result (λ refused. refused.0 ≡ self) }
        ensures charged { amount ≤ self.lane.room → IsOk result }
        ensures debt { IfOk result (λ ok. ChangesDebt (debt_of amount) amount (Add amount) self ok.0 ok.1) }
    {
        if amount > self.running.room {
            return Err((self, NoRoom));
        }
        let Lane { mut running } = self;
        if amount == 0 {
            return Ok((Charged { running, owed: 0 }, None));
        }
        let found = words.add(rt, &mut running.seat, running.last, amount);
        let left = after_add(words.marks(), found, amount);
        let change = change_of(found, left);
        running.last = Some(left);
        let charged = Charged {
            running,
            owed: amount,
        };
        Ok((charged, change))
    }
}
