ghost use Rattle.std.specs.Prelude.{◌≡◌, None};
ghost use Rattle.ob_core.specs.World.{owed_by};
ghost use Rattle.ob_core.specs.declared.lane_step.LaneStep.TheVariants.{Subtract};
ghost use Rattle.ob_lanes.specs.Calls.{ChangesDebt};

use super::Charged;
use crate::both::{after_subtract, change_of};
use crate::lane::Lane;
use crate::words::Words;
use ob_types::Change;
use std::sync::Wait;

impl Charged {
    /// Takes the bytes off the total and, if that comes below the low mark, clears bit 0 of the word, in one step. It
    /// tries again for as long as other lanes come between its read and its step, so whether it returns is not promised.
    /// If the whole room is at most the high mark, no bit can move, and it is one subtraction, which does not fail.
    ///
    /// The change is `Writable` if this call cleared bit 0 and found no other bit set, and else none. The discharge of a
    /// charge of 0 does not touch the word. It never fails.
    pub fn discharge<R: Wait>(self, rt: &R, words: &Words) -> (Lane, Option<Change>)
        requires { self.words ≡ words.now }
        ensures { let owed = owed_by self.lane in ChangesDebt None owed (Subtract owed) self result.0 result.1 }
    {
        let Charged { mut running, owed } = self;
        if owed == 0 {
            return (Lane { running }, None);
        }
        let found = words.subtract(rt, &mut running.seat, running.last, owed);
        let left = after_subtract(words.marks(), found, owed);
        let change = change_of(found, left);
        running.last = Some(left);
        (Lane { running }, change)
    }
}
