//! A charge and a discharge: exchanges until one of them finds what it expects. The first expects what the lane's own last
//! step left, so a lane alone makes one exchange, and no load; each other expects what the one before it found. If that fails
//! too, other lanes are at it, and a pause comes: they make several steps meanwhile, while the word stays with one processor.
//! What was found before a pause is old after it, so the next exchange finds it anew, and the one behind that comes at once.
//! If no total is above the high mark, both are one addition or subtraction, which cannot fail.
ghost use Rattle.std.specs.Prelude.{◌≡◌, ◌<◌, ◌+◌, ◌≤◌, IfSome};
ghost use Rattle.ob_types.specs.Marks.{total_half};
ghost use Rattle.ob_core.specs.declared.lane_step.LaneStep.TheVariants.{Add, Load, Subtract};
ghost use Rattle.ob_lanes.specs.Inside.{HasTried, SeatTries};
ghost use Rattle.ob_lanes.specs.Ruled.{IsSameSeat, MayExpect, MayMake};

use super::Words;
use crate::facts::Facts;
use atomic_table::Seat;
use std::hint::spin_loop;
use std::sync::Wait;

/// How often a lane pauses before it tries again: for some microseconds in all.
const PAUSES: u32 = 128;

/// Pauses if it is to, and tells whether to pause the next time.
fn pause(pauses: bool) -> bool {
    if pauses {
        for _ in 0..PAUSES {
            spin_loop();
        }
    }
    !pauses
}

impl Words {
    /// What a lane expects to find: what its own last step left, or what it reads if that is not known.
    fn expected(&self, seat: &mut Seat<(), Facts>, last: Option<u64>) -> u64
        requires may { MayMake self.now seat.old Load }
        requires last { IfSome last (MayExpect seat.old.me.0) }
        ensures { SeatTries seat.old result seat.new }
    {
        match last {
            Some(both) => both,
            None => self.load(seat),
        }
    }

    /// Adds, and returns what it found then.
    pub(crate) fn add<R: Wait>(
        &self,
        rt: &R,
        seat: &mut Seat<(), Facts>,
        last: Option<u64>,
        amount: u32,
    ) -> u64
        requires may { MayMake self.now seat.old (Add amount) }
        requires last { IfSome last (MayExpect seat.old.me.0) }
        ensures seat { IsSameSeat seat.old seat.new }
        ensures tried { HasTried (Add amount) seat.old.me result seat.new.me }
        ensures fits { total_half result + amount < 4294967296 }
    {
        if self.is_calm() {
            return self.add_at_once(seat, amount);
        }
        let mut expected = self.expected(seat, last);
        let mut pauses = false;
        'tries: for _ in rt.forever() {
            let found = self.try_add(seat, expected, amount);
            if found == expected {
                return found;
            }
            expected = found;
            pauses = pause(pauses);
        }
        unreachable!()
    }

    /// Subtracts, and returns what it found then.
    pub(crate) fn subtract<R: Wait>(
        &self,
        rt: &R,
        seat: &mut Seat<(), Facts>,
        last: Option<u64>,
        amount: u32,
    ) -> u64
        requires may { MayMake self.now seat.old (Subtract amount) }
        requires last { IfSome last (MayExpect seat.old.me.0) }
        ensures seat { IsSameSeat seat.old seat.new }
        ensures tried { HasTried (Subtract amount) seat.old.me result seat.new.me }
        ensures fits { amount ≤ total_half result }
    {
        if self.is_calm() {
            return self.subtract_at_once(seat, amount);
        }
        let mut expected = self.expected(seat, last);
        let mut pauses = false;
        'tries: for _ in rt.forever() {
            let found = self.try_subtract(seat, expected, amount);
            if found == expected {
                return found;
            }
            expected = found;
            pauses = pause(pauses);
        }
        unreachable!()
    }
}
