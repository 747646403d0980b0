//! The calls of a connection within a budget, under the lock.
ghost use Rattle.ob_shared_connection.specs.Calls.{ActsWithin, Settles, ShowsHeld};
ghost use Rattle.ob_shared_connection.specs.Values.{MayGive};

use crate::act::Act;
use crate::guard::Guard;
use crate::over::OverBudget;
use ob_budget::Pressure;
use ob_covered::Told;

impl Guard {
    /// Makes the call of an act, as `Handle::act_within`.
    pub fn act_within<A: Act>(
        &mut self,
        act: A,
    ) -> Told<Result<Result<A::Answer, A::Fault>, OverBudget<A>>>
        requires { MayGive self.old.handle.sends (A.commands act) }
        ensures { ActsWithin A.uncovered (A.does act) (A.commands act) act self.old result self.new }
    {
        self.caller.act_within(act)
    }

    /// Has the seat give back what is spare, as `Handle::settle`.
    pub fn settle(&mut self) -> Option<Pressure>
        ensures { Settles 2 result self.old self.new }
    {
        self.caller.settle()
    }

    /// Has the seat give back all above what is pending, as `Handle::rest`.
    pub fn rest(&mut self) -> Option<Pressure>
        ensures { Settles 0 result self.old self.new }
    {
        self.caller.rest()
    }

    /// The bytes that the seat holds, as `Handle::held`.
    pub fn held(&mut self) -> Option<u64>
        ensures { ShowsHeld result self.old self.new }
    {
        self.caller.held()
    }
}
