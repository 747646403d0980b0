//! The calls of a transport of a connection within a budget.
ghost use Rattle.std.specs.Prelude.{◌≡◌, IfErr, IfOk, IfSome, None, OnErr};
ghost use Rattle.ob_shared_connection.specs.Calls.{UnderLock, ActsWithin, Settles};

use crate::act::Act;
use crate::over::OverBudget;
use crate::transport::Transport;
use crate::wakes::Wakes;
use ob_budget::Pressure;
use ob_covered::Told;
use std::sync::Wait;

impl Transport {
    /// Makes the call of an act, as `Handle::act_within`: one that takes messages away gives back what is spare then.
    pub fn act_within<R: Wait, A: Act>(
        &mut self,
        rt: &R,
        act: A,
    ) -> Told<Result<Result<A::Answer, A::Fault>, OverBudget<A>>>
        ensures { UnderLock self.old
            (λ before after. ActsWithin A.uncovered (A.does act) (A.commands act) act before result after) self.new }
    {
        self.caller.call_within(rt, act)
    }

    /// The same if the lock is free; else the act comes back. It waits for nobody, and wakes nobody: it tells whom to
    /// wake.
    pub fn try_act_within<A: Act>(
        &mut self,
        act: A,
    ) -> Result<
        (
            Told<Result<Result<A::Answer, A::Fault>, OverBudget<A>>>,
            Wakes,
        ),
        A,
    >
        ensures under { IfOk result (λ told. UnderLock self.old
            (λ before after. ActsWithin A.uncovered (A.does act) (A.commands act) act before told.0 after) self.new) }
        ensures busy { OnErr result (self.new ≡ self.old) }
        ensures back { IfErr result (λ again. again ≡ act) }
    {
        self.caller.try_call_within(act)
    }

    /// Has the seat of a connection within a budget give back what is spare, as `Handle::settle`: after a sending,
    /// whose calls leave it as it is.
    pub fn settle<R: Wait>(&mut self, rt: &R) -> Option<Pressure>
        ensures { UnderLock self.old (Settles 2 result) self.new }
    {
        self.caller.settle_under_lock(rt)
    }

    /// Has the seat of a connection within a budget give back all that it holds above what is pending, as
    /// `Handle::rest`.
    pub fn rest<R: Wait>(&mut self, rt: &R) -> Option<Pressure>
        ensures { UnderLock self.old (Settles 0 result) self.new }
    {
        self.caller.rest_under_lock(rt)
    }
    /// Gives back what is spare, as `settle`, if the lock is free: None if it is taken, as `Handle::try_settle`.
    pub fn try_settle(&mut self) -> Option<(Option<Pressure>, Wakes)>
        ensures under { IfSome result (λ told. UnderLock self.old (Settles 2 told.0) self.new) }
        ensures busy { result ≡ None → self.new ≡ self.old }
    {
        self.caller.try_settle_under_lock()
    }

    /// Gives back all above what is pending, as `rest`, if the lock is free: None if it is taken, as `Handle::try_rest`.
    pub fn try_rest(&mut self) -> Option<(Option<Pressure>, Wakes)>
        ensures under { IfSome result (λ told. UnderLock self.old (Settles 0 told.0) self.new) }
        ensures busy { result ≡ None → self.new ≡ self.old }
    {
        self.caller.try_rest_under_lock()
    }
}
