//! The calls of a connection within a budget.
ghost use Rattle.std.specs.Prelude.{◌≡◌, IfErr, IfOk, IfSome, IsOk, None, OnErr};
ghost use Rattle.ob_shared_connection.specs.Calls.{UnderLock, ActsWithin, Settles, ShowsHeld};
ghost use Rattle.ob_shared_connection.specs.Values.{MayGive};

use crate::act::Act;
use crate::handle::Handle;
use crate::over::OverBudget;
use crate::wakes::Wakes;
use ob_budget::Pressure;
use ob_covered::Told;
use std::sync::Wait;

impl Handle {
    /// Makes the call of an act, one of `commands` or of `writes`, as `act_within(rt, Write(message))`. Of a connection
    /// within a budget the seat is raised first by what it lacks for a message, or by its quantum; if the budget
    /// refuses that, the act comes back, before anything is allocated, and nothing changed. Any other act gives back
    /// what is spare, and so does a write of which the connection refuses the message, whatever memory there is. The
    /// turn of pressure that the call made is told here alone. Only the handle that sends makes an act that takes
    /// flushed messages away.
    pub fn act_within<R: Wait, A: Act>(
        &mut self,
        rt: &R,
        act: A,
    ) -> Told<Result<Result<A::Answer, A::Fault>, OverBudget<A>>>
        requires { MayGive self.old.sends (A.commands act) }
        ensures under { UnderLock self.old
            (λ before after. ActsWithin A.uncovered (A.does act) (A.commands act) act before result after) self.new }
        ensures without { self.old.budget ≡ None → IsOk result.answer }
    {
        self.caller.call_within(rt, act)
    }

    /// The same if the lock is free; else the act comes back. It waits for nobody, and wakes nobody: it tells whom to
    /// wake.
    pub fn try_act_within<A: Act>(
        &mut self,
        act: A,
    ) -> Result<
        (
            Told<Result<Result<A::Answer, A::Fault>, OverBudget<A>>>,
            Wakes,
        ),
        A,
    >
        requires { MayGive self.old.sends (A.commands act) }
        ensures under { IfOk result (λ told. UnderLock self.old
            (λ before after. ActsWithin A.uncovered (A.does act) (A.commands act) act before told.0 after) self.new) }
        ensures busy { OnErr result (self.new ≡ self.old) }
        ensures back { IfErr result (λ again. again ≡ act) }
    {
        self.caller.try_call_within(act)
    }

    /// Has the seat of a connection within a budget give back what it holds above two quanta beside what is pending,
    /// down to one, and returns the turn of pressure that this made. Calls that are not told of a budget leave it as it
    /// is.
    pub fn settle<R: Wait>(&mut self, rt: &R) -> Option<Pressure>
        ensures { UnderLock self.old (Settles 2 result) self.new }
    {
        self.caller.settle_under_lock(rt)
    }

    /// Has the seat of a connection within a budget give back all that it holds above what is pending, for one that is
    /// idle, and returns the turn of pressure that this made.
    pub fn rest<R: Wait>(&mut self, rt: &R) -> Option<Pressure>
        ensures { UnderLock self.old (Settles 0 result) self.new }
    {
        self.caller.rest_under_lock(rt)
    }

    /// The bytes that the seat of a connection within a budget holds: at least those that are pending. None if it was opened
    /// within no budget.
    pub fn held<R: Wait>(&mut self, rt: &R) -> Option<u64>
        ensures { UnderLock self.old (ShowsHeld result) self.new }
    {
        self.caller.held_under_lock(rt)
    }

    /// The bytes that the seat holds, as `held`, if the lock is free: None if it is taken. It waits for nobody, and wakes
    /// nobody: it tells whom to wake.
    pub fn try_held(&mut self) -> Option<(Option<u64>, Wakes)>
        ensures under { IfSome result (λ told. UnderLock self.old (ShowsHeld told.0) self.new) }
        ensures busy { result ≡ None → self.new ≡ self.old }
    {
        self.caller.try_held_under_lock()
    }

    /// Gives back what is spare, as `settle`, if the lock is free: None if it is taken. It waits for nobody, and wakes
    /// nobody: it tells whom to wake.
    pub fn try_settle(&mut self) -> Option<(Option<Pressure>, Wakes)>
        ensures under { IfSome result (λ told. UnderLock self.old (Settles 2 told.0) self.new) }
        ensures busy { result ≡ None → self.new ≡ self.old }
    {
        self.caller.try_settle_under_lock()
    }

    /// Gives back all above what is pending, as `rest`, if the lock is free: None if it is taken. It waits for nobody, and
    /// wakes nobody: it tells whom to wake.
    pub fn try_rest(&mut self) -> Option<(Option<Pressure>, Wakes)>
        ensures under { IfSome result (λ told. UnderLock self.old (Settles 0 told.0) self.new) }
        ensures busy { result ≡ None → self.new ≡ self.old }
    {
        self.caller.try_rest_under_lock()
    }
}
