//! What a caller does to a connection within a budget: under the lock, and with the lock taken for it.

ghost use Rattle.std.specs.Prelude.{◌≡◌, ◌<◌, IfErr, IfOk, IfSome, None, OnErr, OnOk};
ghost use Rattle.ob_shared_connection.specs.Steps.{IsFree, IsHolder, caller_handle, caller_held};
ghost use Rattle.ob_shared_connection.specs.Calls.{UnderLock, ActsWithin, IsRecovered, Settles, ShowsHeld};
ghost use Rattle.ob_shared_connection.specs.Values.{Adds, HoldsFor, LacksRoom, TakesFor, TellsIf, MayGive};

use crate::act::Act;
use crate::caller::Caller;
use crate::over::OverBudget;
use crate::patience::Patience;
use crate::wakes::Wakes;
use ob_budget::{Pressure, RaiseFault};
use ob_covered::Told;
use std::sync::Wait;

impl Caller {
    /// The bytes that a seat has to hold for an act beside those that are pending.
    fn adds<A: Act>(&mut self, act: &A) -> u64
        requires { IsHolder self.old }
        ensures holds { IsHolder self.new }
        ensures same { caller_held self.new ≡ caller_held self.old }
        ensures adds { Adds (caller_held self.old).connected (A.commands act.now) result }
    {
        let shared = &self.shared;
        let carried = self.seat.slot_mut(&shared.table.shared, 0);
        act.adds(&carried.connection)
    }

    /// Has the seat of a budget hold these bytes beside what is pending.
    fn take(&mut self, bytes: u64) -> Result<Option<Pressure>, RaiseFault>
        requires holds { IsHolder self.old }
        requires small { bytes < 4294967296 }
        ensures holds { IsHolder self.new }
        ensures same { IsRecovered (caller_held self.old) (caller_held self.new) }
        ensures told { IfOk result (λ told. TellsIf (caller_held self.old).cover told (caller_held self.new).cover) }
        ensures untold { OnErr result (TellsIf (caller_held self.old).cover None (caller_held self.new).cover) }
        ensures enough { OnOk result (HoldsFor (caller_held self.old).connected bytes (caller_held self.new).cover) }
        ensures sparing { TakesFor (caller_held self.old).connected bytes (caller_held self.old).cover (caller_held self.new).cover }
        ensures short { IfErr result (λ fault. LacksRoom (caller_held self.old).connected (caller_held self.old).cover bytes fault
            (caller_held self.new).cover) }
    {
        let shared = &self.shared;
        let carried = self.seat.slot_mut(&shared.table.shared, 0);
        carried.take(bytes)
    }

    /// Has it give back what is spare.
    pub fn settle(&mut self) -> Option<Pressure>
        requires { IsHolder self.old }
        ensures holds { IsHolder self.new }
        ensures settles { Settles 2 result (caller_held self.old) (caller_held self.new) }
    {
        let shared = &self.shared;
        let carried = self.seat.slot_mut(&shared.table.shared, 0);
        carried.settle()
    }

    /// Has it give back all above what is pending.
    pub fn rest(&mut self) -> Option<Pressure>
        requires { IsHolder self.old }
        ensures holds { IsHolder self.new }
        ensures settles { Settles 0 result (caller_held self.old) (caller_held self.new) }
    {
        let shared = &self.shared;
        let carried = self.seat.slot_mut(&shared.table.shared, 0);
        carried.rest()
    }

    /// The bytes that it holds, if there is one.
    pub fn held(&mut self) -> Option<u64>
        requires { IsHolder self.old }
        ensures holds { IsHolder self.new }
        ensures shows { ShowsHeld result (caller_held self.old) (caller_held self.new) }
    {
        let shared = &self.shared;
        let carried = self.seat.slot_mut(&shared.table.shared, 0);
        carried.room()
    }

    /// Does something to the connection under the lock, once its seat holds what that adds.
    pub fn act_within<A: Act>(
        &mut self,
        act: A,
    ) -> Told<Result<Result<A::Answer, A::Fault>, OverBudget<A>>>
        requires holds { IsHolder self.old }
        requires may { MayGive (caller_handle self.old).sends (A.commands act) }
        ensures holds { IsHolder self.new }
        ensures acts { ActsWithin A.uncovered (A.does act) (A.commands act) act (caller_held self.old) result (caller_held self.new) }
    {
        let adds = self.adds(&act);
        if adds == 0 {
            let answer = self.act(act);
            let pressure = self.settle();
            return Told {
                answer: Ok(answer),
                pressure,
            };
        }
        match self.take(adds) {
            Ok(pressure) => {
                let answer = self.act(act);
                Told {
                    answer: Ok(answer),
                    pressure,
                }
            }
            Err(fault) => Told {
                answer: Err(OverBudget { fault, act }),
                pressure: None,
            },
        }
    }

    /// One call within a budget, which takes the lock and lets it go.
    pub fn call_within<A: Act, R: Wait>(
        &mut self,
        rt: &R,
        act: A,
    ) -> Told<Result<Result<A::Answer, A::Fault>, OverBudget<A>>>
        requires free { IsFree self.old }
        requires may { MayGive (caller_handle self.old).sends (A.commands act) }
        ensures free { IsFree self.new }
        ensures sends { (caller_handle self.new).sends ≡ (caller_handle self.old).sends }
        ensures under { UnderLock (caller_handle self.old)
            (λ before after. ActsWithin A.uncovered (A.does act) (A.commands act) act before result after) (caller_handle self.new) }
    {
        self.lock(rt, Patience::Short);
        let told = self.act_within(act);
        self.unlock();
        told
    }

    /// The same if the lock is free, and tells whom to wake.
    pub fn try_call_within<A: Act>(
        &mut self,
        act: A,
    ) -> Result<
        (
            Told<Result<Result<A::Answer, A::Fault>, OverBudget<A>>>,
            Wakes,
        ),
        A,
    >
        requires free { IsFree self.old }
        requires may { MayGive (caller_handle self.old).sends (A.commands act) }
        ensures free { IsFree self.new }
        ensures sends { (caller_handle self.new).sends ≡ (caller_handle self.old).sends }
        ensures under { IfOk result (λ told. UnderLock (caller_handle self.old)
            (λ before after. ActsWithin A.uncovered (A.does act) (A.commands act) act before told.0 after) (caller_handle self.new)) }
        ensures busy { OnErr result (caller_handle self.new ≡ caller_handle self.old) }
        ensures back { IfErr result (λ again. again ≡ act) }
    {
        if !self.try_lock() {
            return Err(act);
        }
        let told = self.act_within(act);
        let wakes = self.leave();
        Ok((told, wakes))
    }

    /// Gives back what is spare, under the lock.
    pub fn settle_under_lock<R: Wait>(&mut self, rt: &R) -> Option<Pressure>
        requires { IsFree self.old }
        ensures free { IsFree self.new }
        ensures sends { (caller_handle self.new).sends ≡ (caller_handle self.old).sends }
        ensures under { UnderLock (caller_handle self.old) (Settles 2 result) (caller_handle self.new) }
    {
        self.lock(rt, Patience::Short);
        let told = self.settle();
        self.unlock();
        told
    }

    /// Gives back all above what is pending, under the lock.
    pub fn rest_under_lock<R: Wait>(&mut self, rt: &R) -> Option<Pressure>
        requires { IsFree self.old }
        ensures free { IsFree self.new }
        ensures sends { (caller_handle self.new).sends ≡ (caller_handle self.old).sends }
        ensures under { UnderLock (caller_handle self.old) (Settles 0 result) (caller_handle self.new) }
    {
        self.lock(rt, Patience::Short);
        let told = self.rest();
        self.unlock();
        told
    }

    /// The bytes that the seat holds, seen under the lock.
    pub fn held_under_lock<R: Wait>(&mut self, rt: &R) -> Option<u64>
        requires { IsFree self.old }
        ensures free { IsFree self.new }
        ensures sends { (caller_handle self.new).sends ≡ (caller_handle self.old).sends }
        ensures under { UnderLock (caller_handle self.old) (ShowsHeld result) (caller_handle self.new) }
    {
        self.lock(rt, Patience::Short);
        let held = self.held();
        self.unlock();
        held
    }

    /// The same if the lock is free, and tells whom to wake.
    pub fn try_held_under_lock(&mut self) -> Option<(Option<u64>, Wakes)>
        requires { IsFree self.old }
        ensures free { IsFree self.new }
        ensures sends { (caller_handle self.new).sends ≡ (caller_handle self.old).sends }
        ensures under { IfSome result (λ told. UnderLock (caller_handle self.old) (ShowsHeld told.0)
            (caller_handle self.new)) }
        ensures busy { result ≡ None → caller_handle self.new ≡ caller_handle self.old }
    {
        if !self.try_lock() {
            return None;
        }
        let held = self.held();
        let wakes = self.leave();
        Some((held, wakes))
    }

    /// Gives back what is spare if the lock is free, and tells whom to wake.
    pub fn try_settle_under_lock(&mut self) -> Option<(Option<Pressure>, Wakes)>
        requires { IsFree self.old }
        ensures free { IsFree self.new }
        ensures sends { (caller_handle self.new).sends ≡ (caller_handle self.old).sends }
        ensures under { IfSome result (λ told. UnderLock (caller_handle self.old) (Settles 2 told.0)
            (caller_handle self.new)) }
        ensures busy { result ≡ None → caller_handle self.new ≡ caller_handle self.old }
    {
        if !self.try_lock() {
            return None;
        }
        let told = self.settle();
        let wakes = self.leave();
        Some((told, wakes))
    }

    /// Gives back all above what is pending if the lock is free, and tells whom to wake.
    pub fn try_rest_under_lock(&mut self) -> Option<(Option<Pressure>, Wakes)>
        requires { IsFree self.old }
        ensures free { IsFree self.new }
        ensures sends { (caller_handle self.new).sends ≡ (caller_handle self.old).sends }
        ensures under { IfSome result (λ told. UnderLock (caller_handle self.old) (Settles 0 told.0)
            (caller_handle self.new)) }
        ensures busy { result ≡ None → caller_handle self.new ≡ caller_handle self.old }
    {
        if !self.try_lock() {
            return None;
        }
        let told = self.rest();
        let wakes = self.leave();
        Some((told, wakes))
    }
}
