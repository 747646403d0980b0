//! What C holds of a shared connection: a handle for each thread.

ghost use Rattle.std.specs.Prelude.{◌≡◌, false, IsSome, is_some, Option, Some, None, option_map};
ghost use Rattle.std.specs.Borrow.{sem};
ghost use Rattle.ob_c.specs.Held.{held};
ghost use Rattle.ob_shared_connection.specs.contracts.handle.Handle.{the_row as sharer_row};
ghost use Rattle.ob_shared_connection.specs.Values.{HandleValue};

use crate::loose::Loose;
use crate::numbers::{BUSY, NOT_OPEN, accepted};
use crate::puts::let_go;
use crate::tries::wake_nobody;
use ob_budget::{Pressure, RaiseFault};
use ob_covered::Told;
use ob_shared_connection::{Act, Ask, Handle, WriteFault};
use ob_types::Refusal;
use std::alloc::Global;
use std::marker::Model;
use std::ptr::null_mut;

/// One of the handles of a connection that several threads of C's use, which makes it as `{0}`: none yet.
#[repr(C)]
#[derive(Drop)]
pub struct Shared {
    at: *mut u8,
    ghost value: { Option HandleValue },
}

impl Model for Shared {
    ghost also_owns = { λ h. held sharer_row h.at h.value };
}

// The handle behind it may go to another thread, and C gives it to one call at a time.
unsafe impl Send for Shared {}

impl Shared {
    ghost use Rattle.ob_shared_connection.specs.Calls.{IsCall, Settles, ShowsHeld};
    ghost use Rattle.ob_shared_connection.specs.Values.{MayGive};
    ghost use Rattle.ob_c.specs.Reaching.{LendsShared};
    ghost use Rattle.ob_c.specs.Sharing.{Tries, TriesTo, TriesToLook};
    ghost use Rattle.ob_c.specs.Within.{DoesWithin};

    /// Takes the handle out, if there is one.
    pub(crate) fn handle(&mut self, alloc: Global) -> Option<Box<Handle>>
        ensures taken { option_map (λ handle. handle.value) result ≡ self.old.value }
        ensures none { self.new.value ≡ None }
    {
        if !self.is_open() {
            return None;
        }
        Some(self.take(alloc).into_box())
    }

    /// Puts a handle in.
    pub(crate) fn keep(&mut self, handle: Box<Handle>)
        ensures { self.new.value ≡ Some handle.value }
    {
        self.put(Loose::of(handle));
    }

    /// Whether it holds a handle.
    pub(crate) fn is_open(&mut self) -> bool
        ensures { (result ≡ is_some self.old.value) × (self.new ≡ self.old) }
    {
        !self.at.is_null()
    }

    /// The handle, in its place: the struct is not written.
    pub(crate) fn reach(&mut self) -> &mut Handle
        requires { IsSome self.old.value }
        ensures* writes_back { sem 𝓛 (LendsShared self.entry result) }
        ensures value { self.old.value ≡ Some result.now }
    {
        unsafe { &mut *(self.at as *mut Handle) }
    }

    /// Makes the call of an act that takes no flushed message away, if there is a handle and the lock is free.
    pub(crate) fn obey<A: Act<Fault = Refusal> + Drop>(&mut self, act: A) -> Result<A::Answer, u32>
        requires { MayGive false (A.commands act) }
        ensures { Tries self.old.value (λ answer before after. IsCall A.uncovered (A.does act) (A.commands act) before answer after)
            (λ told. told) result self.new.value }
    {
        if !self.is_open() {
            return Err(NOT_OPEN);
        }
        match self.reach().try_act(act) {
            Err(_act) => Err(BUSY),
            Ok((answer, wakes)) => {
                wake_nobody(wakes);
                accepted(Some(answer))
            }
        }
    }

    /// Makes a write, if there is a handle and the lock is free.
    pub(crate) fn make<A: Act<Fault = WriteFault> + Drop>(
        &mut self,
        act: A,
    ) -> Result<Result<A::Answer, WriteFault>, u32>
        requires { MayGive false (A.commands act) }
        ensures { TriesTo self.old.value (λ answer before after. IsCall A.uncovered (A.does act) (A.commands act) before answer after)
            (λ told. told) result self.new.value }
    {
        if !self.is_open() {
            return Err(NOT_OPEN);
        }
        match self.reach().try_act(act) {
            Err(_act) => Err(BUSY),
            Ok((answer, wakes)) => {
                wake_nobody(wakes);
                Ok(answer)
            }
        }
    }

    /// Makes a write within a budget, if there is a handle and the lock is free.
    pub(crate) fn make_within<A: Act<Fault = WriteFault> + Drop>(
        &mut self,
        act: A,
    ) -> Result<Told<Result<Result<A::Answer, WriteFault>, RaiseFault>>, u32>
        requires { MayGive false (A.commands act) }
        ensures { TriesTo self.old.value (DoesWithin A.uncovered (A.does act) (A.commands act)) (λ told. told) result self.new.value }
    {
        if !self.is_open() {
            return Err(NOT_OPEN);
        }
        match self.reach().try_act_within(act) {
            Err(_act) => Err(BUSY),
            Ok((told, wakes)) => {
                wake_nobody(wakes);
                Ok(let_go(told))
            }
        }
    }

    /// Has the seat give back what is spare, if there is a handle and the lock is free.
    pub(crate) fn settle(&mut self) -> Result<Option<Pressure>, u32>
        ensures { TriesTo self.old.value (Settles 2) (λ told. told) result self.new.value }
    {
        if !self.is_open() {
            return Err(NOT_OPEN);
        }
        match self.reach().try_settle() {
            None => Err(BUSY),
            Some((pressure, wakes)) => {
                wake_nobody(wakes);
                Ok(pressure)
            }
        }
    }

    /// Has the seat give back all above what is pending, if there is a handle and the lock is free.
    pub(crate) fn rest(&mut self) -> Result<Option<Pressure>, u32>
        ensures { TriesTo self.old.value (Settles 0) (λ told. told) result self.new.value }
    {
        if !self.is_open() {
            return Err(NOT_OPEN);
        }
        match self.reach().try_rest() {
            None => Err(BUSY),
            Some((pressure, wakes)) => {
                wake_nobody(wakes);
                Ok(pressure)
            }
        }
    }

    /// The bytes that the seat holds, if there is a handle and the lock is free.
    pub(crate) fn held(&mut self) -> Result<Option<u64>, u32>
        ensures { TriesTo self.old.value ShowsHeld (λ told. told) result self.new.value }
    {
        if !self.is_open() {
            return Err(NOT_OPEN);
        }
        match self.reach().try_held() {
            None => Err(BUSY),
            Some((held, wakes)) => {
                wake_nobody(wakes);
                Ok(held)
            }
        }
    }

    /// Takes a look, if there is a handle and the lock is free.
    pub(crate) fn ask<A: Ask + Drop>(&mut self, ask: A) -> Result<A::Answer, u32>
        ensures { TriesToLook self.old.value (A.shows ask) (λ told. told) result self.new.value }
    {
        if !self.is_open() {
            return Err(NOT_OPEN);
        }
        match self.reach().try_ask(ask) {
            Err(_ask) => Err(BUSY),
            Ok((answer, wakes)) => {
                wake_nobody(wakes);
                Ok(answer)
            }
        }
    }

    /// Takes the handle out as its pointer.
    fn take(&mut self, alloc: Global) -> Loose<Handle, Global>
        requires { IsSome self.old.value }
        ensures { (self.old.value ≡ Some result.value) × (self.new.value ≡ None) }
    {
        let at = self.at as *mut Handle;
        self.at = null_mut();
        Loose { at, alloc }
    }

    /// Puts the pointer of a handle in.
    fn put(&mut self, loose: Loose<Handle, Global>)
        ensures { self.new.value ≡ Some loose.value }
    {
        let Loose { at, alloc: _ } = loose;
        self.at = at as *mut u8;
    }
}
