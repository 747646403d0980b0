//! What C holds of the handle of a shared connection that sends.

ghost use Rattle.std.specs.Prelude.{◌≡◌, IsSome, is_some, Option, Some, None, option_map};
ghost use Rattle.std.specs.Borrow.{sem};
ghost use Rattle.ob_c.specs.Held.{held};
ghost use Rattle.ob_shared_connection.specs.contracts.transport.Transport.{the_row as sender_row};
ghost use Rattle.ob_shared_connection.specs.Values.{HandleValue};

use crate::loose::Loose;
use crate::numbers::{BUSY, NOT_OPEN, accepted};
use crate::tries::wake_nobody;
use ob_budget::Pressure;
use ob_shared_connection::{Act, Ask};
use ob_types::Refusal;
use std::alloc::Global;
use std::marker::Model;
use std::ptr::null_mut;

/// The handle that sends, of a connection that several threads of C's use, which makes it as `{0}`: none yet.
#[repr(C)]
#[derive(Drop)]
pub struct Transport {
    at: *mut u8,
    ghost value: { Option HandleValue },
}

impl Model for Transport {
    ghost also_owns = { λ h. held sender_row h.at h.value };
}

// The handle behind it may go to another thread, and C gives it to one call at a time.
unsafe impl Send for Transport {}

impl Transport {
    ghost use Rattle.ob_shared_connection.specs.Calls.{IsCall, Settles};
    ghost use Rattle.ob_c.specs.Reaching.{LendsTransport};
    ghost use Rattle.ob_c.specs.Sharing.{Tries, TriesTo, TriesToLook};

    /// Takes the handle out, if there is one.
    pub(crate) fn sender(&mut self, alloc: Global) -> Option<Box<ob_shared_connection::Transport>>
        ensures taken { option_map (λ handle. handle.value) result ≡ self.old.value }
        ensures none { self.new.value ≡ None }
    {
        if !self.is_open() {
            return None;
        }
        Some(self.take(alloc).into_box())
    }

    /// Puts a handle in.
    pub(crate) fn keep(&mut self, handle: Box<ob_shared_connection::Transport>)
        ensures { self.new.value ≡ Some handle.value }
    {
        self.put(Loose::of(handle));
    }

    /// Whether it holds a handle.
    pub(crate) fn is_open(&mut self) -> bool
        ensures { (result ≡ is_some self.old.value) × (self.new ≡ self.old) }
    {
        !self.at.is_null()
    }

    /// The handle, in its place: the struct is not written.
    pub(crate) fn reach(&mut self) -> &mut ob_shared_connection::Transport
        requires { IsSome self.old.value }
        ensures* writes_back { sem 𝓛 (LendsTransport self.entry result) }
        ensures value { self.old.value ≡ Some result.now }
    {
        unsafe { &mut *(self.at as *mut ob_shared_connection::Transport) }
    }

    /// Makes the call of an act, if there is a handle and the lock is free.
    pub(crate) fn obey<A: Act<Fault = Refusal> + Drop>(&mut self, act: A) -> Result<A::Answer, u32>
        ensures { Tries self.old.value (λ answer before after. IsCall A.uncovered (A.does act) (A.commands act) before answer after)
            (λ told. told) result self.new.value }
    {
        if !self.is_open() {
            return Err(NOT_OPEN);
        }
        match self.reach().try_act(act) {
            Err(_act) => Err(BUSY),
            Ok((answer, wakes)) => {
                wake_nobody(wakes);
                accepted(Some(answer))
            }
        }
    }

    /// Has the seat give back what is spare, if there is a handle and the lock is free.
    pub(crate) fn settle(&mut self) -> Result<Option<Pressure>, u32>
        ensures { TriesTo self.old.value (Settles 2) (λ told. told) result self.new.value }
    {
        if !self.is_open() {
            return Err(NOT_OPEN);
        }
        match self.reach().try_settle() {
            None => Err(BUSY),
            Some((pressure, wakes)) => {
                wake_nobody(wakes);
                Ok(pressure)
            }
        }
    }

    /// Has the seat give back all above what is pending, if there is a handle and the lock is free.
    pub(crate) fn rest(&mut self) -> Result<Option<Pressure>, u32>
        ensures { TriesTo self.old.value (Settles 0) (λ told. told) result self.new.value }
    {
        if !self.is_open() {
            return Err(NOT_OPEN);
        }
        match self.reach().try_rest() {
            None => Err(BUSY),
            Some((pressure, wakes)) => {
                wake_nobody(wakes);
                Ok(pressure)
            }
        }
    }

    /// Takes a look, if there is a handle and the lock is free.
    pub(crate) fn ask<A: Ask + Drop>(&mut self, ask: A) -> Result<A::Answer, u32>
        ensures { TriesToLook self.old.value (A.shows ask) (λ told. told) result self.new.value }
    {
        if !self.is_open() {
            return Err(NOT_OPEN);
        }
        match self.reach().try_ask(ask) {
            Err(_ask) => Err(BUSY),
            Ok((answer, wakes)) => {
                wake_nobody(wakes);
                Ok(answer)
            }
        }
    }

    /// Takes the handle out as its pointer.
    fn take(&mut self, alloc: Global) -> Loose<ob_shared_connection::Transport, Global>
        requires { IsSome self.old.value }
        ensures { (self.old.value ≡ Some result.value) × (self.new.value ≡ None) }
    {
        let at = self.at as *mut ob_shared_connection::Transport;
        self.at = null_mut();
        Loose { at, alloc }
    }

    /// Puts the pointer of a handle in.
    fn put(&mut self, loose: Loose<ob_shared_connection::Transport, Global>)
        ensures { self.new.value ≡ Some loose.value }
    {
        let Loose { at, alloc: _ } = loose;
        self.at = at as *mut u8;
    }
}
