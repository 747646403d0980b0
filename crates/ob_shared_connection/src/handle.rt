ghost use Rattle.std.specs.Prelude.{◌≡◌, ◌≤◌, true, IfErr, IfOk, IsOkUnless, None, OnErr, OnOk, Some};
ghost use Rattle.ob_types.specs.Limits.{greatest_overhead, greatest_unknown};
ghost use Rattle.ob_shared_connection.specs.Calls.{IsLock, UnderLock, IsAnother, IsButForShare, IsEnd, IsFirst};
ghost use Rattle.ob_shared_connection.specs.Calls.{IsJoined};
ghost use Rattle.ob_shared_connection.specs.Values.{IsGlance, IsMoment, is_due, commands_by, appointed, sharing};
ghost use Rattle.ob_shared_connection.specs.declared.bell.Waiter.TheVariants as waiter;

mod commands;
mod looks;
mod tries;
mod within;

use crate::bell::Writers;
use crate::caller::Caller;
use crate::ended::Ended;
use crate::glance::Glance;
use crate::guard::Guard;
use crate::moment::Moment;
use crate::not_opened::NotOpened;
use crate::patience::Patience;
use crate::transport::Transport;
use ob_covered::Cover;
use ob_types::{Estimate, Refusal, WaterMark};
use std::alloc::{AllocError, Global};
use std::marker::Model;
use std::sync::Wait;
use std::time::{Clock, Duration};
use thiserror::Error;

/// A connection has had more handles than can be counted: 2^64 - 1 ever, or 2^63 - 1 at a time.
#[derive(Clone, Copy, Debug, PartialEq, Eq, Error)]
#[error("the connection has had more handles than can be counted")]
pub struct TooManyHandles;

impl From<AllocError> for TooManyHandles {
    fn from(_error: AllocError) -> TooManyHandles {
        TooManyHandles
    }
}

/// One of the handles of a connection, for one thread. It may go to another thread, and lie beside handles of other
/// connections.
///
/// Of one connection there is one list of accepted calls, whatever the schedule: each call of each handle returns what
/// the sequential `Connection` returns after the calls before it, and the list is stored nowhere. Contracts see the
/// number of the handle, what was accepted from it, and the calls that it has seen.
///
/// Each call takes the lock and lets it go: it waits while another handle has it. It pauses for some microseconds and
/// tries again, six times; then it lets other threads run between tries, ten times; then it naps for 50 microseconds, a
/// hundred times; and then it sleeps until it is woken. The lock is never poisoned; that it is had in any order, or ever,
/// is not promised.
#[derive(Drop)]
pub struct Handle {
    caller: Caller,
}

impl Model for Handle {
    ghost use Rattle.ob_shared_connection.specs.Values.{HandleValue};
    ghost use Rattle.ob_shared_connection.specs.Steps.{IsFree, caller_handle};

    ghost Value = { HandleValue };

    ghost view = { λ handle. caller_handle handle.caller };

    ghost invariant = { λ handle. IsFree handle.caller };
}

impl Handle {
    ghost use Rattle.ob_shared_connection.specs.Steps.{IsFree, caller_handle};

    /// The first handle of a connection with nothing written, which is the one that sends. The overhead and the size of
    /// unknown messages are at most 65535 bytes. `NoMemory` comes only if the allocator refuses.
    pub fn open(alloc: Global, marks: WaterMark, estimate: Estimate) -> Result<Handle, Refusal>
        requires overhead { estimate.overhead ≤ greatest_overhead }
        requires unknown { estimate.unknown ≤ greatest_unknown }
        ensures first { IfOk result (λ handle. IsFirst (record { marks = marks; estimate = estimate }) handle) }
        ensures budget { IfOk result (λ handle. handle.budget ≡ None) }
        ensures no_memory { IsOkUnless result Refusal.NoMemory }
    {
        Ok(Handle::new(Caller::open(alloc, marks, estimate)?))
    }

    /// The first handle of a connection with nothing written, which is within the budget of this cover: at each moment
    /// what is pending of it is at most what the seat of the cover holds. The numbers and the refusal are those of
    /// `open`; the cover comes back then as it was, with all that its seat holds.
    ///
    /// `act_within` raises the seat for what it writes. Any other call leaves the seat as it is, since it has nowhere to
    /// tell a turn of pressure, and a write that the seat does not hold is refused as `Uncovered`. `Ended` gives the
    /// cover back: a connection whose last handle is dropped keeps what it held of the budget.
    pub fn open_within(
        alloc: Global,
        marks: WaterMark,
        estimate: Estimate,
        cover: Cover,
    ) -> Result<Handle, NotOpened>
        requires overhead { estimate.overhead ≤ greatest_overhead }
        requires unknown { estimate.unknown ≤ greatest_unknown }
        ensures first { IfOk result (λ handle. IsFirst (record { marks = marks; estimate = estimate }) handle) }
        ensures budget { IfOk result (λ handle. handle.budget ≡ Some cover.seat.budget) }
        ensures no_memory { IfErr result (λ not. not.why ≡ Refusal.NoMemory) }
        ensures back { IfErr result (λ not. not.cover ≡ cover) }
    {
        match Caller::open_within(alloc, marks, estimate, cover) {
            Ok(caller) => Ok(Handle::new(caller)),
            Err(cover) => Err(NotOpened {
                why: Refusal::NoMemory,
                cover,
            }),
        }
    }

    /// A handle of a caller that does not have the lock.
    pub(crate) fn new(caller: Caller) -> Handle
        requires { IsFree caller }
        ensures { result ≡ caller_handle caller }
    {
        Handle { caller }
    }

    /// Another handle of the same connection, for another thread: it has seen what this one has, and has made no call. It
    /// can be had at any time, waits for nobody and does not allocate.
    pub fn another(&mut self) -> Result<Handle, TooManyHandles>
        ensures other { IfOk result (λ other. IsAnother self.old other) }
        ensures shares { OnOk result (self.new ≡ sharing self.old) }
        ensures same { OnErr result (IsButForShare self.old self.new) }
    {
        Ok(Handle::new(self.caller.another()?))
    }

    /// The role of the transport, in a type of its own.
    pub fn into_transport(self) -> Transport
        requires { self.sends ≡ true }
        ensures { result ≡ self }
    {
        let Handle { caller } = self;
        Transport::new(caller)
    }

    /// Takes the role of the transport over once no handle has it: its transport was dropped, or gave it up by
    /// `Transport::retire`. Else the handle comes back. It takes the lock for that, and has seen all calls then.
    pub fn take_over<R: Wait>(self, rt: &R) -> Result<Transport, Handle>
        ensures sends { IfOk result (λ transport. UnderLock self (λ before after. after ≡ appointed before) transport) }
        ensures back { IfErr result (λ handle. UnderLock self (λ before after. after ≡ before) handle) }
    {
        let Handle { mut caller } = self;
        caller.lock(rt, Patience::Short);
        let sends = caller.appoint();
        caller.unlock();
        if sends {
            Ok(Transport::new(caller))
        } else {
            Err(Handle::new(caller))
        }
    }

    /// What was accepted from this handle are the calls of its number that it has seen, each once, in order. It does
    /// nothing.
    pub fn own_calls(&self)
        ensures { self.now.mine ≡ commands_by self.now.caller self.now.seen }
    {
        let _caller = &self.caller;
    }

    /// The word and the total after accepted calls that begin with all that this handle has seen: never older than its
    /// last call or glance, and perhaps older than another handle's newest call, or than those of one that has the lock
    /// still. One load: it takes no lock, waits for nobody and does not allocate. Our own: Netty's readers look at two
    /// fields, and race.
    pub fn glance(&mut self) -> Glance
        ensures { IsGlance self.old result self.new }
    {
        self.caller.glance()
    }

    /// Takes the lock, for several calls. It does not allocate.
    pub fn lock<R: Wait>(self, rt: &R) -> Guard
        ensures { IsLock self result }
    {
        let Handle { mut caller } = self;
        caller.lock(rt, Patience::Short);
        Guard::new(caller)
    }

    /// Takes the lock if it is free, and else gives the handle back, unchanged. It waits for nobody and does not allocate.
    pub fn try_lock(self) -> Result<Guard, Handle>
        ensures locks { IfOk result (λ guard. IsLock self guard) }
        ensures back { IfErr result (λ handle. handle ≡ self) }
    {
        let Handle { mut caller } = self;
        if caller.try_lock() {
            Ok(Guard::new(caller))
        } else {
            Err(Handle::new(caller))
        }
    }

    /// Takes the lock once the connection is writable or closed, and tells which: at that moment, under the lock. It sleeps
    /// meanwhile, without the lock. Whoever makes the connection writable, or closes it, wakes all who wait here.
    pub fn wait_writable<R: Wait>(self, rt: &R) -> (Guard, Moment)
        ensures locks { IsLock self result.0 }
        ensures finds { IsMoment waiter.Writer result.0 result.1 }
        ensures came { is_due result.1 ≡ true }
    {
        let Handle { mut caller } = self;
        let moment = caller.wait::<Writers, R>(rt);
        (Guard::new(caller), moment)
    }

    /// The same, but for no longer than `limit`: then the moment is `NotYet`. If the clock cannot be read, or would end
    /// before that, it looks once.
    pub fn wait_writable_within<R: Wait + Clock>(self, rt: &R, limit: Duration) -> (Guard, Moment)
        ensures locks { IsLock self result.0 }
        ensures finds { IsMoment waiter.Writer result.0 result.1 }
    {
        let Handle { mut caller } = self;
        let moment = caller.wait_within::<Writers, R>(rt, limit);
        (Guard::new(caller), moment)
    }

    /// Takes another handle of the same connection in, once its thread is done with it. It waits for nobody.
    pub fn join(&mut self, other: Handle)
        requires { other.connection ≡ self.old.connection }
        ensures { IsJoined self.old other self.new }
    {
        let Handle { caller } = other;
        self.caller.join(caller);
    }

    /// Ends the connection, if no other handle of it is left that was neither joined nor dropped; else the handle is
    /// given back.
    ///
    /// There is one list of all calls, which begins with what this handle had seen, and the connection is what they leave.
    /// If its share is the whole, since all others were joined, as many handles there ever were as it stands for, and as
    /// many calls as were accepted from those. The share of a handle that is dropped is lost.
    pub fn finish(self) -> Result<Ended, Handle>
        ensures ended { IfOk result (λ ended. IsEnd self ended) }
        ensures back { IfErr result (λ handle. handle ≡ self) }
    {
        let Handle { caller } = self;
        match caller.finish() {
            Ok(ended) => Ok(ended),
            Err(caller) => Err(Handle::new(caller)),
        }
    }
}
