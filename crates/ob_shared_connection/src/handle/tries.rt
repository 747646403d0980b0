//! The calls that are made if the lock is free. They wait for nobody, and wake nobody: each tells whom to wake.
ghost use Rattle.std.specs.Prelude.{◌≡◌, ◌≢◌, IfErr, IfOk, IfSome, None, OnErr};
ghost use Rattle.ob_shared_connection.specs.Calls.{IsCall, UnderLock, IsLook};
ghost use Rattle.ob_shared_connection.specs.Values.{MayGive, appointed, Waited};
ghost use Rattle.ob_shared_connection.specs.declared.bell.Waiter.TheVariants as waiter;

use crate::act::Act;
use crate::ask::Ask;
use crate::bell::Writers;
use crate::handle::Handle;
use crate::moment::Moment;
use crate::transport::Transport;
use crate::wakes::Wakes;

impl Handle {
    /// Makes the call of an act, one of `commands` or of `writes`, if the lock is free, as `try_act(Flush)`; else the act
    /// comes back, with the message of a write. Only the handle that sends makes one that takes flushed messages away.
    pub fn try_act<A: Act>(&mut self, act: A) -> Result<(Result<A::Answer, A::Fault>, Wakes), A>
        requires { MayGive self.old.sends (A.commands act) }
        ensures under { IfOk result (λ told. UnderLock self.old
            (λ before after. IsCall A.uncovered (A.does act) (A.commands act) before told.0 after) self.new) }
        ensures covered { IfOk result (λ told. IfErr told.0 (λ fault. A.uncovered fault → self.old.budget ≢ None)) }
        ensures busy { OnErr result (self.new ≡ self.old) }
        ensures back { IfErr result (λ again. again ≡ act) }
    {
        self.caller.try_call(act)
    }

    /// Takes one of `looks` if the lock is free; else what was asked comes back.
    pub fn try_ask<A: Ask>(&mut self, ask: A) -> Result<(A::Answer, Wakes), A>
        ensures under { IfOk result (λ told. UnderLock self.old (IsLook (A.shows ask) told.0) self.new) }
        ensures busy { OnErr result (self.new ≡ self.old) }
        ensures back { IfErr result (λ again. again ≡ ask) }
    {
        self.caller.try_look(ask)
    }

    /// Whether the connection is writable or closed, for a poll in place of a wait. If it is neither, it leaves word that a
    /// writer waits: once it is writable or closed, the next to let the lock go is told so by the `writers` of its `Wakes`,
    /// and has to have all polled again that wait. A call that wakes by itself keeps that to itself, so make all calls of a
    /// connection that is polled by those that tell. None if the lock is taken.
    pub fn try_wait_writable(&mut self) -> Option<(Moment, Wakes)>
        ensures waits { IfSome result (λ told. UnderLock self.old (Waited waiter.Writer told.0) self.new) }
        ensures busy { result ≡ None → self.new ≡ self.old }
    {
        self.caller.try_wait::<Writers>()
    }

    /// Takes the role of the transport over, as `take_over`. The handle comes back if the lock is taken, and if a handle has
    /// the role.
    pub fn try_take_over(self) -> Result<(Result<Transport, Handle>, Wakes), Handle>
        ensures sends { IfOk result (λ told. IfOk told.0 (λ transport.
            UnderLock self (λ before after. after ≡ appointed before) transport)) }
        ensures back { IfOk result (λ told. IfErr told.0 (λ handle.
            UnderLock self (λ before after. after ≡ before) handle)) }
        ensures busy { IfErr result (λ handle. handle ≡ self) }
    {
        let Handle { mut caller } = self;
        if !caller.try_lock() {
            return Err(Handle::new(caller));
        }
        let sends = caller.appoint();
        let wakes = caller.leave();
        if sends {
            Ok((Ok(Transport::new(caller)), wakes))
        } else {
            Ok((Err(Handle::new(caller)), wakes))
        }
    }

    /// Wakes whom a call has told.
    pub fn wake(&self, wakes: Wakes) {
        wakes.pay(&self.caller.shared);
    }
}
