ghost use Rattle.std.specs.Prelude.{◌≡◌, ◌<◌, true, IfErr, IfOk, OnErr, OnOk};
ghost use Rattle.ob_seq.specs.Effect.{bytes_in};
ghost use Rattle.ob_shared_connection.specs.Calls.{IsLock, UnderLock, IsAnother, IsButForShare, Gathers, IsLook};
ghost use Rattle.ob_shared_connection.specs.Sending.{AreInFront};
ghost use Rattle.ob_shared_connection.specs.Values.{resigned, sharing, Waited, is_due};
ghost use Rattle.ob_shared_connection.specs.declared.bell.Waiter.TheVariants as waiter;

mod commands;
mod sending;
mod tries;
mod turns;
mod within;

use crate::bell::Work;
use crate::caller::Caller;
use crate::guard::Guard;
use crate::handle::{Handle, TooManyHandles};
use crate::looks;
use crate::moment::Moment;
use crate::patience::Patience;
use bytes::Bytes;
use ob_types::Refusal;
pub use sending::SendFault;
use std::marker::Model;
use std::sync::Wait;
use std::time::{Clock, Duration};

/// The one handle of a connection that sends: flushed messages, and bytes of them, are taken away through it alone. It may
/// go to another thread. Contracts see it as the handle that it is.
///
/// Each call takes the lock and lets it go, as a call of `Handle` does. A transport that is dropped gives its role up, as by
/// `retire`, and another handle can take it over. One that is lost as a guard or as a handle takes the role with it.
pub struct Transport {
    caller: Caller,
}

impl Model for Transport {
    ghost use Rattle.std.specs.Prelude.{◌≡◌, true};
    ghost use Rattle.ob_shared_connection.specs.Values.{HandleValue};
    ghost use Rattle.ob_shared_connection.specs.Steps.{IsFree, caller_handle};

    ghost Value = { HandleValue };

    ghost view = { λ transport. caller_handle transport.caller };

    ghost invariant = { λ transport. IsFree transport.caller × ((caller_handle transport.caller).sends ≡ true) };
}

impl Transport {
    ghost use Rattle.ob_shared_connection.specs.Steps.{IsFree, caller_handle};

    /// The transport of a caller that sends, and does not have the lock.
    pub(crate) fn new(caller: Caller) -> Transport
        requires free { IsFree caller }
        requires sends { (caller_handle caller).sends ≡ true }
        ensures { result ≡ caller_handle caller }
    {
        Transport { caller }
    }

    /// The handle that it is, which can be joined to another or finished.
    pub fn into_handle(self) -> Handle
        ensures handle { result ≡ self }
        ensures sends { result.sends ≡ true }
    {
        let Transport { caller } = self;
        Handle::new(caller)
    }

    /// Gives the role up, so that another handle can take it over (`Handle::take_over`). What is left is a handle that does
    /// not send. It takes no lock, waits for nobody and does not allocate.
    pub fn retire(self) -> Handle
        ensures { result ≡ resigned self }
    {
        let Transport { caller: mut sender } = self;
        sender.resign();
        Handle::new(sender)
    }

    /// A handle of the same connection, for another thread, as `Handle::another`.
    pub fn another(&mut self) -> Result<Handle, TooManyHandles>
        ensures other { IfOk result (λ other. IsAnother self.old other) }
        ensures shares { OnOk result (self.new ≡ sharing self.old) }
        ensures same { OnErr result (IsButForShare self.old self.new) }
    {
        Ok(Handle::new(self.caller.another()?))
    }

    /// Takes the lock, for several calls. `Guard::unlock_transport` gives the transport back. It does not allocate.
    pub fn lock<R: Wait>(self, rt: &R) -> Guard
        ensures locks { IsLock self result }
        ensures sends { result.handle.sends ≡ true }
    {
        let Transport { mut caller } = self;
        caller.lock(rt, Patience::Long);
        Guard::new(caller)
    }

    /// Takes the lock if it is free, and else gives the transport back, unchanged. It waits for nobody and does not
    /// allocate.
    pub fn try_lock(self) -> Result<Guard, Transport>
        ensures locks { IfOk result (λ guard. IsLock self guard) }
        ensures sends { IfOk result (λ guard. guard.handle.sends ≡ true) }
        ensures back { IfErr result (λ transport. transport ≡ self) }
    {
        let Transport { caller: mut sender } = self;
        if sender.try_lock() {
            Ok(Guard::new(sender))
        } else {
            Err(Transport::new(sender))
        }
    }

    /// The flushed blocks in front that can be sent at once, as `Connection::gather`. They share their memory with the
    /// connection, and the lock is let go by then: what was gathered stays in front until it is taken away here.
    pub fn gather<R: Wait>(
        &mut self,
        rt: &R,
        max_count: u32,
        max_bytes: u32,
    ) -> Result<Vec<Bytes>, Refusal>
        ensures gathers { UnderLock self.old
            (IsLook (Gathers (λ blocks. blocks.items) max_count max_bytes) result) self.new }
        ensures in_front { IfOk result (λ blocks.
            0 < bytes_in blocks.items → AreInFront self.new (bytes_in blocks.items)) }
    {
        self.caller.look(rt, looks::Gather(max_count, max_bytes))
    }

    /// Waits until a flushed message is there or the connection is closed, and tells which. It sleeps meanwhile. A message
    /// that is there stays there until it is taken away here.
    pub fn wait_for_work<R: Wait>(&mut self, rt: &R) -> Moment
        ensures waits { UnderLock self.old (Waited waiter.Sender result) self.new }
        ensures came { is_due result ≡ true }
    {
        let moment = self.caller.wait::<Work, R>(rt);
        self.caller.unlock();
        moment
    }

    /// The same, but for no longer than `limit`: then the moment is `NotYet`. If the clock cannot be read, or would end
    /// before that, it looks once.
    pub fn wait_for_work_within<R: Wait + Clock>(&mut self, rt: &R, limit: Duration) -> Moment
        ensures { UnderLock self.old (Waited waiter.Sender result) self.new }
    {
        let moment = self.caller.wait_within::<Work, R>(rt, limit);
        self.caller.unlock();
        moment
    }
}

impl Drop for Transport {
    fn drop(self) {
        let _handle = self.retire();
    }
}
