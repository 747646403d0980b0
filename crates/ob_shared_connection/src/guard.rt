ghost use Rattle.std.specs.Prelude.{◌≡◌, true};

mod commands;
mod looks;
mod within;

use crate::caller::Caller;
use crate::handle::Handle;
use crate::transport::Transport;
use crate::wakes::Wakes;
use std::marker::Model;

/// The connection in the hands of one handle, which has the lock until the guard is let go. Contracts see the connection,
/// and the handle, which has seen all accepted calls.
///
/// Hold it for the calls that belong together, and do nothing meanwhile that waits: all other handles wait for it. A
/// guard that is dropped lets the lock go too, and its handle with it.
#[must_use]
pub struct Guard {
    caller: Caller,
}

impl Model for Guard {
    ghost use Rattle.ob_shared_connection.specs.Values.{Held};
    ghost use Rattle.ob_shared_connection.specs.Steps.{IsHolder, caller_held};

    ghost Value = { Held };

    ghost view = { λ guard. caller_held guard.caller };

    ghost invariant = { λ guard. IsHolder guard.caller };
}

impl Guard {
    ghost use Rattle.ob_shared_connection.specs.Values.{IsLeft};
    ghost use Rattle.ob_shared_connection.specs.Steps.{IsHolder, caller_held};

    /// A guard of a caller that has the lock.
    pub(crate) fn new(caller: Caller) -> Guard
        requires { IsHolder caller }
        ensures { result ≡ caller_held caller }
    {
        Guard { caller }
    }

    /// Lets the lock go, and gives the handle back. It does not allocate.
    pub fn unlock(self) -> Handle
        ensures { result ≡ self.handle }
    {
        let Guard { mut caller } = self;
        caller.unlock();
        Handle::new(caller)
    }

    /// Lets the lock go, and gives the transport back whose guard it is. It does not allocate.
    pub fn unlock_transport(self) -> Transport
        requires { self.handle.sends ≡ true }
        ensures { result ≡ self.handle }
    {
        let Guard { caller: mut sender } = self;
        sender.unlock();
        Transport::new(sender)
    }

    /// Lets the lock go as `unlock`, and wakes nobody: it gives the handle back and tells whom to wake. It waits for nobody
    /// and does not allocate.
    pub fn leave(self) -> (Handle, Wakes)
        ensures { result.0 ≡ self.handle }
    {
        let Guard { mut caller } = self;
        let wakes = caller.leave();
        (Handle::new(caller), wakes)
    }

    /// The same for the guard of a transport, which it gives back.
    pub fn leave_transport(self) -> (Transport, Wakes)
        requires { self.handle.sends ≡ true }
        ensures { result.0 ≡ self.handle }
    {
        let Guard { caller: mut sender } = self;
        let wakes = sender.leave();
        (Transport::new(sender), wakes)
    }

    /// The connection is what all calls leave that the handle has seen. It does nothing.
    pub fn is_left(&self)
        ensures { IsLeft self.now }
    {
        let _caller = &self.caller;
    }
}

impl Drop for Guard {
    fn drop(self) {
        let _handle = self.unlock();
    }
}
