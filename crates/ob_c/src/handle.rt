//! What C holds of a connection.

ghost use Rattle.std.specs.Prelude.{◌≡◌, IsSome, is_some, Option, Some, None, option_map};
ghost use Rattle.std.specs.Fn.{FnOnceReturnsAtMut};
ghost use Rattle.std.specs.Borrow.{sem};
ghost use Rattle.ob_c.specs.Held.{held};
ghost use Rattle.ob_c.specs.Replies.{accepted};
ghost use Rattle.ob_c.specs.Calls.{Relays};
ghost use Rattle.ob_connection.specs.contracts.connection.Connection.{the_row as connection_row};
ghost use Rattle.ob_connection.specs.Connected.{Connected};

use crate::loose::Loose;
use crate::numbers::accepted;
use ob_connection::Connection;
use ob_types::Refusal;
use std::alloc::Global;
use std::marker::Model;
use std::ptr::null_mut;

/// A connection of C's, which makes it as `{0}`: none yet. Each export takes it by `&mut`, as it takes a `Block`.
#[repr(C)]
#[derive(Drop)]
pub struct Handle {
    at: *mut u8,
    ghost value: { Option Connected },
}

impl Model for Handle {
    ghost also_owns = { λ h. held connection_row h.at h.value };
}

// The connection behind it may go to another thread, and C gives a handle to one call at a time.
unsafe impl Send for Handle {}

impl Handle {
    ghost use Rattle.ob_c.specs.Reaching.{LendsConnection};

    /// Takes the connection out, if there is one.
    pub(crate) fn connection(&mut self, alloc: Global) -> Option<Box<Connection>>
        ensures taken { option_map (λ connection. connection.value) result ≡ self.old.value }
        ensures none { self.new.value ≡ None }
    {
        if !self.is_open() {
            return None;
        }
        Some(self.take(alloc).into_box())
    }

    /// Makes a call of the connection in its place, if there is one.
    pub(crate) fn with<T, F: FnOnce(&mut Connection) -> T>(&mut self, call: F) -> Option<T>
        requires { F.IsAlwaysCallable call }
        ensures { Relays self.old.value (λ old value after. FnOnceReturnsAtMut F.FnOnce call old value after) (λ told. told)
            result self.new.value }
    {
        if !self.is_open() {
            return None;
        }
        Some(call(self.reach()))
    }

    /// Gives the connection a command.
    pub(crate) fn command<T, F: FnOnce(&mut Connection) -> Result<T, Refusal>>(
        &mut self,
        call: F,
    ) -> Result<T, u32>
        requires { F.IsAlwaysCallable call }
        ensures { Relays self.old.value (λ old answer after. FnOnceReturnsAtMut F.FnOnce call old answer after) accepted
            result self.new.value }
    {
        accepted(self.with(call))
    }

    /// Puts a connection in.
    pub(crate) fn keep(&mut self, connection: Box<Connection>)
        ensures { self.new.value ≡ Some connection.value }
    {
        self.put(Loose::of(connection));
    }

    /// Whether it holds a connection.
    pub(crate) fn is_open(&mut self) -> bool
        ensures { (result ≡ is_some self.old.value) × (self.new ≡ self.old) }
    {
        !self.at.is_null()
    }

    /// The connection, in its place: the handle is not written.
    pub(crate) fn reach(&mut self) -> &mut Connection
        requires { IsSome self.old.value }
        ensures* writes_back { sem 𝓛 (LendsConnection self.entry result) }
        ensures value { self.old.value ≡ Some result.now }
    {
        unsafe { &mut *(self.at as *mut Connection) }
    }

    /// Takes the connection out as its pointer.
    fn take(&mut self, alloc: Global) -> Loose<Connection, Global>
        requires { IsSome self.old.value }
        ensures { (self.old.value ≡ Some result.value) × (self.new.value ≡ None) }
    {
        let at = self.at as *mut Connection;
        self.at = null_mut();
        Loose { at, alloc }
    }

    /// Puts the pointer of a connection in.
    fn put(&mut self, loose: Loose<Connection, Global>)
        ensures { self.new.value ≡ Some loose.value }
    {
        let Loose { at, alloc: _ } = loose;
        self.at = at as *mut u8;
    }
}
