//! What C holds of a managed connection.

ghost use Rattle.std.specs.Prelude.{◌≡◌, IsSome, is_some, Option, Some, None, option_map};
ghost use Rattle.std.specs.Fn.{FnOnceReturnsAtMut};
ghost use Rattle.std.specs.Borrow.{sem};
ghost use Rattle.ob_c.specs.Held.{held};
ghost use Rattle.ob_c.specs.Managing.{reported, reported_write};
ghost use Rattle.ob_c.specs.Calls.{Relays};
ghost use Rattle.ob_lifecycle.specs.contracts.managed.ManagedConnection.{the_row as managed_row};
ghost use Rattle.ob_lifecycle.specs.Managed.{Managed as ManagedValue};

use crate::loose::Loose;
use crate::told::{reported, reported_write};
use ob_connection::Written;
use ob_lifecycle::{ManagedConnection, Told, WriteFault};
use ob_types::Refusal;
use std::alloc::Global;
use std::marker::Model;
use std::ptr::null_mut;

/// A managed connection of C's, which makes it as `{0}`: none yet.
#[repr(C)]
#[derive(Drop)]
pub struct Managed {
    at: *mut u8,
    ghost value: { Option ManagedValue },
}

impl Model for Managed {
    ghost also_owns = { λ h. held managed_row h.at h.value };
}

// The connection behind it may go to another thread, and C gives it to one call at a time.
unsafe impl Send for Managed {}

impl Managed {
    ghost use Rattle.ob_c.specs.Reaching.{LendsManaged};

    /// Takes the connection out, if there is one.
    pub(crate) fn managed(&mut self, alloc: Global) -> Option<Box<ManagedConnection>>
        ensures taken { option_map (λ managed. managed.value) result ≡ self.old.value }
        ensures none { self.new.value ≡ None }
    {
        if !self.is_open() {
            return None;
        }
        Some(self.take(alloc).into_box())
    }

    /// Makes a call of the connection in its place, if there is one.
    pub(crate) fn with<T, F: FnOnce(&mut ManagedConnection) -> T>(&mut self, call: F) -> Option<T>
        requires { F.IsAlwaysCallable call }
        ensures { Relays self.old.value (λ old value after. FnOnceReturnsAtMut F.FnOnce call old value after) (λ told. told)
            result self.new.value }
    {
        if !self.is_open() {
            return None;
        }
        Some(call(self.reach()))
    }

    /// Gives the connection a command, and returns what there is to report, and whether the end is reached by it.
    pub(crate) fn command<T, F: FnOnce(&mut ManagedConnection) -> Told<Result<T, Refusal>>>(
        &mut self,
        call: F,
    ) -> (Result<T, u32>, bool)
        requires { F.IsAlwaysCallable call }
        ensures { Relays self.old.value (λ old told after. FnOnceReturnsAtMut F.FnOnce call old told after) reported
            result self.new.value }
    {
        reported(self.with(call))
    }

    /// Writes to the connection, and returns what there is to report.
    pub(crate) fn write<F: FnOnce(&mut ManagedConnection) -> Result<Written, WriteFault>>(
        &mut self,
        call: F,
    ) -> Result<Written, u32>
        requires { F.IsAlwaysCallable call }
        ensures { Relays self.old.value (λ old written after. FnOnceReturnsAtMut F.FnOnce call old written after) reported_write
            result self.new.value }
    {
        reported_write(self.with(call))
    }

    /// Puts a connection in.
    pub(crate) fn keep(&mut self, managed: Box<ManagedConnection>)
        ensures { self.new.value ≡ Some managed.value }
    {
        self.put(Loose::of(managed));
    }

    /// Whether it holds a connection.
    pub(crate) fn is_open(&mut self) -> bool
        ensures { (result ≡ is_some self.old.value) × (self.new ≡ self.old) }
    {
        !self.at.is_null()
    }

    /// The connection, in its place: the struct is not written.
    pub(crate) fn reach(&mut self) -> &mut ManagedConnection
        requires { IsSome self.old.value }
        ensures* writes_back { sem 𝓛 (LendsManaged self.entry result) }
        ensures value { self.old.value ≡ Some result.now }
    {
        unsafe { &mut *(self.at as *mut ManagedConnection) }
    }

    /// Takes the connection out as its pointer.
    fn take(&mut self, alloc: Global) -> Loose<ManagedConnection, Global>
        requires { IsSome self.old.value }
        ensures { (self.old.value ≡ Some result.value) × (self.new.value ≡ None) }
    {
        let at = self.at as *mut ManagedConnection;
        self.at = null_mut();
        Loose { at, alloc }
    }

    /// Puts the pointer of a connection in.
    fn put(&mut self, loose: Loose<ManagedConnection, Global>)
        ensures { self.new.value ≡ Some loose.value }
    {
        let Loose { at, alloc: _ } = loose;
        self.at = at as *mut u8;
    }
}
