//! What C holds of a connection that a budget covers.

ghost use Rattle.std.specs.Prelude.{◌≡◌, IsSome, is_some, Option, Some, None, option_map};
ghost use Rattle.std.specs.Fn.{FnOnceReturnsAtMut};
ghost use Rattle.std.specs.Borrow.{sem};
ghost use Rattle.ob_c.specs.Budgets.{command_told, write_told};
ghost use Rattle.ob_c.specs.Held.{held};
ghost use Rattle.ob_c.specs.Calls.{Relays};
ghost use Rattle.ob_covered.specs.Budgeted.{BudgetedValue};
ghost use Rattle.ob_covered.specs.contracts.budgeted.Budgeted.{the_row as covered_row};

use crate::loose::Loose;
use crate::pressed::{command_told, write_told};
use ob_connection::Written;
use ob_covered::{Told, WriteFault};
use ob_types::Refusal;
use std::alloc::Global;
use std::marker::Model;
use std::ptr::null_mut;

/// A connection of C's that a budget covers, which C makes as `{0}`: none yet.
#[repr(C)]
#[derive(Drop)]
pub struct Budgeted {
    at: *mut u8,
    ghost value: { Option BudgetedValue },
}

impl Model for Budgeted {
    ghost also_owns = { λ h. held covered_row h.at h.value };
}

// The connection behind it may go to another thread, and C gives it to one call at a time.
unsafe impl Send for Budgeted {}

impl Budgeted {
    ghost use Rattle.ob_c.specs.Reaching.{LendsBudgeted};

    /// Takes the connection out, if there is one.
    pub(crate) fn budgeted(&mut self, alloc: Global) -> Option<Box<ob_covered::Budgeted>>
        ensures taken { option_map (λ budgeted. budgeted.value) result ≡ self.old.value }
        ensures none { self.new.value ≡ None }
    {
        if !self.is_open() {
            return None;
        }
        Some(self.take(alloc).into_box())
    }

    /// Makes a call of the connection in its place, if there is one.
    pub(crate) fn with<T, F: FnOnce(&mut ob_covered::Budgeted) -> T>(
        &mut self,
        call: F,
    ) -> Option<T>
        requires { F.IsAlwaysCallable call }
        ensures { Relays self.old.value (λ old value after. FnOnceReturnsAtMut F.FnOnce call old value after) (λ told. told)
            result self.new.value }
    {
        if !self.is_open() {
            return None;
        }
        Some(call(self.reach()))
    }

    /// Gives the connection a command, and returns what there is to report, and the number of the turn of pressure.
    pub(crate) fn command<T, F: FnOnce(&mut ob_covered::Budgeted) -> Told<Result<T, Refusal>>>(
        &mut self,
        call: F,
    ) -> (Result<T, u32>, u16)
        requires { F.IsAlwaysCallable call }
        ensures { Relays self.old.value (λ old told after. FnOnceReturnsAtMut F.FnOnce call old told after) command_told
            result self.new.value }
    {
        command_told(self.with(call))
    }

    /// Writes to the connection, and returns what there is to report, and the number of the turn of pressure.
    pub(crate) fn write<F: FnOnce(&mut ob_covered::Budgeted) -> Told<Result<Written, WriteFault>>>(
        &mut self,
        call: F,
    ) -> (Result<Written, u32>, u16)
        requires { F.IsAlwaysCallable call }
        ensures { Relays self.old.value (λ old told after. FnOnceReturnsAtMut F.FnOnce call old told after) write_told
            result self.new.value }
    {
        write_told(self.with(call))
    }

    /// Puts a connection in.
    pub(crate) fn keep(&mut self, budgeted: Box<ob_covered::Budgeted>)
        ensures { self.new.value ≡ Some budgeted.value }
    {
        self.put(Loose::of(budgeted));
    }

    /// Whether it holds a connection.
    pub(crate) fn is_open(&mut self) -> bool
        ensures { (result ≡ is_some self.old.value) × (self.new ≡ self.old) }
    {
        !self.at.is_null()
    }

    /// The connection, in its place: the struct is not written.
    pub(crate) fn reach(&mut self) -> &mut ob_covered::Budgeted
        requires { IsSome self.old.value }
        ensures* writes_back { sem 𝓛 (LendsBudgeted self.entry result) }
        ensures value { self.old.value ≡ Some result.now }
    {
        unsafe { &mut *(self.at as *mut ob_covered::Budgeted) }
    }

    /// Takes the connection out as its pointer.
    fn take(&mut self, alloc: Global) -> Loose<ob_covered::Budgeted, Global>
        requires { IsSome self.old.value }
        ensures { (self.old.value ≡ Some result.value) × (self.new.value ≡ None) }
    {
        let at = self.at as *mut ob_covered::Budgeted;
        self.at = null_mut();
        Loose { at, alloc }
    }

    /// Puts the pointer of a connection in.
    fn put(&mut self, loose: Loose<ob_covered::Budgeted, Global>)
        ensures { self.new.value ≡ Some loose.value }
    {
        let Loose { at, alloc: _ } = loose;
        self.at = at as *mut u8;
    }
}
