//! The opening of a managed connection, and its end: the struct that is freed.

ghost use Rattle.std.specs.Prelude.{◌≡◌, nat_eq};
ghost use Rattle.ob_c.specs.Calls.{IsLetGo};
ghost use Rattle.ob_c.specs.Managing.{OpensManaged, ShrinksManaged};
ghost use Rattle.ob_c.specs.Calls.{settings_for, settings_of};

use crate::managed::Managed;
use crate::numbers::{ALREADY_OPEN, DONE, EDGE, NO_MEMORY, NOT_OPEN};
use crate::settings::{Settings, settings_for};
use ob_lifecycle::{Limits, ManagedConnection};
use std::alloc::Global;

/// Opens a managed connection with nothing written, as `limekeel_open_for` opens one that is not: at most `most_pending` bytes
/// may be pending, and its peer has to take `least_bytes` in each window of `window` units of the caller's clock, which stands
/// at `now`. The statuses are those of `limekeel_open_for`.
#[unsafe(no_mangle)]
pub extern "C" fn limekeel_managed_open_for(
    alloc: Global,
    managed: &mut Managed,
    edge: u32,
    low: u32,
    high: u32,
    overhead: u32,
    unknown: u32,
    most_pending: u32,
    window: u64,
    least_bytes: u64,
    now: u64,
) -> u32
    ensures { OpensManaged managed.old.value (settings_for (nat_eq edge EDGE) (settings_of low high overhead unknown))
        (record { most_pending = most_pending; window = window; least_bytes = least_bytes }) now result managed.new.value }
{
    if managed.is_open() {
        return ALREADY_OPEN;
    }
    let Settings { marks, estimate } = match settings_for(edge, low, high, overhead, unknown) {
        Ok(settings) => settings,
        Err(status) => return status,
    };
    let limits = Limits {
        most_pending,
        window,
        least_bytes,
    };
    let opened = ManagedConnection::new(alloc, marks, estimate, limits, now);
    match Box::new(alloc, opened) {
        Ok(opened) => {
            managed.keep(opened);
            DONE
        }
        Err(_) => NO_MEMORY,
    }
}

/// Keeps memory for what waits and for no more, as `limekeel_shrink_to_fit`.
///
/// The status is 13 if there is no connection.
#[unsafe(no_mangle)]
pub extern "C" fn limekeel_managed_shrink_to_fit(managed: &mut Managed) -> u32
    ensures { ShrinksManaged managed.old.value result managed.new.value }
{
    if !managed.is_open() {
        return NOT_OPEN;
    }
    managed.reach().shrink_to_fit();
    DONE
}

/// Frees a managed connection and all that it holds; the struct holds none then.
///
/// The status is 13 if it held none.
#[unsafe(no_mangle)]
pub extern "C" fn limekeel_managed_free(alloc: Global, managed: &mut Managed) -> u32
    ensures { IsLetGo managed.old.value result managed.new.value }
{
    match managed.managed(alloc) {
        None => NOT_OPEN,
        Some(_) => DONE,
    }
}
