//! The opening of a connection, the memory that it gives back, and its end: the handle that is freed.

ghost use Rattle.std.specs.Prelude.{◌≡◌, ◌≤◌, IfOk, OnErr, [], nat_eq};
ghost use Rattle.ob_types.specs.Limits.{greatest_overhead, greatest_unknown};
ghost use Rattle.ob_connection.specs.Connected.{StandsFor};
ghost use Rattle.ob_c.specs.Calls.{IsLetGo, Opens, ShrinksFor, settings_for, settings_of};

use crate::handle::Handle;
use crate::numbers::{ALREADY_OPEN, DONE, EDGE, NO_MEMORY, NOT_OPEN};
use crate::settings::{Settings, settings_for};
use ob_connection::Connection;
use std::alloc::Global;

/// Opens a connection with nothing written, for a caller that was compiled for this edge. The marks, the overhead of a message and the size of a message that is
/// neither a block nor a region are in bytes.
///
/// The status is 14 if the handle holds a connection, then 17 for another edge, 2 for bad marks, 15 for a bad estimate and 12
/// if it is out of memory.
#[unsafe(no_mangle)]
pub extern "C" fn limekeel_open_for(
    alloc: Global,
    handle: &mut Handle,
    edge: u32,
    low: u32,
    high: u32,
    overhead: u32,
    unknown: u32,
) -> u32
    ensures { Opens handle.old.value (settings_for (nat_eq edge EDGE) (settings_of low high overhead unknown)) result
        handle.new.value }
{
    if handle.is_open() {
        return ALREADY_OPEN;
    }
    let Settings { marks, estimate } = match settings_for(edge, low, high, overhead, unknown) {
        Ok(settings) => settings,
        Err(status) => return status,
    };
    let connection = Connection::new(alloc, marks, estimate);
    match Box::new(alloc, connection) {
        Ok(connection) => {
            handle.keep(connection);
            DONE
        }
        Err(_) => NO_MEMORY,
    }
}

/// Keeps memory for what waits and for no more. If a smaller block is refused, the connection keeps the one that it has.
///
/// The status is 13 if the handle holds no connection.
#[unsafe(no_mangle)]
pub extern "C" fn limekeel_shrink_to_fit(handle: &mut Handle) -> u32
    ensures { ShrinksFor handle.old.value result handle.new.value }
{
    match handle.with(|connection| connection.shrink_to_fit()) {
        None => NOT_OPEN,
        Some(()) => DONE,
    }
}

/// Frees a connection and all that it holds; the handle holds none then.
///
/// The status is 13 if it held none.
#[unsafe(no_mangle)]
pub extern "C" fn limekeel_free(alloc: Global, handle: &mut Handle) -> u32
    ensures { IsLetGo handle.old.value result handle.new.value }
{
    match handle.connection(alloc) {
        None => NOT_OPEN,
        Some(_) => DONE,
    }
}
