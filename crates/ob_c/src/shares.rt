//! The handles of a shared connection: the first, which sends; others; and their end.

ghost use Rattle.std.specs.Prelude.{◌≡◌, None, nat_eq};
ghost use Rattle.ob_c.specs.Calls.{IsLetGo, settings_for, settings_of};
ghost use Rattle.ob_c.specs.Sharing.{KeepsAnother, MakesAnother, OpensShared};

use crate::numbers::{ALREADY_OPEN, DONE, EDGE, NO_MEMORY, NOT_OPEN};
use crate::settings::{Settings, settings_for};
use crate::shared::Shared;
use crate::transport::Transport;
use ob_shared_connection::{Ended, Handle, TooManyHandles};
use std::alloc::Global;

/// Opens a connection for several threads with nothing written, as `limekeel_open_for` opens one for one thread, and gives
/// its first handle, which sends. The statuses are those of `limekeel_open_for`.
#[unsafe(no_mangle)]
pub extern "C" fn limekeel_shared_open_for(
    alloc: Global,
    transport: &mut Transport,
    edge: u32,
    low: u32,
    high: u32,
    overhead: u32,
    unknown: u32,
) -> u32
    ensures { OpensShared transport.old.value (settings_for (nat_eq edge EDGE) (settings_of low high overhead unknown)) result
        transport.new.value }
{
    if transport.is_open() {
        return ALREADY_OPEN;
    }
    let Settings { marks, estimate } = match settings_for(edge, low, high, overhead, unknown) {
        Ok(settings) => settings,
        Err(status) => return status,
    };
    let Ok(first) = Handle::open(alloc, marks, estimate) else {
        return NO_MEMORY;
    };
    match Box::new(alloc, first.into_transport()) {
        Ok(first) => {
            transport.keep(first);
            DONE
        }
        Err(_) => NO_MEMORY,
    }
}

/// Another handle of the connection of the one that sends, for another thread. It takes no lock.
///
/// The status is 13 if there is no connection, then 14 if the second holds a handle; 12 if it is out of memory, or the
/// connection has had more handles than can be counted.
#[unsafe(no_mangle)]
pub extern "C" fn limekeel_transport_another(
    alloc: Global,
    transport: &mut Transport,
    second: &mut Shared,
) -> u32
    ensures { MakesAnother transport.old.value second.old.value result transport.new.value second.new.value }
{
    if !transport.is_open() {
        return NOT_OPEN;
    }
    if second.is_open() {
        return ALREADY_OPEN;
    }
    keep_another(alloc, transport.reach().another(), second)
}

/// Another handle of the connection of this one, as `limekeel_transport_another`.
#[unsafe(no_mangle)]
pub extern "C" fn limekeel_shared_another(
    alloc: Global,
    shared: &mut Shared,
    second: &mut Shared,
) -> u32
    ensures { MakesAnother shared.old.value second.old.value result shared.new.value second.new.value }
{
    if !shared.is_open() {
        return NOT_OPEN;
    }
    if second.is_open() {
        return ALREADY_OPEN;
    }
    keep_another(alloc, shared.reach().another(), second)
}

/// Lets a handle go, and with the last one of a connection all that it holds, of a budget too.
///
/// The status is 13 if it held none.
#[unsafe(no_mangle)]
pub extern "C" fn limekeel_shared_free(alloc: Global, shared: &mut Shared) -> u32
    ensures { IsLetGo shared.old.value result shared.new.value }
{
    match shared.handle(alloc) {
        None => NOT_OPEN,
        Some(handle) => {
            end(Box::into_inner(handle));
            DONE
        }
    }
}

/// Lets the handle that sends go, and with the last handle of a connection all that it holds, of a budget too.
///
/// The status is 13 if it held none.
#[unsafe(no_mangle)]
pub extern "C" fn limekeel_transport_free(alloc: Global, transport: &mut Transport) -> u32
    ensures { IsLetGo transport.old.value result transport.new.value }
{
    match transport.sender(alloc) {
        None => NOT_OPEN,
        Some(sender) => {
            end(Box::into_inner(sender).retire());
            DONE
        }
    }
}

/// Lets a handle go. The last one of a connection within a budget gives back what that held: nobody is told the turn of
/// pressure, so who wants to know it rests before.
fn end(handle: Handle) {
    let Ok(ended) = handle.finish() else {
        return;
    };
    let Ended {
        connection: _,
        cover,
        handles: _,
        is_left: _,
    } = ended;
    if let Some(mut cover) = cover {
        let _turn = cover.keep(0);
    }
}

/// Keeps a handle that was made in a second that holds none.
fn keep_another(alloc: Global, made: Result<Handle, TooManyHandles>, second: &mut Shared) -> u32
    requires { second.old.value ≡ None }
    ensures { KeepsAnother made result second.new.value }
{
    let Ok(other) = made else {
        return NO_MEMORY;
    };
    match Box::new(alloc, other) {
        Ok(other) => {
            second.keep(other);
            DONE
        }
        Err(_) => NO_MEMORY,
    }
}
