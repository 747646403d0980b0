//! The looks. Each takes the handle as a command does, and leaves the connection as it was.

ghost use Rattle.ob_seq.specs.State.{writable_after, closed_after, empty_after};
ghost use Rattle.ob_connection.specs.Connected.{Shows, IsFrontPromise, Tells as TellsOf};
ghost use Rattle.ob_connection.specs.Connected.{Gives};
ghost use Rattle.ob_c.specs.Looks.{Tells, AreCounted, AreInForce, IsLeft, counts_in_c, look_in_c, settings_in_c, truth_in_c, promise_in_c, front_in_c, current_in_c};

use crate::handle::Handle;
use crate::views::{Counts, Current, Front, Look, Promise, Settings, Truth};

/// What is pending now.
#[unsafe(no_mangle)]
pub extern "C" fn limekeel_look(handle: &mut Handle) -> Look
    ensures { Tells handle.old.value Shows look_in_c result handle.new.value }
{
    Look::of(handle.with(|connection| connection.look()))
}

/// How many messages no flush has reached, and how many wait.
#[unsafe(no_mangle)]
pub extern "C" fn limekeel_counts(handle: &mut Handle) -> Counts
    ensures { Tells handle.old.value AreCounted counts_in_c result handle.new.value }
{
    Counts::of(handle.with(|connection| (connection.unflushed_count(), connection.waiting_count())))
}

/// The marks in force, and the estimate of the opening.
#[unsafe(no_mangle)]
pub extern "C" fn limekeel_settings(handle: &mut Handle) -> Settings
    ensures { Tells handle.old.value AreInForce settings_in_c result handle.new.value }
{
    Settings::of(handle.with(|connection| (connection.marks(), connection.estimate())))
}

/// Whether writers may go on.
#[unsafe(no_mangle)]
pub extern "C" fn limekeel_is_writable(handle: &mut Handle) -> Truth
    ensures { Tells handle.old.value (λ connection. Gives connection writable_after) truth_in_c result handle.new.value }
{
    Truth::of(handle.with(|connection| connection.is_writable()))
}

/// Whether a close was accepted.
#[unsafe(no_mangle)]
pub extern "C" fn limekeel_is_closed(handle: &mut Handle) -> Truth
    ensures { Tells handle.old.value (λ connection. Gives connection closed_after) truth_in_c result handle.new.value }
{
    Truth::of(handle.with(|connection| connection.is_closed()))
}

/// Whether no message is flushed and not yet removed, voided ones too.
#[unsafe(no_mangle)]
pub extern "C" fn limekeel_is_empty(handle: &mut Handle) -> Truth
    ensures { Tells handle.old.value (λ connection. Gives connection empty_after) truth_in_c result handle.new.value }
{
    Truth::of(handle.with(|connection| connection.is_empty()))
}

/// What has become of a promise.
#[unsafe(no_mangle)]
pub extern "C" fn limekeel_promise(handle: &mut Handle, id: u64) -> Promise
    ensures { Tells handle.old.value (λ connection. TellsOf connection id) promise_in_c result handle.new.value }
{
    Promise::of(handle.with(|connection| connection.promise(id)))
}

/// The promise of the first flushed message.
#[unsafe(no_mangle)]
pub extern "C" fn limekeel_front(handle: &mut Handle) -> Front
    ensures { Tells handle.old.value IsFrontPromise front_in_c result handle.new.value }
{
    Front::of(handle.with(|connection| connection.front()))
}

/// What is left to send of the first flushed message: of a region its length less the progress that was told, and 0 if
/// that is more.
#[unsafe(no_mangle)]
pub extern "C" fn limekeel_current(handle: &mut Handle) -> Current
    ensures { Tells handle.old.value IsLeft current_in_c result handle.new.value }
{
    match handle.with(|connection| Current::of(
        connection.current(),
        connection.look().current_progress,
    )) {
        None => Current::not_open(),
        Some(current) => current,
    }
}
