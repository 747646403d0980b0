//! The calls of a connection that end messages otherwise than as sent, each counted.

ghost use Rattle.std.specs.Prelude.{◌≡◌, ◌≤◌, length, IfOk, IfErr, OnOk, OnErr, IsErrOf, false, is_err};
ghost use Rattle.ob_types.specs.declared.command.Command.TheVariants.{Flush, RemoveWith, Cancel, FailFlushed, Close};
ghost use Rattle.ob_types.specs.declared.promise.Outcome.TheVariants.{Failed};
ghost use Rattle.ob_seq.specs.State.{closed_after};
ghost use Rattle.ob_connection.specs.Connected.{Gives, KeepsRoom, TakesNoRoom, room_in};
ghost use Rattle.ob_connection.specs.Obeying.{GivesUp, Obeys, IsNext, IsQuiet, flushed_reply, removed_reply, taken_reply};
ghost use Rattle.ob_connection.specs.Obeying.{cancelled_reply};
ghost use Rattle.ob_lifecycle.specs.Events.{Counts, CountsGivingUp, FitsSome, most_told, pending_after};

use crate::count::Count;
use crate::tally::Tally;
use ob_connection::{Connection, Flushed, Removed, Taken};
use ob_seq::Flushed as Messages;
use ob_types::{Cause, Refusal};

/// How many messages these are.
fn count_of(mut messages: Messages<'_>) -> u64
    requires { length messages ≤ most_told }
    ensures { result ≡ length messages.entry }
{
    let mut count = 0u64;
    while let Some(_message) = messages.next() {
        count += 1;
    }
    count
}

/// What is pending. It goes over the flushed messages.
pub fn pending_in(connection: &Connection) -> Count
    ensures { Gives connection.now pending_after result }
{
    connection.stands_for_some_commands();
    let look = connection.look();
    let flushed = count_of(connection.flushed());
    Count {
        messages: connection.waiting_count() - (look.size - flushed),
        bytes: u64::from(look.total),
    }
}

/// A flush. Without a cancellation since the last one it voids nothing.
#[inline(always)]
pub fn flush(connection: &mut Connection, tally: &mut Tally) -> Result<Flushed, Refusal>
    requires { FitsSome connection.old tally.old }
    ensures obeys { Obeys connection.old Flush flushed_reply result connection.new }
    ensures frugal { ¬ IsErrOf result Refusal.NoMemory }
    ensures room { KeepsRoom connection.old connection.new }
    ensures counts { Counts connection.old tally.old Flush result tally.new }
{
    if tally.cancels {
        return flush_cancelled(connection, tally);
    }
    connection.flush()
}

/// A flush that may void messages.
#[cold]
#[inline(never)]
fn flush_cancelled(connection: &mut Connection, tally: &mut Tally) -> Result<Flushed, Refusal>
    requires { FitsSome connection.old tally.old }
    ensures obeys { Obeys connection.old Flush flushed_reply result connection.new }
    ensures frugal { ¬ IsErrOf result Refusal.NoMemory }
    ensures room { KeepsRoom connection.old connection.new }
    ensures counts { Counts connection.old tally.old Flush result tally.new }
{
    let before = pending_in(connection);
    let answer = connection.flush();
    if answer.is_ok() {
        tally.void(before, pending_in(connection));
    }
    answer
}

/// A removal of the front as failed.
pub fn remove_with(
    connection: &mut Connection,
    tally: &mut Tally,
    cause: Cause,
) -> Result<Removed, Refusal>
    requires { FitsSome connection.old tally.old }
    ensures obeys { Obeys connection.old (RemoveWith cause) removed_reply result connection.new }
    ensures frugal { ¬ IsErrOf result Refusal.NoMemory }
    ensures room { TakesNoRoom connection.old connection.new }
    ensures counts { Counts connection.old tally.old (RemoveWith cause) result tally.new }
{
    let before = pending_in(connection);
    let answer = connection.remove_with(cause);
    if answer.is_ok() {
        tally.fail(before, pending_in(connection));
    }
    answer
}

/// A failing of all that is flushed.
pub fn fail_flushed(
    connection: &mut Connection,
    tally: &mut Tally,
    cause: Cause,
    notify: bool,
) -> Result<Taken, Refusal>
    requires { FitsSome connection.old tally.old }
    ensures obeys { Obeys connection.old (FailFlushed cause notify) taken_reply result connection.new }
    ensures next { IsNext connection.old (Failed cause) result connection.new }
    ensures quiet { notify ≡ false → IsQuiet result }
    ensures frugal { ¬ IsErrOf result Refusal.NoMemory }
    ensures room { TakesNoRoom connection.old connection.new }
    ensures counts { Counts connection.old tally.old (FailFlushed cause notify) result tally.new }
{
    let before = pending_in(connection);
    let answer = connection.fail_flushed(cause, notify);
    if answer.is_ok() {
        tally.fail(before, pending_in(connection));
    }
    answer
}

/// A close, which fails all that it finds.
pub fn close(connection: &mut Connection, tally: &mut Tally, cause: Cause) -> Result<Taken, Refusal>
    requires { FitsSome connection.old tally.old }
    ensures obeys { Obeys connection.old (Close cause) taken_reply result connection.new }
    ensures next { IsNext connection.old (Failed cause) result connection.new }
    ensures quiet { IsQuiet result }
    ensures frugal { ¬ IsErrOf result Refusal.NoMemory }
    ensures room { OnOk result (room_in connection.new ≡ 0) }
    ensures counts { Counts connection.old tally.old (Close cause) result tally.new }
{
    let before = pending_in(connection);
    let answer = connection.close(cause);
    if answer.is_ok() {
        tally.fail(before, pending_in(connection));
    }
    answer
}

/// A giving up, which fails all that is left.
pub fn give_up(
    connection: &mut Connection,
    tally: &mut Tally,
    cause: Cause,
) -> Result<Taken, Refusal>
    requires { FitsSome connection.old tally.old }
    ensures gives_up { IfOk result (λ taken. GivesUp connection.old cause taken connection.new) }
    ensures open { Gives connection.old closed_after (is_err result) }
    ensures refused { OnErr result (connection.new ≡ connection.old) }
    ensures closed { IfErr result (λ refusal. refusal ≡ Refusal.Closed) }
    ensures room { OnOk result (room_in connection.new ≡ 0) }
    ensures counts { CountsGivingUp connection.old tally.old cause result tally.new }
{
    let before = pending_in(connection);
    let answer = connection.give_up(cause);
    if answer.is_ok() {
        tally.fail(before, pending_in(connection));
    }
    answer
}

/// A cancellation: the next flush may void something.
pub fn cancel(connection: &mut Connection, tally: &mut Tally, id: u64) -> Result<bool, Refusal>
    ensures obeys { Obeys connection.old (Cancel (record { 0 = id })) (cancelled_reply id) result connection.new }
    ensures frugal { ¬ IsErrOf result Refusal.NoMemory }
    ensures room { KeepsRoom connection.old connection.new }
    ensures counts { Counts connection.old tally.old (Cancel (record { 0 = id })) result tally.new }
{
    let answer = connection.cancel(id);
    if answer.is_ok() {
        tally.cancels = true;
    }
    answer
}
