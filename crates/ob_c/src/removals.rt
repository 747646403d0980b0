//! The commands that take messages away.

ghost use Rattle.ob_types.specs.declared.command.Command.TheVariants.{Remove, RemoveWith, RemoveBytes, FailFlushed, Close};
ghost use Rattle.ob_types.specs.declared.promise.Outcome.TheVariants.{Success, Failed};
ghost use Rattle.ob_connection.specs.Obeying.{removed_reply};
ghost use Rattle.ob_c.specs.Calls.{Answers, GivesUpIfOpen, ObeysFrugallyFor, TakesFor};
ghost use Rattle.ob_c.specs.Replies.{removed_in_c, taken_in_c};

use crate::handle::Handle;
use crate::replies::{Removed, Taken};
use ob_types::Cause;

/// Takes the first flushed message away, as sent.
#[unsafe(no_mangle)]
pub extern "C" fn limekeel_remove(handle: &mut Handle) -> Removed
    ensures { ObeysFrugallyFor handle.old.value Remove removed_reply removed_in_c result handle.new.value }
{
    Removed::of(handle.command(|connection| connection.remove()))
}

/// Takes the first flushed message away, as failed for this cause.
#[unsafe(no_mangle)]
pub extern "C" fn limekeel_remove_with(handle: &mut Handle, cause: u32) -> Removed
    ensures { ObeysFrugallyFor handle.old.value (RemoveWith (record { 0 = cause })) removed_reply removed_in_c result
        handle.new.value }
{
    Removed::of(handle.command(|connection| connection.remove_with(Cause(cause))))
}

/// Takes *n* bytes off the flushed blocks in front, as sent, and returns which messages it took away.
#[unsafe(no_mangle)]
pub extern "C" fn limekeel_take_sent(handle: &mut Handle, n: u64) -> Taken
    ensures { TakesFor handle.old.value (RemoveBytes n) Success result handle.new.value }
{
    Taken::of(handle.command(|connection| connection.take_sent(n)))
}

/// Takes all flushed messages away, as failed for this cause, and returns which they were.
#[unsafe(no_mangle)]
pub extern "C" fn limekeel_fail_flushed(handle: &mut Handle, cause: u32, notify: bool) -> Taken
    ensures { TakesFor handle.old.value (FailFlushed (record { 0 = cause }) notify) (Failed (record { 0 = cause })) result
        handle.new.value }
{
    Taken::of(handle.command(|connection| connection.fail_flushed(Cause(cause), notify)))
}

/// Closes the connection for good: fails the messages that no flush has reached for this cause, and returns which they
/// were.
#[unsafe(no_mangle)]
pub extern "C" fn limekeel_close(handle: &mut Handle, cause: u32) -> Taken
    ensures { TakesFor handle.old.value (Close (record { 0 = cause })) (Failed (record { 0 = cause })) result handle.new.value }
{
    Taken::of(handle.command(|connection| connection.close(Cause(cause))))
}

/// Gives the connection up: fails what is flushed for this cause without notice, closes for it, and returns which messages
/// were pending. Nothing but a closed connection is refused.
#[unsafe(no_mangle)]
pub extern "C" fn limekeel_give_up(handle: &mut Handle, cause: u32) -> Taken
    ensures { Answers handle.old.value (GivesUpIfOpen (record { 0 = cause })) taken_in_c result handle.new.value }
{
    Taken::of(handle.command(|connection| connection.give_up(Cause(cause))))
}
