//! The commands of a managed connection, each with whether the end is reached by it, and the calls of its life.

ghost use Rattle.ob_types.specs.Marks.{water_mark_of};
ghost use Rattle.ob_types.specs.declared.command.Command.TheVariants.{Flush, Progress, Cancel, UserBit};
ghost use Rattle.ob_types.specs.declared.command.Command.TheVariants.{Remove, RemoveWith, RemoveBytes, FailFlushed, Close};
ghost use Rattle.ob_types.specs.declared.promise.Outcome.TheVariants.{Success, Failed};
ghost use Rattle.ob_connection.specs.Obeying.{bit_reply, cancelled_reply, done_reply, flushed_reply, removed_reply};
ghost use Rattle.ob_lifecycle.specs.Events.{happens, giving_up_happens};
ghost use Rattle.ob_c.specs.Looks.{truth_in_c};
ghost use Rattle.ob_c.specs.Managing.{Finishes, ManagesFor, SetsMarksFor, Ticks};
ghost use Rattle.ob_c.specs.Managing.{told_cancelled_in_c, told_changed_in_c, told_done_in_c, told_flushed_in_c};
ghost use Rattle.ob_c.specs.Managing.{told_removed_in_c, told_taken_in_c};
ghost use Rattle.ob_c.specs.Calls.{GivesUpIfOpen, ObeysFrugally, Relays, Takes};

use crate::managed::Managed;
use crate::numbers::NOT_OPEN;
use crate::told::{ToldCancelled, ToldChanged, ToldDone, ToldFlushed, ToldRemoved, ToldTaken};
use crate::views::Truth;
use ob_types::{Cause, WaterMark};

/// Lets the transport have all that was written so far.
#[unsafe(no_mangle)]
pub extern "C" fn limekeel_managed_flush(managed: &mut Managed) -> ToldFlushed
    ensures { ManagesFor managed.old.value (ObeysFrugally Flush flushed_reply) (happens Flush)
        told_flushed_in_c result managed.new.value }
{
    ToldFlushed::of(managed.command(|connection| connection.flush()))
}

/// Adds *n* bytes to the progress of the first flushed message.
#[unsafe(no_mangle)]
pub extern "C" fn limekeel_managed_progress(managed: &mut Managed, n: u64) -> ToldDone
    ensures { ManagesFor managed.old.value (ObeysFrugally (Progress n) done_reply) (happens (Progress n))
        told_done_in_c result managed.new.value }
{
    ToldDone::of(managed.command(|connection| connection.progress(n)))
}

/// Takes a promise back.
#[unsafe(no_mangle)]
pub extern "C" fn limekeel_managed_cancel(managed: &mut Managed, id: u64) -> ToldCancelled
    ensures { ManagesFor managed.old.value (ObeysFrugally (Cancel (record { 0 = id })) (cancelled_reply id)) (happens (Cancel (record { 0 = id })))
        told_cancelled_in_c result managed.new.value }
{
    ToldCancelled::of(managed.command(|connection| connection.cancel(id)))
}

/// Sets the user bit of this index, or clears it if `writable` is set.
#[unsafe(no_mangle)]
pub extern "C" fn limekeel_managed_user_bit(
    managed: &mut Managed,
    index: u32,
    writable: bool,
) -> ToldChanged
    ensures { ManagesFor managed.old.value (ObeysFrugally (UserBit index writable) bit_reply) (happens (UserBit index writable))
        told_changed_in_c result managed.new.value }
{
    ToldChanged::of(managed.command(|connection| connection.user_bit(index, writable)))
}

/// Takes the first flushed message away, as sent.
#[unsafe(no_mangle)]
pub extern "C" fn limekeel_managed_remove(managed: &mut Managed) -> ToldRemoved
    ensures { ManagesFor managed.old.value (ObeysFrugally Remove removed_reply) (happens Remove)
        told_removed_in_c result managed.new.value }
{
    ToldRemoved::of(managed.command(|connection| connection.remove()))
}

/// Takes the first flushed message away, as failed for this cause.
#[unsafe(no_mangle)]
pub extern "C" fn limekeel_managed_remove_with(managed: &mut Managed, cause: u32) -> ToldRemoved
    ensures { ManagesFor managed.old.value (ObeysFrugally (RemoveWith (record { 0 = cause })) removed_reply) (happens (RemoveWith (record { 0 = cause })))
        told_removed_in_c result managed.new.value }
{
    ToldRemoved::of(managed.command(|connection| connection.remove_with(Cause(cause))))
}

/// Takes *n* bytes off the flushed blocks in front, as sent, and returns which messages it took away.
#[unsafe(no_mangle)]
pub extern "C" fn limekeel_managed_take_sent(managed: &mut Managed, n: u64) -> ToldTaken
    ensures { ManagesFor managed.old.value (Takes (RemoveBytes n) Success) (happens (RemoveBytes n))
        told_taken_in_c result managed.new.value }
{
    ToldTaken::of(managed.command(|connection| connection.take_sent(n)))
}

/// Takes all flushed messages away, as failed for this cause, and returns which they were.
#[unsafe(no_mangle)]
pub extern "C" fn limekeel_managed_fail_flushed(
    managed: &mut Managed,
    cause: u32,
    notify: bool,
) -> ToldTaken
    ensures { ManagesFor managed.old.value (Takes (FailFlushed (record { 0 = cause }) notify) (Failed (record { 0 = cause }))) (happens (FailFlushed (record { 0 = cause }) notify))
        told_taken_in_c result managed.new.value }
{
    ToldTaken::of(managed.command(|connection| connection.fail_flushed(Cause(cause), notify)))
}

/// Closes the connection for good: fails the messages that no flush has reached for this cause, and returns which they
/// were.
#[unsafe(no_mangle)]
pub extern "C" fn limekeel_managed_close(managed: &mut Managed, cause: u32) -> ToldTaken
    ensures { ManagesFor managed.old.value (Takes (Close (record { 0 = cause })) (Failed (record { 0 = cause }))) (happens (Close (record { 0 = cause })))
        told_taken_in_c result managed.new.value }
{
    ToldTaken::of(managed.command(|connection| connection.close(Cause(cause))))
}

/// Gives the connection up: fails all that is left for this cause, and returns which messages that were. After
/// `limekeel_managed_finish` it is what to do at a deadline.
#[unsafe(no_mangle)]
pub extern "C" fn limekeel_managed_give_up(managed: &mut Managed, cause: u32) -> ToldTaken
    ensures { ManagesFor managed.old.value (GivesUpIfOpen (record { 0 = cause })) (giving_up_happens (record { 0 = cause }))
        told_taken_in_c result managed.new.value }
{
    ToldTaken::of(managed.command(|connection| connection.give_up(Cause(cause))))
}

/// Sets the marks that are in force from now on.
#[unsafe(no_mangle)]
pub extern "C" fn limekeel_managed_set_marks(managed: &mut Managed, low: u32, high: u32) -> ToldDone
    ensures { SetsMarksFor managed.old.value (water_mark_of low high) result managed.new.value }
{
    if !managed.is_open() {
        return ToldDone {
            status: NOT_OPEN,
            finished: false,
        };
    }
    match WaterMark::new(low, high) {
        Ok(marks) => ToldDone::of(managed.command(|connection| connection.set_marks(marks))),
        Err(refusal) => ToldDone {
            status: u32::from(refusal.number()),
            finished: false,
        },
    }
}

/// Asks for the end: from now on no write is accepted, and everything else goes on. It returns whether the end is reached by
/// that, since nothing is left; else the call returns it by which the last is gone that was accepted.
#[unsafe(no_mangle)]
pub extern "C" fn limekeel_managed_finish(managed: &mut Managed) -> Truth
    ensures { Relays managed.old.value Finishes truth_in_c result managed.new.value }
{
    Truth::of(managed.with(|connection| connection.finish()))
}

/// Tells the time, and returns whether the peer is named as one that stalls.
#[unsafe(no_mangle)]
pub extern "C" fn limekeel_managed_tick(managed: &mut Managed, now: u64) -> Truth
    ensures { Relays managed.old.value (Ticks now) truth_in_c result managed.new.value }
{
    if !managed.is_open() {
        return Truth::of(None);
    }
    Truth::of(Some(managed.reach().tick(now)))
}
