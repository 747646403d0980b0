//! The commands of a connection that a budget covers, each with how pressure changed by it, and its rest.

ghost use Rattle.ob_types.specs.Marks.{water_mark_of};
ghost use Rattle.ob_types.specs.declared.command.Command.TheVariants.{Flush, Progress, Cancel, UserBit};
ghost use Rattle.ob_types.specs.declared.command.Command.TheVariants.{Remove, RemoveWith, RemoveBytes, FailFlushed, Close};
ghost use Rattle.ob_types.specs.declared.promise.Outcome.TheVariants.{Success, Failed};
ghost use Rattle.ob_connection.specs.Obeying.{bit_reply, cancelled_reply, done_reply, flushed_reply, removed_reply};
ghost use Rattle.ob_covered.specs.Budgeted.{CoversAhead};
ghost use Rattle.ob_c.specs.Budgets.{SettlesFor, SetsMarksWithin, Rests, covered_ahead_in_c, rested_in_c};
ghost use Rattle.ob_c.specs.Budgets.{pressed_cancelled_in_c, pressed_changed_in_c, pressed_done_in_c, pressed_flushed_in_c};
ghost use Rattle.ob_c.specs.Budgets.{pressed_removed_in_c, pressed_taken_in_c};
ghost use Rattle.ob_c.specs.Calls.{GivesUpIfOpen, ObeysFrugally, Relays, Takes};

use crate::budgeted::Budgeted;
use crate::numbers::NOT_OPEN;
use crate::pressed::{
    PressedCancelled, PressedChanged, PressedDone, PressedFlushed, PressedRemoved, PressedTaken,
};
use ob_budget::{Pressure, RaiseFault};
use ob_covered::Told;
use ob_types::{Cause, WaterMark};

/// Lets the transport have all that was written so far.
#[unsafe(no_mangle)]
pub extern "C" fn limekeel_budgeted_flush(budgeted: &mut Budgeted) -> PressedFlushed
    ensures { SettlesFor budgeted.old.value (ObeysFrugally Flush flushed_reply)
        pressed_flushed_in_c result budgeted.new.value }
{
    PressedFlushed::of(budgeted.command(|connection| connection.flush()))
}

/// Adds *n* bytes to the progress of the first flushed message.
#[unsafe(no_mangle)]
pub extern "C" fn limekeel_budgeted_progress(budgeted: &mut Budgeted, n: u64) -> PressedDone
    ensures { SettlesFor budgeted.old.value (ObeysFrugally (Progress n) done_reply)
        pressed_done_in_c result budgeted.new.value }
{
    PressedDone::of(budgeted.command(|connection| connection.progress(n)))
}

/// Takes a promise back.
#[unsafe(no_mangle)]
pub extern "C" fn limekeel_budgeted_cancel(budgeted: &mut Budgeted, id: u64) -> PressedCancelled
    ensures { SettlesFor budgeted.old.value (ObeysFrugally (Cancel (record { 0 = id })) (cancelled_reply id))
        pressed_cancelled_in_c result budgeted.new.value }
{
    PressedCancelled::of(budgeted.command(|connection| connection.cancel(id)))
}

/// Sets the user bit of this index, or clears it if `writable` is set.
#[unsafe(no_mangle)]
pub extern "C" fn limekeel_budgeted_user_bit(
    budgeted: &mut Budgeted,
    index: u32,
    writable: bool,
) -> PressedChanged
    ensures { SettlesFor budgeted.old.value (ObeysFrugally (UserBit index writable) bit_reply)
        pressed_changed_in_c result budgeted.new.value }
{
    PressedChanged::of(budgeted.command(|connection| connection.user_bit(index, writable)))
}

/// Takes the first flushed message away, as sent.
#[unsafe(no_mangle)]
pub extern "C" fn limekeel_budgeted_remove(budgeted: &mut Budgeted) -> PressedRemoved
    ensures { SettlesFor budgeted.old.value (ObeysFrugally Remove removed_reply)
        pressed_removed_in_c result budgeted.new.value }
{
    PressedRemoved::of(budgeted.command(|connection| connection.remove()))
}

/// Takes the first flushed message away, as failed for this cause.
#[unsafe(no_mangle)]
pub extern "C" fn limekeel_budgeted_remove_with(
    budgeted: &mut Budgeted,
    cause: u32,
) -> PressedRemoved
    ensures { SettlesFor budgeted.old.value (ObeysFrugally (RemoveWith (record { 0 = cause })) removed_reply)
        pressed_removed_in_c result budgeted.new.value }
{
    PressedRemoved::of(budgeted.command(|connection| connection.remove_with(Cause(cause))))
}

/// Takes *n* bytes off the flushed blocks in front, as sent, and returns which messages it took away.
#[unsafe(no_mangle)]
pub extern "C" fn limekeel_budgeted_take_sent(budgeted: &mut Budgeted, n: u64) -> PressedTaken
    ensures { SettlesFor budgeted.old.value (Takes (RemoveBytes n) Success)
        pressed_taken_in_c result budgeted.new.value }
{
    PressedTaken::of(budgeted.command(|connection| connection.take_sent(n)))
}

/// Takes all flushed messages away, as failed for this cause, and returns which they were.
#[unsafe(no_mangle)]
pub extern "C" fn limekeel_budgeted_fail_flushed(
    budgeted: &mut Budgeted,
    cause: u32,
    notify: bool,
) -> PressedTaken
    ensures { SettlesFor budgeted.old.value (Takes (FailFlushed (record { 0 = cause }) notify) (Failed (record { 0 = cause })))
        pressed_taken_in_c result budgeted.new.value }
{
    PressedTaken::of(budgeted.command(|connection| connection.fail_flushed(Cause(cause), notify)))
}

/// Closes the connection for good: fails the messages that no flush has reached for this cause, and returns which they
/// were.
#[unsafe(no_mangle)]
pub extern "C" fn limekeel_budgeted_close(budgeted: &mut Budgeted, cause: u32) -> PressedTaken
    ensures { SettlesFor budgeted.old.value (Takes (Close (record { 0 = cause })) (Failed (record { 0 = cause })))
        pressed_taken_in_c result budgeted.new.value }
{
    PressedTaken::of(budgeted.command(|connection| connection.close(Cause(cause))))
}

/// Gives the connection up: fails all that is left for this cause, and returns which messages that were.
#[unsafe(no_mangle)]
pub extern "C" fn limekeel_budgeted_give_up(budgeted: &mut Budgeted, cause: u32) -> PressedTaken
    ensures { SettlesFor budgeted.old.value (GivesUpIfOpen (record { 0 = cause }))
        pressed_taken_in_c result budgeted.new.value }
{
    PressedTaken::of(budgeted.command(|connection| connection.give_up(Cause(cause))))
}

/// Sets the marks that are in force from now on.
#[unsafe(no_mangle)]
pub extern "C" fn limekeel_budgeted_set_marks(
    budgeted: &mut Budgeted,
    low: u32,
    high: u32,
) -> PressedDone
    ensures { SetsMarksWithin budgeted.old.value (water_mark_of low high) result budgeted.new.value }
{
    if !budgeted.is_open() {
        return PressedDone {
            status: NOT_OPEN,
            pressure: 0,
        };
    }
    match WaterMark::new(low, high) {
        Ok(marks) => PressedDone::of(budgeted.command(|connection| connection.set_marks(marks))),
        Err(refusal) => PressedDone {
            status: u32::from(refusal.number()),
            pressure: 0,
        },
    }
}

/// Lets the seat hold `bytes` beside what is pending, so that a write which counts no more is not refused for the budget.
///
/// The status is 13 if there is no connection, 21 if the budget has no room for them, and 18 if other seats came in between
/// 65,536 times.
#[unsafe(no_mangle)]
pub extern "C" fn limekeel_budgeted_cover(budgeted: &mut Budgeted, bytes: u32) -> PressedDone
    ensures { Relays budgeted.old.value (CoversAhead bytes) covered_ahead_in_c result budgeted.new.value }
{
    PressedDone::covered_ahead(budgeted.with(|connection| cover_ahead(connection, bytes)))
}

/// Asks for cover of this many bytes beside what is pending.
#[inline(always)]
fn cover_ahead(connection: &mut ob_covered::Budgeted, bytes: u32) -> Told<Result<(), RaiseFault>>
    ensures { CoversAhead bytes connection.old result connection.new }
{
    connection.cover_ahead(bytes)
}

/// Gives back all that the seat holds above what is pending, unless other seats come in between 65,536 times: for a
/// connection that is idle.
#[unsafe(no_mangle)]
pub extern "C" fn limekeel_budgeted_rest(budgeted: &mut Budgeted) -> PressedDone
    ensures { Relays budgeted.old.value Rests rested_in_c result budgeted.new.value }
{
    PressedDone::rested(budgeted.with(|connection| rest(connection)))
}

/// Gives back what the seat holds above what is pending.
#[inline(always)]
fn rest(connection: &mut ob_covered::Budgeted) -> Option<Pressure>
    ensures { Rests connection.old result connection.new }
{
    connection.rest()
}
