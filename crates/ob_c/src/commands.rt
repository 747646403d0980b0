//! The commands that take nothing away.

ghost use Rattle.ob_types.specs.Marks.{water_mark_of};
ghost use Rattle.ob_types.specs.declared.command.Command.TheVariants.{Flush, Progress, Cancel, UserBit};
ghost use Rattle.ob_connection.specs.Obeying.{flushed_reply, done_reply, cancelled_reply, bit_reply};
ghost use Rattle.ob_c.specs.Replies.{status_in_c};
ghost use Rattle.ob_c.specs.Calls.{ObeysFrugallyFor, SetsMarks};
ghost use Rattle.ob_c.specs.Replies.{flushed_in_c, cancelled_in_c, changed_in_c};

use crate::handle::Handle;
use crate::numbers::status_of;
use crate::replies::{Cancelled, Changed, Flushed};
use ob_types::WaterMark;

/// Lets the transport have all that was written so far.
#[unsafe(no_mangle)]
pub extern "C" fn limekeel_flush(handle: &mut Handle) -> Flushed
    ensures { ObeysFrugallyFor handle.old.value Flush flushed_reply flushed_in_c result handle.new.value }
{
    Flushed::of(handle.command(|connection| connection.flush()))
}

/// Adds *n* bytes to the progress of the first flushed message.
#[unsafe(no_mangle)]
pub extern "C" fn limekeel_progress(handle: &mut Handle, n: u64) -> u32
    ensures { ObeysFrugallyFor handle.old.value (Progress n) done_reply status_in_c result handle.new.value }
{
    status_of(handle.command(|connection| connection.progress(n)))
}

/// Takes a promise back.
#[unsafe(no_mangle)]
pub extern "C" fn limekeel_cancel(handle: &mut Handle, id: u64) -> Cancelled
    ensures { ObeysFrugallyFor handle.old.value (Cancel (record { 0 = id })) (cancelled_reply id) cancelled_in_c result
        handle.new.value }
{
    Cancelled::of(handle.command(|connection| connection.cancel(id)))
}

/// Sets the user bit of this index, or clears it if `writable` is set.
#[unsafe(no_mangle)]
pub extern "C" fn limekeel_user_bit(handle: &mut Handle, index: u32, writable: bool) -> Changed
    ensures { ObeysFrugallyFor handle.old.value (UserBit index writable) bit_reply changed_in_c result handle.new.value }
{
    Changed::of(handle.command(|connection| connection.user_bit(index, writable)))
}

/// Sets the marks that are in force from now on.
#[unsafe(no_mangle)]
pub extern "C" fn limekeel_set_marks(handle: &mut Handle, low: u32, high: u32) -> u32
    ensures { SetsMarks handle.old.value (water_mark_of low high) result handle.new.value }
{
    status_of(handle.command(|connection| match WaterMark::new(low, high) {
        Ok(marks) => connection.set_marks(marks),
        Err(refusal) => Err(refusal),
    }))
}
