//! Where the newest entry of a connection lies: callers have the processor bring what lies behind it, where the next message
//! comes to lie. The first word behind each handle says it once it was noted.

ghost use Rattle.ob_c.specs.Calls.{LeavesAsIs};

use crate::budgeted::Budgeted;
use crate::handle::Handle;
use crate::managed::Managed;
use crate::numbers::{DONE, NOT_OPEN};

/// Notes where the newest entry lies. It changes nothing else.
///
/// The status is 13 if the handle holds no connection.
#[unsafe(no_mangle)]
pub extern "C" fn limekeel_note_newest(handle: &mut Handle) -> u32
    ensures { LeavesAsIs handle.old.value result handle.new.value }
{
    if !handle.is_open() {
        return NOT_OPEN;
    }
    handle.reach().note_newest();
    DONE
}

/// The same of a managed connection.
#[unsafe(no_mangle)]
pub extern "C" fn limekeel_managed_note_newest(managed: &mut Managed) -> u32
    ensures { LeavesAsIs managed.old.value result managed.new.value }
{
    if !managed.is_open() {
        return NOT_OPEN;
    }
    managed.reach().note_newest();
    DONE
}

/// The same of a connection that a budget covers.
#[unsafe(no_mangle)]
pub extern "C" fn limekeel_budgeted_note_newest(budgeted: &mut Budgeted) -> u32
    ensures { LeavesAsIs budgeted.old.value result budgeted.new.value }
{
    if !budgeted.is_open() {
        return NOT_OPEN;
    }
    budgeted.reach().note_newest();
    DONE
}
