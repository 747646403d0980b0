//! The opening of a connection that a budget covers, and its end: the seat is given back.

ghost use Rattle.std.specs.Prelude.{◌≡◌, ◌≤◌, None, [], nat_eq};
ghost use Rattle.ob_types.specs.Limits.{greatest_overhead, greatest_unknown};
ghost use Rattle.ob_connection.specs.Connected.{StandsFor};
ghost use Rattle.ob_covered.specs.Cover.{Tells as TellsTurn, HoldsAtMost};
ghost use Rattle.ob_c.specs.Budgets.{FreesWithin, KeepsWithin, OpensWithin};
ghost use Rattle.ob_c.specs.Calls.{settings_for, settings_of};

use crate::budget::Budget;
use crate::budgeted::Budgeted;
use crate::numbers::{ALREADY_OPEN, BUSY, DONE, EDGE, NO_MEMORY, NOT_OPEN};
use crate::pressed::{PressedDone, pressure_number};
use crate::settings::{Settings, settings_for};
use ob_budget::Pressure;
use ob_covered::{Cover, NoSeat};
use ob_types::{Estimate, WaterMark};
use std::alloc::Global;

/// Opens a connection with nothing written, as `limekeel_open_for` opens one, that this budget covers. It holds nothing of
/// the budget before its first write.
///
/// The statuses are those of `limekeel_open_for`, and then 13 if there is no budget; 12 also if this handle of the budget has
/// opened more connections than can be counted.
#[unsafe(no_mangle)]
pub extern "C" fn limekeel_open_within_for(
    alloc: Global,
    budgeted: &mut Budgeted,
    edge: u32,
    low: u32,
    high: u32,
    overhead: u32,
    unknown: u32,
    budget: &mut Budget,
) -> u32
    ensures { OpensWithin budgeted.old.value (settings_for (nat_eq edge EDGE) (settings_of low high overhead unknown))
        budget.old.value result budgeted.new.value budget.new.value }
{
    if budgeted.is_open() {
        return ALREADY_OPEN;
    }
    let Settings { marks, estimate } = match settings_for(edge, low, high, overhead, unknown) {
        Ok(settings) => settings,
        Err(status) => return status,
    };
    if !budget.is_open() {
        return NOT_OPEN;
    }
    keep_within(alloc, marks, estimate, budget.reach().split(), budgeted)
}

/// Opens a connection under a cover that was cut off, in a struct that holds none.
fn keep_within(
    alloc: Global,
    marks: WaterMark,
    estimate: Estimate,
    made: Result<Cover, NoSeat>,
    budgeted: &mut Budgeted,
) -> u32
    requires none { budgeted.old.value ≡ None }
    requires overhead { estimate.overhead ≤ greatest_overhead }
    requires unknown { estimate.unknown ≤ greatest_unknown }
    ensures { KeepsWithin (record { marks = marks; estimate = estimate }) made result budgeted.new.value }
{
    let Ok(cover) = made else {
        return NO_MEMORY;
    };
    let opened = ob_covered::Budgeted::new(alloc, marks, estimate, cover);
    match Box::new(alloc, opened) {
        Ok(opened) => {
            budgeted.keep(opened);
            DONE
        }
        Err(_) => NO_MEMORY,
    }
}

/// Frees a connection and all that is pending of it, and its seat gives back all that it holds; the struct holds none then.
///
/// The status is 13 if it held none, and 18 if other seats came in between 65,536 times: then what was pending is gone, and
/// the struct holds the seat with what it holds still, under a connection with nothing written. Free it again.
#[unsafe(no_mangle)]
pub extern "C" fn limekeel_budgeted_free(alloc: Global, budgeted: &mut Budgeted) -> PressedDone
    ensures { FreesWithin budgeted.old.value result budgeted.new.value }
{
    let Some((pressure, held)) = budgeted.with(|connection| emptied(alloc, connection)) else {
        return PressedDone {
            status: NOT_OPEN,
            pressure: 0,
        };
    };
    let pressure = u32::from(pressure_number(pressure));
    if held > 0 {
        return PressedDone {
            status: BUSY,
            pressure,
        };
    }
    drop(budgeted.budgeted(alloc));
    PressedDone {
        status: DONE,
        pressure,
    }
}

/// Lets what is pending go, and gives back what the seat holds. It returns the turn of pressure, and what is held still.
fn emptied(alloc: Global, connection: &mut ob_covered::Budgeted) -> (Option<Pressure>, u64)
    ensures told { TellsTurn connection.old.cover result.0 connection.new.cover }
    ensures given { HoldsAtMost 0 connection.old.cover connection.new.cover }
    ensures held { result.1 ≡ connection.new.cover.seat.account.held }
    ensures stands { StandsFor connection.new.connection [] }
{
    let marks = connection.connection().marks();
    let none = Estimate {
        overhead: 0,
        unknown: 0,
    };
    let pressure = connection.renew(alloc, marks, none);
    (pressure, connection.held())
}
