//! A budget for the memory of all connections: its first handle, others for other threads, looks at it, and their end.

ghost use Rattle.std.specs.Prelude.{◌≡◌, IfOk, None, nat_eq};
ghost use Rattle.ob_budget.specs.Bounds.{bounds_of};
ghost use Rattle.ob_c.specs.Calls.{IsLetGo};
ghost use Rattle.ob_c.specs.Budgets.{KeepsShare, OpensBudget, SeesBudget, Shares, bounds_for, budget_told_in_c};
ghost use Rattle.ob_c.specs.Calls.{Relays};

use crate::budget::Budget;
use crate::budgeted::Budgeted;
use crate::numbers::{ALREADY_OPEN, BAD_BOUNDS, DONE, EDGE, NO_MEMORY, NOT_OPEN, OTHER_VERSION};
use ob_budget::{Bounds, Look};
use ob_covered::{Cover, NoSeat};
use std::alloc::Global;

/// What a look at a budget returns.
#[repr(C)]
#[derive(Clone, Copy)]
pub struct BudgetTold {
    /// 0, or why there is nothing to see.
    pub status: u32,
    /// Whether pressure stands.
    pub is_pressed: bool,
    /// The bytes that all connections hold.
    pub total: u64,
}

impl BudgetTold {
    /// What C gets for this look.
    fn of(look: Option<Look>) -> BudgetTold
        ensures { result ≡ budget_told_in_c look }
    {
        match look {
            None => BudgetTold {
                status: NOT_OPEN,
                is_pressed: false,
                total: 0,
            },
            Some(look) => BudgetTold {
                status: DONE,
                is_pressed: look.is_pressed,
                total: look.total,
            },
        }
    }
}

/// Opens a budget of which nothing is held, for a caller that was compiled for this edge, and gives its first handle. The
/// room, the marks of pressure and the quantum of a connection are in bytes.
///
/// The status is 14 if the handle holds a budget, then 17 for another edge, 22 if the low mark is above the high mark or the
/// room above 2^62 - 1, and 12 if it is out of memory.
#[unsafe(no_mangle)]
pub extern "C" fn limekeel_budget_open_for(
    alloc: Global,
    budget: &mut Budget,
    edge: u32,
    room: u64,
    low: u64,
    high: u64,
    quantum: u64,
) -> u32
    ensures { OpensBudget budget.old.value (bounds_for (nat_eq edge EDGE) (bounds_of room low high)) quantum result
        budget.new.value }
{
    if budget.is_open() {
        return ALREADY_OPEN;
    }
    if edge != EDGE {
        return OTHER_VERSION;
    }
    let Ok(bounds) = Bounds::new(room, low, high) else {
        return BAD_BOUNDS;
    };
    let Ok(cover) = Cover::open(alloc, bounds, quantum) else {
        return NO_MEMORY;
    };
    match Box::new(alloc, cover) {
        Ok(cover) => {
            budget.keep(cover);
            DONE
        }
        Err(_) => NO_MEMORY,
    }
}

/// Another handle of the budget of this one, for another thread.
///
/// The status is 13 if there is no budget, then 14 if the second holds one; 12 if it is out of memory, or the budget has had
/// more handles than can be counted.
#[unsafe(no_mangle)]
pub extern "C" fn limekeel_budget_share(
    alloc: Global,
    budget: &mut Budget,
    second: &mut Budget,
) -> u32
    ensures { Shares budget.old.value second.old.value result budget.new.value second.new.value }
{
    if !budget.is_open() {
        return NOT_OPEN;
    }
    if second.is_open() {
        return ALREADY_OPEN;
    }
    keep_share(alloc, budget.reach().share(), second)
}

/// The bytes that all connections hold, and whether pressure stands, read in one load.
#[unsafe(no_mangle)]
pub extern "C" fn limekeel_budget_look(budget: &mut Budget) -> BudgetTold
    ensures { Relays budget.old.value SeesBudget budget_told_in_c result budget.new.value }
{
    if !budget.is_open() {
        return BudgetTold::of(None);
    }
    BudgetTold::of(Some(budget.reach().look()))
}

/// Lets a handle go, and with the last handle and the last connection of a budget its memory.
///
/// The status is 13 if it held none.
#[unsafe(no_mangle)]
pub extern "C" fn limekeel_budget_free(alloc: Global, budget: &mut Budget) -> u32
    ensures { IsLetGo budget.old.value result budget.new.value }
{
    match budget.cover(alloc) {
        None => NOT_OPEN,
        Some(_) => DONE,
    }
}

/// The bytes that all connections of the budget of this one hold, and whether pressure stands, read in one load.
#[unsafe(no_mangle)]
pub extern "C" fn limekeel_budgeted_look_at_budget(budgeted: &mut Budgeted) -> BudgetTold
    ensures { Relays budgeted.old.value (λ old look after. (after.connection ≡ old.connection) × SeesBudget old.cover look after.cover)
        budget_told_in_c result budgeted.new.value }
{
    BudgetTold::of(budgeted.with(|connection| connection.look_at_budget()))
}

/// Keeps a cover that was shared in a second handle that holds none.
fn keep_share(alloc: Global, made: Result<Cover, NoSeat>, second: &mut Budget) -> u32
    requires { second.old.value ≡ None }
    ensures { KeepsShare made result second.new.value }
{
    let Ok(other) = made else {
        return NO_MEMORY;
    };
    match Box::new(alloc, other) {
        Ok(other) => {
            second.keep(other);
            DONE
        }
        Err(_) => NO_MEMORY,
    }
}
