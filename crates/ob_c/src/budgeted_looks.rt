//! The looks at a connection that a budget covers. Each takes the struct as a command does, and
//! leaves the connection as it was.

ghost use Rattle.std.specs.Prelude.{◌≡◌, drop, length};
ghost use Rattle.ob_connection.specs.Connected.{Shows, IsFrontPromise, Tells as TellsOf};
ghost use Rattle.ob_c.specs.Budgets.{StandsWithin, covered_connection, standing_in_c};
ghost use Rattle.ob_c.specs.Calls.{Gathers};
ghost use Rattle.ob_c.specs.Looks.{Tells, IsLeft, current_in_c, front_in_c, look_in_c, promise_in_c};

use crate::budgeted::Budgeted;
use crate::gather::{Gathered, fill};
use crate::numbers::{DONE, NOT_OPEN};
use crate::pieces::Piece;
use crate::views::{Current, Front, Look, Promise};

/// How a connection that a budget covers stands.
#[repr(C)]
#[derive(Clone, Copy)]
pub struct Standing {
    /// 0, or why there is nothing to see.
    pub status: u32,
    /// Whether writers may go on.
    pub writable: bool,
    /// Whether a close was accepted.
    pub closed: bool,
    /// Whether no message is flushed and not yet removed, voided ones too.
    pub empty: bool,
    /// The bytes that its seat holds: at least those that are pending.
    pub held: u64,
}

impl Standing {
    /// How this connection stands.
    fn seen(budgeted: &ob_covered::Budgeted) -> Standing
        ensures { StandsWithin budgeted.now result }
    {
        let connection = budgeted.connection();
        Standing {
            status: DONE,
            writable: connection.is_writable(),
            closed: connection.is_closed(),
            empty: connection.is_empty(),
            held: budgeted.held(),
        }
    }

    /// What C gets for this.
    fn of(standing: Option<Standing>) -> Standing
        ensures { result ≡ standing_in_c standing }
    {
        match standing {
            None => Standing {
                status: NOT_OPEN,
                writable: false,
                closed: false,
                empty: false,
                held: 0,
            },
            Some(standing) => standing,
        }
    }
}

/// How the connection stands.
#[unsafe(no_mangle)]
pub extern "C" fn limekeel_budgeted_state(budgeted: &mut Budgeted) -> Standing
    ensures { Tells budgeted.old.value StandsWithin standing_in_c result budgeted.new.value }
{
    Standing::of(budgeted.with(|connection| Standing::seen(connection)))
}

/// What is pending now.
#[unsafe(no_mangle)]
pub extern "C" fn limekeel_budgeted_look(budgeted: &mut Budgeted) -> Look
    ensures { Tells budgeted.old.value (λ budgeted. Shows budgeted.connection) look_in_c result budgeted.new.value }
{
    Look::of(budgeted.with(|connection| connection.connection().look()))
}

/// What has become of a promise.
#[unsafe(no_mangle)]
pub extern "C" fn limekeel_budgeted_promise(budgeted: &mut Budgeted, id: u64) -> Promise
    ensures { Tells budgeted.old.value (λ budgeted. TellsOf budgeted.connection id) promise_in_c result budgeted.new.value }
{
    Promise::of(budgeted.with(|connection| connection.connection().promise(id)))
}

/// The promise of the first flushed message.
#[unsafe(no_mangle)]
pub extern "C" fn limekeel_budgeted_front(budgeted: &mut Budgeted) -> Front
    ensures { Tells budgeted.old.value (λ budgeted. IsFrontPromise budgeted.connection) front_in_c result budgeted.new.value }
{
    Front::of(budgeted.with(|connection| connection.connection().front()))
}

/// What is left to send of the first flushed message, as `limekeel_current`.
#[unsafe(no_mangle)]
pub extern "C" fn limekeel_budgeted_current(budgeted: &mut Budgeted) -> Current
    ensures { Tells budgeted.old.value (λ budgeted. IsLeft budgeted.connection) current_in_c result budgeted.new.value }
{
    match budgeted.with(|connection| Current::of(
        connection.connection().current(),
        connection.connection().look().current_progress,
    )) {
        None => Current::not_open(),
        Some(current) => current,
    }
}

/// Fills pieces with where the flushed blocks in front lie that hold a byte, as `limekeel_gather_pieces`.
#[unsafe(no_mangle)]
pub extern "C" fn limekeel_budgeted_gather_pieces(
    budgeted: &mut Budgeted,
    pieces: &mut [Piece],
    max_bytes: u32,
) -> Gathered
    ensures gathers { Gathers (covered_connection budgeted.old.value) (length pieces.old) max_bytes result pieces.new
        (covered_connection budgeted.new.value) }
    ensures same { budgeted.new.value ≡ budgeted.old.value }
    ensures rest { drop result.count pieces.new ≡ drop result.count pieces.old }
{
    if !budgeted.is_open() {
        return Gathered::not_open();
    }
    let covered: &ob_covered::Budgeted = budgeted.reach();
    fill(covered.connection(), pieces, max_bytes)
}
