ghost use Rattle.std.specs.Prelude.{◌≡◌, ◌≤◌, []};
ghost use Rattle.ob_budget.specs.Bounds.{AreBounds};
ghost use Rattle.ob_budget.specs.Account.{first_account, SeatValue};
ghost use Rattle.ob_budget.specs.Ruled.{seat_of, IsSeat};

mod cut;
mod finish;
mod looks;
mod lower;
mod raise;
mod steps;

use crate::account::Account;
use atomic_table::Seat as TableSeat;
use std::hint::spin_loop;
use std::marker::Model;

/// How many seats the first one is for.
const MOST_SEATS: u64 = 1 << 62;

/// How many exchanges a call loses before it gives up.
const TRIES: u32 = 65536;

/// How often a seat pauses before it tries again: for some microseconds in all.
const PAUSES: u32 = 128;

/// Pauses after every second exchange that failed. The first expects what the seat's own last step left, and the second what
/// the first found; if that fails too, other seats are at it, and make several steps meanwhile, while the word stays with one
/// processor. What was found before a pause is old after it, so the next exchange finds it anew, and so on.
fn pause_after(turn: u32) {
    if turn & 1 == 1 {
        for _ in 0..PAUSES {
            spin_loop();
        }
    }
}

/// A seat at a budget: it holds an amount of bytes, which it is raised and lowered by. It may go to another thread.
///
/// A seat that is dropped keeps what it holds in the total for good, and `finish` is refused from then on.
#[derive(Drop)]
pub struct Seat {
    seat: TableSeat<(), Account>,
    held: u64,
    seats: u64,
    /// The word as its own last step left it: what it expects to find.
    last: u64,
}

impl Model for Seat {
    ghost Value = { SeatValue };

    ghost view = { seat_of };

    ghost invariant = { IsSeat };
}

impl Seat {
    /// The seat that a budget is opened with.
    pub(crate) fn first(seat: TableSeat<(), Account>) -> Seat
        requires first { seat.me ≡ (first_account seat.me.0.bounds, []) }
        requires bounds { AreBounds seat.me.0.bounds }
        ensures { result ≡ record {
          budget = record { table_id = seat.table_id; bounds = seat.me.0.bounds };
          account = seat.me.0;
        } }
    {
        Seat {
            seat,
            held: 0,
            seats: MOST_SEATS,
            last: 0,
        }
    }
}
