//! How a budget is opened as a cover, and covers that are cut off one, for connections and for other threads.

ghost use Rattle.std.specs.Prelude.{◌≡◌, ◌≤◌, ◌<◌, ◌/◌, IfOk, IsErr, OnErr};
ghost use Rattle.ob_budget.specs.Calls.{HasLooked};
ghost use Rattle.ob_budget.specs.Account.{is_pressed, total_of};
ghost use Rattle.ob_covered.specs.Cover.{IsFirst, left_of, given_by};

use super::Cover;
use crate::fault::NoSeat;
use ob_budget::{Bounds, Budget, Look};
use std::alloc::{AllocError, Global};
use std::sync::Arc;

/// Which part of its seats a cover gives to one for another thread: a thousand threads leave it more than a third.
const SHARE: u64 = 1024;

impl Cover {
    /// A budget with these bounds, as a cover that is for all of its seats and holds nothing. The quantum is in bytes; each
    /// cover that is cut off this one has it too. An `AllocError` comes only if the allocator refuses; no other call of a
    /// cover allocates.
    pub fn open(alloc: Global, bounds: Bounds, quantum: u64) -> Result<Cover, AllocError>
        ensures { IfOk result (λ cover. IsFirst bounds quantum cover) }
    {
        let (budget, seat) = Budget::open(alloc, bounds)?;
        match Arc::new(alloc, budget) {
            Ok(budget) => Ok(Cover::new(budget, seat, quantum)),
            Err(_) => Err(AllocError),
        }
    }

    /// A cover for a connection: its seat is for one alone, and holds nothing.
    ///
    /// `NoSeat` comes if this one's is for one alone, or if the budget has 2^63 - 1 covers; then this one is as it was. What
    /// this one holds stays.
    pub fn split(&mut self) -> Result<Cover, NoSeat>
        ensures given { IfOk result (λ cover. cover ≡ given_by 1 self.old) }
        ensures kept { IfOk result (λ _. self.new ≡ left_of 1 self.old) }
        ensures refused { OnErr result (self.new ≡ self.old) }
        ensures one_seat { self.old.seat.account.seats ≤ 1 → IsErr result }
    {
        let Ok(budget) = Arc::try_clone(&self.budget) else {
            return Err(NoSeat);
        };
        match self.seat.split(&budget) {
            Ok(seat) => Ok(Cover::new(budget, seat, self.quantum)),
            Err(_) => Err(NoSeat),
        }
    }

    /// A cover for another thread, which holds nothing: its seat is for a 1024th of the seats that this one's is for,
    /// rounded down.
    ///
    /// `NoSeat` comes if this one's is for fewer than 1024, or if the budget has 2^63 - 1 covers; then this one is as it
    /// was. What this one holds stays.
    pub fn share(&mut self) -> Result<Cover, NoSeat>
        ensures given { IfOk result (λ cover. cover ≡ given_by (self.old.seat.account.seats / 1024) self.old) }
        ensures kept { IfOk result (λ _. self.new ≡ left_of (self.old.seat.account.seats / 1024) self.old) }
        ensures refused { OnErr result (self.new ≡ self.old) }
        ensures few { self.old.seat.account.seats < 1024 → IsErr result }
    {
        let seats = self.seat.seats() / SHARE;
        if seats == 0 {
            return Err(NoSeat);
        }
        let Ok(budget) = Arc::try_clone(&self.budget) else {
            return Err(NoSeat);
        };
        let seat = self.seat.give(&budget, seats);
        Ok(Cover::new(budget, seat, self.quantum))
    }

    /// The bytes that all seats of the budget hold, and whether pressure stands, read in one load by its own seat.
    pub fn look(&mut self) -> Look
        ensures looked { HasLooked self.old.seat self.new.seat }
        ensures quantum { self.new.quantum ≡ self.old.quantum }
        ensures total { result.total ≡ total_of self.new.seat.account.last }
        ensures is_pressed { result.is_pressed ≡ is_pressed self.new.seat.account.last }
    {
        self.seat.look(&self.budget)
    }
}
