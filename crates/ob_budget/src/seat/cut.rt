ghost use Rattle.std.specs.Prelude.{◌≡◌, ◌<◌, ◌≤◌, ◌/◌, ◌+◌, IfOk, IsOk, IsErrAnd};
ghost use Rattle.ob_budget.specs.Calls.{IsJoined};
ghost use Rattle.ob_budget.specs.Account.{kept_account, given_account};

use super::Seat;
use crate::budget::Budget;
use crate::fault::OneSeat;
use std::marker::Brand;

impl Seat {
    /// A new seat, which holds nothing and is for this many of the seats that this one is for. At least one stays. What this
    /// one holds stays.
    pub fn give(&mut self, budget: &Budget, seats: u64) -> Seat
        requires budget { self.old.budget ≡ budget.now }
        requires given { 0 < seats }
        requires kept { seats < self.old.account.seats }
        ensures budget { (self.new.budget ≡ self.old.budget) × (result.budget ≡ self.old.budget) }
        ensures kept { self.new.account ≡ kept_account seats self.old.account }
        ensures given { result.account ≡ given_account seats self.old.account }
    {
        let seat = budget.divide_seat::<Brand>(&mut self.seat, seats);
        self.seats -= seats;
        Seat {
            seat,
            held: 0,
            seats,
            last: self.last,
        }
    }

    /// A new seat, which holds nothing and is for one alone. `OneSeat` comes exactly if this seat is for one alone, and
    /// leaves it as it was. What this one holds stays.
    pub fn split(&mut self, budget: &Budget) -> Result<Seat, OneSeat>
        requires { self.old.budget ≡ budget.now }
        ensures one_seat { self.old.account.seats ≤ 1 → IsErrAnd result (λ _. self.new ≡ self.old) }
        ensures split { 1 < self.old.account.seats → IsOk result }
        ensures budget { self.new.budget ≡ self.old.budget }
        ensures its_budget { IfOk result (λ seat. seat.budget ≡ self.old.budget) }
        ensures kept { IfOk result (λ _. self.new.account ≡ kept_account 1 self.old.account) }
        ensures given { IfOk result (λ seat. seat.account ≡ given_account 1 self.old.account) }
    {
        if self.seats <= 1 {
            return Err(OneSeat);
        }
        Ok(self.give(budget, 1))
    }

    /// A new seat, which holds nothing and is for half of the seats that this one is for, rounded down. `OneSeat` comes
    /// exactly if this seat is for one alone, and leaves it as it was. What this one holds stays.
    pub fn halve(&mut self, budget: &Budget) -> Result<Seat, OneSeat>
        requires { self.old.budget ≡ budget.now }
        ensures one_seat { self.old.account.seats ≤ 1 → IsErrAnd result (λ _. self.new ≡ self.old) }
        ensures halved { 1 < self.old.account.seats → IsOk result }
        ensures budget { self.new.budget ≡ self.old.budget }
        ensures its_budget { IfOk result (λ seat. seat.budget ≡ self.old.budget) }
        ensures kept { IfOk result (λ _. self.new.account ≡ kept_account (self.old.account.seats / 2) self.old.account) }
        ensures given { IfOk result (λ seat. seat.account ≡ given_account (self.old.account.seats / 2) self.old.account) }
    {
        if self.seats <= 1 {
            return Err(OneSeat);
        }
        Ok(self.give(budget, self.seats / 2))
    }

    /// Takes another seat in: what both hold, and the seats that both are for. It reads the word, in one load, so no two
    /// seats ever hold more than the room together.
    pub fn join(&mut self, budget: &Budget, other: Seat)
        requires budget { self.old.budget ≡ budget.now }
        requires other { other.budget ≡ budget.now }
        ensures budget { self.new.budget ≡ self.old.budget }
        ensures joined { IsJoined self.old other self.new }
        ensures held { self.new.account.held ≡ self.old.account.held + other.account.held }
        ensures fits { self.old.account.held + other.account.held ≤ self.old.budget.bounds.room }
    {
        let Seat {
            seat,
            held,
            seats,
            last: _,
        } = other;
        budget.merge_seats::<Brand>(&mut self.seat, seat);
        self.last = budget.load(&mut self.seat);
        self.held += held;
        self.seats += seats;
    }
}
