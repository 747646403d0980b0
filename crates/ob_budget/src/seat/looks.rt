ghost use Rattle.std.specs.Prelude.{◌≡◌, ◌≤◌};
ghost use Rattle.ob_budget.specs.Calls.{HasLooked};
ghost use Rattle.ob_budget.specs.Account.{is_pressed, total_of};

use super::Seat;
use crate::budget::Budget;
use crate::pressure::Look;
use crate::word::look_of;

impl Seat {
    /// The bytes that all seats hold, and whether pressure stands, read in one load. What the seat holds stays.
    pub fn look(&mut self, budget: &Budget) -> Look
        requires { self.old.budget ≡ budget.now }
        ensures budget { self.new.budget ≡ self.old.budget }
        ensures looked { HasLooked self.old self.new }
        ensures total { result.total ≡ total_of self.new.account.last }
        ensures is_pressed { result.is_pressed ≡ is_pressed self.new.account.last }
    {
        self.read(budget);
        self.last_look()
    }

    /// What the seat's own last step has seen, with no step more.
    pub fn last_look(&self) -> Look
        ensures total { result.total ≡ total_of self.now.account.last }
        ensures is_pressed { result.is_pressed ≡ is_pressed self.now.account.last }
    {
        look_of(self.last)
    }

    /// The bytes that the seat holds.
    pub fn held(&self) -> u64
        ensures value { result ≡ self.now.account.held }
        ensures within { result ≤ self.now.budget.bounds.room }
    {
        self.held
    }

    /// How many seats it is for, itself included: each `split` and `halve` gives some away, and a `join` takes some in.
    pub fn seats(&self) -> u64
        ensures { result ≡ self.now.account.seats }
    {
        self.seats
    }
}
