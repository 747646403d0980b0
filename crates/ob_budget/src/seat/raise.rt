ghost use Rattle.std.specs.Prelude.{◌≡◌, ◌≤◌, ◌+◌, IfOk, IfErr, IsTrue, ◌↔◌};
ghost use Rattle.ob_budget.specs.Calls.{IsRaised, IsRefused};
ghost use Rattle.ob_budget.specs.Account.{total_of};

use super::{Seat, TRIES, pause_after};
use crate::budget::Budget;
use crate::fault::RaiseFault;
use crate::pressure::Pressure;
use crate::word::{change_between, raised, total_of};

impl Seat {
    /// Whether what the seat knows last leaves the room for this amount.
    fn has_room(&self, budget: &Budget, amount: u64) -> bool
        requires { self.now.budget ≡ budget.now }
        ensures { IsTrue result ↔ (total_of self.now.account.last + amount ≤ self.now.budget.bounds.room) }
    {
        amount <= budget.bounds.room() - total_of(self.last)
    }

    /// Raises what the seat holds by this amount of bytes, in one step, if the room is there for it.
    ///
    /// It is `Began` if this step began pressure, and else none. `Full` comes only if the room was not there for the amount
    /// at one moment while the call ran, and `Busy` if other seats came in between 65,536 times; at both the seat holds what
    /// it held. A seat alone makes one exchange, and no load.
    pub fn raise(&mut self, budget: &Budget, amount: u64) -> Result<Option<Pressure>, RaiseFault>
        requires { self.old.budget ≡ budget.now }
        ensures budget { self.new.budget ≡ self.old.budget }
        ensures held { IfOk result (λ _. self.new.account.held ≡ self.old.account.held + amount) }
        ensures raised { IfOk result (λ told. IsRaised amount self.old told self.new) }
        ensures refused { IfErr result (λ fault. IsRefused amount fault self.old self.new) }
    {
        self.is_sound();
        if !self.has_room(budget, amount) {
            self.read(budget);
        }
        'tries: for turn in 0..TRIES {
            if !self.has_room(budget, amount) {
                return Err(RaiseFault::Full);
            }
            let last = self.last;
            let next = raised(budget.bounds, last, amount);
            if self.exchange(budget, next) {
                return Ok(change_between(last, next));
            }
            pause_after(turn);
        }
        Err(RaiseFault::Busy)
    }
}
