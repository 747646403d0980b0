ghost use Rattle.std.specs.Prelude.{◌≡◌, ◌≤◌, ◌-◌, IfOk, IfErr};
ghost use Rattle.ob_budget.specs.Calls.{IsMoved, WasBusy};
ghost use Rattle.ob_budget.specs.Account.{lowered};

use super::{Seat, TRIES, pause_after};
use crate::budget::Budget;
use crate::fault::Busy;
use crate::pressure::Pressure;
use crate::word::{change_between, lowered};

impl Seat {
    /// Lowers what the seat holds by this amount of bytes, in one step.
    ///
    /// It is `Ended` if this step ended pressure, and else none. `Busy` comes if other seats came in between 65,536 times,
    /// and the seat holds what it held. A seat alone makes one exchange, and no load.
    pub fn lower(&mut self, budget: &Budget, amount: u64) -> Result<Option<Pressure>, Busy>
        requires budget { self.old.budget ≡ budget.now }
        requires held { amount ≤ self.old.account.held }
        ensures budget { self.new.budget ≡ self.old.budget }
        ensures held { IfOk result (λ _. self.new.account.held ≡ self.old.account.held - amount) }
        ensures lowered { IfOk result (λ told.
            IsMoved (λ found. lowered self.old.budget.bounds found amount) self.old told self.new) }
        ensures refused { IfErr result (λ _. WasBusy self.old self.new) }
    {
        self.is_sound();
        'tries: for turn in 0..TRIES {
            let last = self.last;
            let next = lowered(budget.bounds, last, amount);
            if self.exchange(budget, next) {
                return Ok(change_between(last, next));
            }
            pause_after(turn);
        }
        Err(Busy)
    }
}
