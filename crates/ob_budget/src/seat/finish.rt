ghost use Rattle.std.specs.Prelude.{◌≡◌, ◌<◌, ◌≤◌, ◌+◌, IfOk, IsOk, IsErrAnd};
ghost use Rattle.ob_budget.specs.Account.{most_seats, standing};

use super::{MOST_SEATS, Seat};
use crate::budget::Budget;
use crate::fault::SeatsOut;
use crate::pressure::Look;
use crate::word::look_of;

impl Seat {
    /// Ends the budget, if the seat is for all seats: then the total is what it holds, and pressure was told to begin as
    /// often as to end, and once more if it stands.
    ///
    /// `SeatsOut` comes exactly if the seat is for fewer than all 2^62, and hands back both as they were.
    pub fn finish(self, budget: Budget) -> Result<Look, SeatsOut>
        requires { self.budget ≡ budget }
        ensures seats_out { self.account.seats < most_seats →
            IsErrAnd result (λ out. (out.seat ≡ self) × (out.budget ≡ budget)) }
        ensures all_in { most_seats ≤ self.account.seats → IsOk result }
        ensures total { IfOk result (λ look. look.total ≡ self.account.held) }
        ensures told { IfOk result (λ look. self.account.began ≡ self.account.ended + standing look.is_pressed) }
    {
        if self.seats < MOST_SEATS {
            return Err(SeatsOut { budget, seat: self });
        }
        let Seat { seat, .. } = self;
        Ok(look_of(budget.end(seat)))
    }
}
