//! The steps of a seat, with what its fields say kept in step.
ghost use Rattle.std.specs.Prelude.{◌≡◌, ◌≢◌, IsTrue, IsFalse};
ghost use Rattle.ob_budget.specs.Account.{after_loss, after_move};
ghost use Rattle.ob_budget.specs.Calls.{HasLooked};
ghost use Rattle.ob_budget.specs.Ruled.{MayMove, HasLost, IsSound};

use super::Seat;
use crate::budget::Budget;
use crate::word::total_of;

impl Seat {
    /// For the proof alone: what every seat keeps.
    pub(super) fn is_sound(&self)
        ensures { IsSound self.now }
    {
        let _held = self.held;
    }

    /// Reads the word.
    pub(super) fn read(&mut self, budget: &Budget)
        requires { self.old.budget ≡ budget.now }
        ensures { HasLooked self.old self.new }
    {
        self.last = budget.load(&mut self.seat);
    }

    /// Puts this word in the place of the one that the seat knows last, and says whether that stood still. If not, the seat
    /// knows the word that it found.
    pub(super) fn exchange(&mut self, budget: &Budget, next: u64) -> bool
        requires budget { self.old.budget ≡ budget.now }
        requires next { MayMove self.old.account next }
        ensures budget { self.new.budget ≡ self.old.budget }
        ensures won { IsTrue result → self.new.account ≡ after_move next self.old.account }
        ensures lost { IsFalse result → HasLost self.old.account self.new.account }
    {
        let last = self.last;
        let found = budget.exchange(&mut self.seat, last, next);
        if found == last {
            self.held = (self.held + total_of(next)) - total_of(last);
            self.last = next;
            return true;
        }
        self.last = found;
        false
    }
}
