ghost use Rattle.ob_budget.specs.Ruled.{IsEnd, IsSeatOf};

use super::Budget;
use crate::account::Account;
use crate::rule::WORD;
use atomic_table::Seat;

impl Budget {
    /// Gives the memory back, and returns the word as it was.
    pub(crate) fn end(self, seat: Seat<(), Account>) -> u64
        requires { IsSeatOf self seat }
        ensures { IsEnd self.bounds seat result }
    {
        let Budget { table, bounds: _ } = self;
        let closed = table.close_with(seat);
        let word = closed.word(WORD);
        closed.free();
        word
    }
}
