//! The budget is asked before a message is made.

ghost use Rattle.ob_covered.specs.Budgeted.{CoversAhead};

use super::Budgeted;
use crate::fault::Told;
use ob_budget::RaiseFault;

impl Budgeted {
    /// Lets the seat hold `bytes` beside what is pending, so that the next write is not refused for the budget if it counts
    /// no more, and takes nothing of it. It takes what the seat lacks, or the quantum, as a write does. Nothing is kept for
    /// long: each later call that lets the pending bytes stay or fall gives back what is spare above two quanta, down to
    /// one. Our own choice: Netty has no budget.
    ///
    /// The fault is that of a raise by what it lacked; then it holds what it held.
    pub fn cover_ahead(&mut self, bytes: u32) -> Told<Result<(), RaiseFault>>
        ensures { CoversAhead bytes self.old result self.new }
    {
        self.connection.stands_for_some_commands();
        let pending = u64::from(self.connection.look().total);
        match self.cover.take(pending + u64::from(bytes)) {
            Ok(pressure) => Told {
                answer: Ok(()),
                pressure,
            },
            Err(fault) => Told {
                answer: Err(fault),
                pressure: None,
            },
        }
    }
}
