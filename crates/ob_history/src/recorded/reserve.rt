ghost use Rattle.ob_history.specs.History.{IsReservation};

use crate::recorded::Recorded;
use ob_types::Refusal;

impl Recorded {
    /// Reserves `count` calls: places in the history, and memory for their records. After `Ok` the next `count` calls
    /// do not allocate, but for writes and for commands that settle more than four promises.
    ///
    /// `HistoryFull` comes first, exactly if fewer places are left; `NoMemory` comes only if the allocator refused, and
    /// never if as many calls are reserved already. Then all is as it was.
    pub fn reserve(&mut self, count: u32) -> Result<(), Refusal>
        ensures { IsReservation self.old count result self.new }
    {
        let count = count as usize;
        if count > self.limit as usize - self.records.len() {
            return Err(Refusal::HistoryFull);
        }
        self.records.reserve(count)?;
        self.reserved = self.reserved.max(count);
        Ok(())
    }
}
