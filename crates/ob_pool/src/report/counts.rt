//! What the report counts, receipt by receipt.

ghost use Rattle.std.specs.Prelude.{◌≡◌, [], ◌∷◌};
ghost use Rattle.ob_pool.specs.Inside.{AreTrueIfFit, counts_as, counts_by, counts_in, counts_with, no_counts, plus};

use ob_history::Receipt;
use ob_types::{Command, Outcome, PromiseId};

/// The numbers that are counted receipt by receipt. One that would not fit stays the greatest: whose receipts are counted
/// need not know that those of a whole history fit.
#[derive(Clone, Copy, Debug, PartialEq, Eq)]
pub struct Counts {
    /// The accepted writes.
    pub writes: u64,
    /// The accepted flushes.
    pub flushes: u64,
    /// The accepted cancellations.
    pub cancels: u64,
    /// The accepted user bits.
    pub bits: u64,
    /// The commands of writers that were refused.
    pub refused: u64,
    /// The bytes that accepted removals took.
    pub taken: u64,
    /// The promises that succeeded.
    pub success: u64,
    /// The promises that failed.
    pub failed: u64,
    /// The promises that were cancelled.
    pub cancelled: u64,
}

impl Counts {
    /// Nothing is counted.
    pub fn zero() -> Counts
        ensures { result ≡ no_counts }
    {
        Counts {
            writes: 0,
            flushes: 0,
            cancels: 0,
            bits: 0,
            refused: 0,
            taken: 0,
            success: 0,
            failed: 0,
            cancelled: 0,
        }
    }

    /// Adds other numbers to these.
    pub fn add_all(&mut self, more: &Counts)
        ensures { AreTrueIfFit (plus self.old more.now) self.new }
    {
        self.writes = self.writes.saturating_add(more.writes);
        self.flushes = self.flushes.saturating_add(more.flushes);
        self.cancels = self.cancels.saturating_add(more.cancels);
        self.bits = self.bits.saturating_add(more.bits);
        self.refused = self.refused.saturating_add(more.refused);
        self.taken = self.taken.saturating_add(more.taken);
        self.success = self.success.saturating_add(more.success);
        self.failed = self.failed.saturating_add(more.failed);
        self.cancelled = self.cancelled.saturating_add(more.cancelled);
    }

    /// Counts one receipt more, of a history of *n* writers.
    pub fn add(&mut self, one: &Receipt, writers: u32)
        ensures { AreTrueIfFit (plus self.old (counts_in writers (one.now ∷ []))) self.new }
    {
        match &one.reply {
            Ok(reply) => {
                self.add_command(&one.command);
                self.add_settled(reply.settled.as_slice());
            }
            Err(_) => {
                if one.caller < writers {
                    self.refused = self.refused.saturating_add(1);
                }
            }
        }
    }

    /// Counts one accepted command more.
    fn add_command(&mut self, command: &Command)
        ensures { AreTrueIfFit (plus self.old (counts_by command.now)) self.new }
    {
        match command {
            Command::Write(_) => self.writes = self.writes.saturating_add(1),
            Command::Flush => self.flushes = self.flushes.saturating_add(1),
            Command::Cancel(_) => self.cancels = self.cancels.saturating_add(1),
            Command::UserBit(..) => self.bits = self.bits.saturating_add(1),
            Command::RemoveBytes(n) => self.taken = self.taken.saturating_add(*n),
            _ => {}
        }
    }

    /// Counts settlements by their outcomes.
    fn add_settled(&mut self, settled: &[(PromiseId, Outcome)])
        ensures { AreTrueIfFit (plus self.old (counts_with settled.now)) self.new }
    {
        for settlement in settled {
            self.add_outcome(settlement.1);
        }
    }

    /// Counts one outcome more.
    fn add_outcome(&mut self, outcome: Outcome)
        ensures { AreTrueIfFit (plus self.old (counts_as outcome)) self.new }
    {
        match outcome {
            Outcome::Success => self.success = self.success.saturating_add(1),
            Outcome::Failed(_) => self.failed = self.failed.saturating_add(1),
            Outcome::Cancelled => self.cancelled = self.cancelled.saturating_add(1),
        }
    }
}
