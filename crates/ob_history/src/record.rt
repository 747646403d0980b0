ghost use Rattle.std.specs.Prelude.{◌≡◌, ◌≤◌, false, length, IsOk, IfOk};
ghost use Rattle.ob_types.specs.Limits.{inline_settlements};
ghost use Rattle.ob_types.specs.Traits.{writes_block};
ghost use Rattle.ob_seq.specs.Pending.{settled_by};
ghost use Rattle.ob_history.specs.History.{receipt_of};

use crate::answer;
use crate::receipt::{Receipt, copied};
use ob_types::{Command, Refusal, Reply};
use std::alloc::{AllocError, Global};

/// A call of a buffer, as a history keeps it.
#[derive(Debug, Drop)]
pub struct Record {
    /// How many records stand before it.
    pub place: u32,
    /// Who made the call, by a number that means something to the callers alone.
    pub caller: u32,
    /// What was asked.
    pub command: Command,
    /// What the buffer returned: a reply, or the refusal of a command that changed nothing.
    pub reply: Result<Reply, Refusal>,
}

impl Record {
    /// A receipt of the record, of which a written block shares its memory. It fails only if the allocator refused, or
    /// the block has more owners than can be counted, and never if the command writes no block and its reply settles at
    /// most four promises.
    pub fn receipt(&self) -> Result<Receipt, AllocError>
        ensures same { IfOk result (λ receipt. receipt ≡ receipt_of self.now) }
        ensures succeeds { writes_block self.now.command ≡ false → length (settled_by self.now.reply) ≤ inline_settlements
            → IsOk result }
    {
        copied(self.place, self.caller, &self.command, &self.reply)
    }

    /// The receipt of a record that settles no promise, with a copy of its command. It does not allocate.
    pub(crate) fn receipt_with(&self, alloc: Global, told: Command) -> Receipt
        requires told { told ≡ self.now.command }
        requires none { length (settled_by self.now.reply) ≡ 0 }
        ensures { result ≡ receipt_of self.now }
    {
        Receipt {
            place: self.place,
            caller: self.caller,
            command: told,
            reply: answer::copy_of_none(alloc, &self.reply),
        }
    }
}
