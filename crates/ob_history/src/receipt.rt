ghost use Rattle.std.specs.Prelude.{◌≡◌, ◌≤◌, false, length, IsOk, IfOk};
ghost use Rattle.ob_types.specs.Limits.{inline_settlements};
ghost use Rattle.ob_types.specs.Traits.{writes_block};
ghost use Rattle.ob_seq.specs.Pending.{settled_by};

use crate::answer;
use ob_types::{Command, Refusal, Reply};
use std::alloc::AllocError;

/// What the caller of a buffer is given for a call: the same as the record that stays in the history.
#[derive(Debug, Drop)]
pub struct Receipt {
    /// The place of the record.
    pub place: u32,
    /// Who made the call.
    pub caller: u32,
    /// What was asked.
    pub command: Command,
    /// What the buffer returned: a reply, or a refusal.
    pub reply: Result<Reply, Refusal>,
}

impl Receipt {
    /// The same receipt, of which a written block shares its memory. It fails only if the allocator refused, or the
    /// block has more owners than can be counted, and never if the command writes no block and its reply settles at
    /// most four promises.
    pub fn copy(&self) -> Result<Receipt, AllocError>
        ensures same { IfOk result (λ copy. copy ≡ self.now) }
        ensures succeeds { writes_block self.now.command ≡ false → length (settled_by self.now.reply) ≤ inline_settlements
            → IsOk result }
    {
        copied(self.place, self.caller, &self.command, &self.reply)
    }
}

/// A receipt with a copy of the command and of the reply. It fails only if it is out of memory.
pub fn copied(
    place: u32,
    caller: u32,
    command: &Command,
    reply: &Result<Reply, Refusal>,
) -> Result<Receipt, AllocError>
    ensures same { IfOk result (λ receipt.
        receipt ≡ record { place = place; caller = caller; command = command.now; reply = reply.now }) }
    ensures succeeds { writes_block command.now ≡ false → length (settled_by reply.now) ≤ inline_settlements → IsOk result }
{
    Ok(Receipt {
        place,
        caller,
        command: command.copy()?,
        reply: answer::copy(reply)?,
    })
}
