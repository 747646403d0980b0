ghost use Rattle.std.specs.Prelude.{◌≡◌, ◌≤◌, List, length, IsOk, IfOk};
ghost use Rattle.ob_types.specs.declared.command.Command.{Command};
ghost use Rattle.ob_seq.specs.Pending.{settled_by};
ghost use Rattle.ob_history.specs.Inside.{IsSmall, SettlesAtMost};
ghost use Rattle.ob_history.specs.History.{receipt_of};

use crate::answer;
use crate::receipt::Receipt;
use crate::record::Record;
use ob_seq::Buffer;
use ob_types::{Command, Spare};
use std::alloc::{AllocError, Global};

/// What a receipt needs, made ready before the command is given: the command once more, and memory for the settlements
/// of its reply.
#[derive(Drop)]
pub struct Copies {
    pub told: Command,
    pub spare: Spare,
}

impl Copies {
    /// What the receipt of a command to a buffer needs. It fails only if it is out of memory.
    pub fn new(alloc: Global, buffer: &Buffer, command: &Command) -> Result<Copies, AllocError>
        ensures told { IfOk result (λ copies. copies.told ≡ command.now) }
        ensures spare { IfOk result (λ copies. SettlesAtMost buffer.now command.now copies.spare) }
        ensures succeeds { (commands : List Command) → IsSmall buffer.now command.now commands → IsOk result }
    {
        Ok(Copies {
            spare: Spare::new(alloc, buffer.settles(command))?,
            told: command.copy()?,
        })
    }

    /// The receipt of a record of that command. It does not allocate.
    pub fn receipt(self, one: &Record) -> Receipt
        requires command { one.now.command ≡ self.told }
        requires few { length (settled_by one.now.reply) ≤ self.spare }
        ensures { result ≡ receipt_of one.now }
    {
        Receipt {
            place: one.place,
            caller: one.caller,
            command: self.told,
            reply: answer::copy_in(&one.reply, self.spare),
        }
    }
}
