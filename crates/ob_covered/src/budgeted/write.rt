ghost use Rattle.std.specs.Prelude.{◌≡◌, ◌+◌, ℕ, true, IfOk, IfErr, IsErr, OnOk};
ghost use Rattle.ob_types.specs.PendingSize.{counted_bytes, is_oversize};
ghost use Rattle.ob_types.specs.declared.command.Command.TheVariants.{Write};
ghost use Rattle.ob_seq.specs.Unsent.{room_for_one_more};
ghost use Rattle.ob_seq.specs.State.{closed_after};
ghost use Rattle.ob_connection.specs.Connected.{room_in, Gives};
ghost use Rattle.ob_connection.specs.Obeying.{Obeys, written_reply};
ghost use Rattle.ob_covered.specs.Budgeted.{IsPending, WritesWithin, accepted};
ghost use Rattle.ob_covered.specs.Inside.{IsNotPut};

use super::Budgeted;
use crate::fault::{NotWritten, Told, WriteFault};
use ob_connection::{Connection, Written};
use ob_types::{Message, pending_size};

/// Writes to a connection that the budget let through.
#[inline(always)]
fn put(connection: &mut Connection, message: Message) -> Result<Written, NotWritten>
    ensures written { IfOk result (λ written. Obeys connection.old (Write message) written_reply (accepted written) connection.new) }
    ensures grown { OnOk result ((before : ℕ) → IsPending connection.old before →
        IsPending connection.new (before + counted_bytes connection.old.unsent.settings.estimate message)) }
    ensures room { OnOk result (room_in connection.new ≡ room_for_one_more connection.old.unsent) }
    ensures refused { IfErr result (λ not. IsNotPut connection.old message not.why connection.new) }
    ensures returned { IfErr result (λ not. not.message ≡ message) }
    ensures closed { Gives connection.old closed_after true → IsErr result }
    ensures oversize { is_oversize connection.old.unsent.settings.estimate message ≡ true → IsErr result }
{
    connection.stands_for_some_commands();
    match connection.write(message) {
        Ok(written) => {
            let _look = connection.look();
            Ok(written)
        }
        Err(refused) => Err(NotWritten {
            why: WriteFault::Refused(refused.refusal),
            message: refused.message,
        }),
    }
}

impl Budgeted {
    /// As `Connection::write`, but `OverBudget` comes after `Closed` and `Oversize`, and before the others and before
    /// anything is allocated, if the seat does not hold the message beside what is pending, and the budget refused what it
    /// lacks. Each refusal leaves the connection as it was, and the message comes back.
    #[inline(always)]
    pub fn write(&mut self, message: Message) -> Told<Result<Written, NotWritten>>
        ensures writes { WritesWithin (λ not. not.why) message self.old result self.new }
        ensures returned { IfErr result.answer (λ not. not.message ≡ message) }
    {
        self.connection.stands_for_some_commands();
        let Ok(size) = pending_size(&message, self.connection.estimate()) else {
            return self.write_beyond(message);
        };
        let pending = self.connection.look().total;
        if u64::from(pending) + u64::from(size) > self.cover.held() {
            return self.write_beyond(message);
        }
        let answer = put(&mut self.connection, message);
        Told {
            answer,
            pressure: None,
        }
    }

    /// Writes a message that the seat does not hold, or that no seat holds.
    #[cold]
    #[inline(never)]
    fn write_beyond(&mut self, message: Message) -> Told<Result<Written, NotWritten>>
        ensures writes { WritesWithin (λ not. not.why) message self.old result self.new }
        ensures returned { IfErr result.answer (λ not. not.message ≡ message) }
    {
        self.connection.stands_for_some_commands();
        if self.connection.is_closed() {
            let answer = put(&mut self.connection, message);
            return Told {
                answer,
                pressure: None,
            };
        }
        let Ok(size) = pending_size(&message, self.connection.estimate()) else {
            let answer = put(&mut self.connection, message);
            return Told {
                answer,
                pressure: None,
            };
        };
        let pending = self.connection.look().total;
        match self.cover.take(u64::from(pending) + u64::from(size)) {
            Ok(pressure) => {
                let answer = put(&mut self.connection, message);
                Told { answer, pressure }
            }
            Err(fault) => Told {
                answer: Err(NotWritten {
                    why: WriteFault::OverBudget(fault),
                    message,
                }),
                pressure: None,
            },
        }
    }
}
