//! Messages that are written. A write wakes whoever may go on by it, as each command does: that is nobody, since it adds to
//! what is pending, and is no flush.

ghost use Rattle.std.specs.Prelude.{◌≡◌, IfErr, IsErrOf, OnOk, true};
ghost use Rattle.ob_types.specs.declared.command.Command.TheVariants.{Write};
ghost use Rattle.ob_types.specs.declared.message.Message.TheVariants.{Block};
ghost use Rattle.ob_seq.specs.Unsent.{room_for_one_more, spares};
ghost use Rattle.ob_connection.specs.Connected.{room_in};
ghost use Rattle.ob_connection.specs.Obeying.{Obeys, answer_of_write, joined, written_reply};
ghost use Rattle.ob_async.specs.Waiting.{WakesJust};

use super::{TaskConnection, wake};
use ob_connection::{Refused, Written};
use ob_types::{Message, Refusal};

impl TaskConnection {
    /// As `Connection::write`.
    pub fn write(&mut self, message: Message) -> Result<Written, Refused>
        ensures obeys { Obeys self.old.connection (Write message) written_reply (answer_of_write result) self.new.connection }
        ensures room { OnOk result (room_in self.new.connection ≡ room_for_one_more self.old.connection.unsent) }
        ensures spares { spares self.old.connection.unsent ≡ true → ¬ IsErrOf (answer_of_write result) Refusal.NoMemory }
        ensures returned { IfErr result (λ refused. refused.message ≡ message) }
        ensures wakes { WakesJust self.old self.new }
    {
        let answer = self.connection.write(message);
        wake(&self.connection, &mut self.writers, &mut self.sender);
        answer
    }

    /// As `Connection::write_copy`.
    pub fn write_copy(&mut self, bytes: &[u8]) -> Result<Written, Refusal>
        ensures obeys { Obeys self.old.connection (Write (Block bytes.now)) written_reply result self.new.connection }
        ensures room { OnOk result (room_in self.new.connection ≡ room_for_one_more self.old.connection.unsent) }
        ensures wakes { WakesJust self.old self.new }
    {
        let answer = self.connection.write_copy(bytes);
        wake(&self.connection, &mut self.writers, &mut self.sender);
        answer
    }

    /// As `Connection::write_parts`.
    pub fn write_parts(&mut self, parts: &[&[u8]]) -> Result<Written, Refusal>
        ensures obeys { Obeys self.old.connection (Write (Block (joined parts.now))) written_reply result self.new.connection }
        ensures room { OnOk result (room_in self.new.connection ≡ room_for_one_more self.old.connection.unsent) }
        ensures wakes { WakesJust self.old self.new }
    {
        let answer = self.connection.write_parts(parts);
        wake(&self.connection, &mut self.writers, &mut self.sender);
        answer
    }
}
