//! One call for each command, under the lock.
ghost use Rattle.std.specs.Prelude.{◌≡◌, true, false, ⊤, IfErr};
ghost use Rattle.ob_types.specs.declared.command.Command.TheVariants as command;
ghost use Rattle.ob_types.specs.declared.message.Message.TheVariants.{Block};
ghost use Rattle.ob_types.specs.declared.promise.Outcome.TheVariants.{Success, Failed};
ghost use Rattle.ob_connection.specs.Obeying.{flushed_reply, removed_reply, taken_reply, cancelled_reply, bit_reply};
ghost use Rattle.ob_connection.specs.Obeying.{done_reply};
ghost use Rattle.ob_shared_connection.specs.Calls.{AlwaysCovered, GivingUp, IsCall, Makes, ObeyingFreely, Taking};
ghost use Rattle.ob_shared_connection.specs.Calls.{IsUncoveredOnlyWithin, Puts, TakingQuietly, Writes, giving_up};

use crate::commands;
use crate::guard::Guard;
use crate::not_written::{NotWritten, WriteFault};
use crate::writes::WriteCopy;
use ob_connection::{Flushed, Removed, Taken, Written};
use ob_types::{Cause, Change, Message, Refusal, WaterMark};

impl Guard {
    /// Adds a message behind all others, as `Connection::write`: one that is refused comes back.
    pub fn write(&mut self, message: Message) -> Result<Written, NotWritten>
        ensures writes { Writes message result self.old self.new }
        ensures covered { IfErr result (λ refused. IsUncoveredOnlyWithin refused.why self.old.handle.budget) }
    {
        self.caller.act(commands::Write(message))
    }

    /// Adds a copy of these bytes behind all others, as `Connection::write_copy`.
    pub fn write_copy(&mut self, bytes: &[u8]) -> Result<Written, WriteFault>
        ensures writes { Puts (Block bytes.now) result self.old self.new }
        ensures covered { IfErr result (λ refused. IsUncoveredOnlyWithin refused self.old.handle.budget) }
    {
        self.caller.act(WriteCopy(bytes))
    }

    /// Lets the transport have all that was written so far, as `Connection::flush`.
    pub fn flush(&mut self) -> Result<Flushed, Refusal>
        ensures { Makes (ObeyingFreely flushed_reply) command.Flush result self.old self.new }
    {
        self.caller.act(commands::Flush)
    }

    /// Takes the first flushed message away, as sent, as `Connection::remove`. Of the handle that sends.
    pub fn remove(&mut self) -> Result<Removed, Refusal>
        requires { self.old.handle.sends ≡ true }
        ensures { Makes (ObeyingFreely removed_reply) command.Remove result self.old self.new }
    {
        self.caller.act(commands::Remove)
    }

    /// Takes the first flushed message away, as failed, as `Connection::remove_with`. Of the handle that sends.
    pub fn remove_with(&mut self, cause: Cause) -> Result<Removed, Refusal>
        requires { self.old.handle.sends ≡ true }
        ensures { Makes (ObeyingFreely removed_reply) (command.RemoveWith cause) result self.old self.new }
    {
        self.caller.act(commands::RemoveWith(cause))
    }

    /// Takes *n* bytes off the flushed blocks in front, as sent, as `Connection::take_sent`. Of the handle that sends.
    pub fn take_sent(&mut self, n: u64) -> Result<Taken, Refusal>
        requires { self.old.handle.sends ≡ true }
        ensures { Makes (Taking Success) (command.RemoveBytes n) result self.old self.new }
    {
        self.caller.act(commands::TakeSent(n))
    }

    /// Adds *n* bytes to the progress of the first flushed message, as `Connection::progress`.
    pub fn progress(&mut self, n: u64) -> Result<(), Refusal>
        ensures { Makes (ObeyingFreely done_reply) (command.Progress n) result self.old self.new }
    {
        self.caller.act(commands::Progress(n))
    }

    /// Takes a promise back, as `Connection::cancel`.
    pub fn cancel(&mut self, id: u64) -> Result<bool, Refusal>
        ensures { Makes (ObeyingFreely (cancelled_reply id)) (command.Cancel (record { 0 = id })) result self.old self.new }
    {
        self.caller.act(commands::Cancel(id))
    }

    /// Takes all flushed messages away, as failed, as `Connection::fail_flushed`. Of the handle that sends.
    pub fn fail_flushed(&mut self, cause: Cause, notify: bool) -> Result<Taken, Refusal>
        requires { self.old.handle.sends ≡ true }
        ensures { Makes (TakingQuietly (Failed cause) (notify ≡ false)) (command.FailFlushed cause notify)
            result self.old self.new }
    {
        self.caller.act(commands::FailFlushed(cause, notify))
    }

    /// Closes the connection for good, as `Connection::close`.
    pub fn close(&mut self, cause: Cause) -> Result<Taken, Refusal>
        ensures { Makes (TakingQuietly (Failed cause) ⊤) (command.Close cause) result self.old self.new }
    {
        self.caller.act(commands::Close(cause))
    }

    /// Fails what is flushed and closes the connection, as `Connection::give_up`: two calls of the list. Of the handle
    /// that sends.
    pub fn give_up(&mut self, cause: Cause) -> Result<Taken, Refusal>
        requires { self.old.handle.sends ≡ true }
        ensures { IsCall AlwaysCovered (GivingUp cause) (giving_up cause) self.old result self.new }
    {
        self.caller.act(commands::GiveUp(cause))
    }

    /// Sets a user bit or clears it, as `Connection::user_bit`.
    pub fn user_bit(&mut self, index: u32, writable: bool) -> Result<Option<Change>, Refusal>
        ensures { Makes (ObeyingFreely bit_reply) (command.UserBit index writable) result self.old self.new }
    {
        self.caller.act(commands::UserBit(index, writable))
    }

    /// Sets the marks that are in force from now on, as `Connection::set_marks`.
    pub fn set_marks(&mut self, marks: WaterMark) -> Result<(), Refusal>
        ensures { Makes (ObeyingFreely done_reply) (command.SetMarks marks) result self.old self.new }
    {
        self.caller.act(commands::SetMarks(marks))
    }
}
