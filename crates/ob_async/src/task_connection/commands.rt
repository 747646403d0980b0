//! One call for each command. Each returns what the connection's call does, and wakes whoever may go on by it.

ghost use Rattle.std.specs.Prelude.{◌≡◌, IsErrOf, IfErr, IfOk, OnErr, OnOk, false, is_err};
ghost use Rattle.ob_types.specs.declared.command.Command.TheVariants.{Flush, Remove, RemoveWith, RemoveBytes, Progress};
ghost use Rattle.ob_types.specs.declared.command.Command.TheVariants.{Cancel, FailFlushed, Close, UserBit, SetMarks};
ghost use Rattle.ob_types.specs.declared.promise.Outcome.TheVariants.{Success, Failed};
ghost use Rattle.ob_seq.specs.State.{closed_after};
ghost use Rattle.ob_connection.specs.Connected.{Gives, KeepsRoom, TakesNoRoom, room_in};
ghost use Rattle.ob_connection.specs.Obeying.{GivesUp, IsNext, IsQuiet, Obeys, flushed_reply, removed_reply, taken_reply};
ghost use Rattle.ob_connection.specs.Obeying.{cancelled_reply, bit_reply, done_reply};
ghost use Rattle.ob_async.specs.Waiting.{WakesJust};

use super::{TaskConnection, wake};
use ob_connection::{Flushed, Removed, Taken};
use ob_types::{Cause, Change, Refusal, WaterMark};

impl TaskConnection {
    /// As `Connection::flush`.
    pub fn flush(&mut self) -> Result<Flushed, Refusal>
        ensures obeys { Obeys self.old.connection Flush flushed_reply result self.new.connection }
        ensures frugal { ¬ IsErrOf result Refusal.NoMemory }
        ensures room { KeepsRoom self.old.connection self.new.connection }
        ensures wakes { WakesJust self.old self.new }
    {
        let answer = self.connection.flush();
        wake(&self.connection, &mut self.writers, &mut self.sender);
        answer
    }

    /// As `Connection::remove`.
    pub fn remove(&mut self) -> Result<Removed, Refusal>
        ensures obeys { Obeys self.old.connection Remove removed_reply result self.new.connection }
        ensures frugal { ¬ IsErrOf result Refusal.NoMemory }
        ensures room { TakesNoRoom self.old.connection self.new.connection }
        ensures wakes { WakesJust self.old self.new }
    {
        let answer = self.connection.remove();
        wake(&self.connection, &mut self.writers, &mut self.sender);
        answer
    }

    /// As `Connection::remove_with`.
    pub fn remove_with(&mut self, cause: Cause) -> Result<Removed, Refusal>
        ensures obeys { Obeys self.old.connection (RemoveWith cause) removed_reply result self.new.connection }
        ensures frugal { ¬ IsErrOf result Refusal.NoMemory }
        ensures room { TakesNoRoom self.old.connection self.new.connection }
        ensures wakes { WakesJust self.old self.new }
    {
        let answer = self.connection.remove_with(cause);
        wake(&self.connection, &mut self.writers, &mut self.sender);
        answer
    }

    /// As `Connection::take_sent`.
    pub fn take_sent(&mut self, n: u64) -> Result<Taken, Refusal>
        ensures obeys { Obeys self.old.connection (RemoveBytes n) taken_reply result self.new.connection }
        ensures next { IsNext self.old.connection Success result self.new.connection }
        ensures frugal { ¬ IsErrOf result Refusal.NoMemory }
        ensures room { TakesNoRoom self.old.connection self.new.connection }
        ensures wakes { WakesJust self.old self.new }
    {
        let answer = self.connection.take_sent(n);
        wake(&self.connection, &mut self.writers, &mut self.sender);
        answer
    }

    /// As `Connection::progress`.
    pub fn progress(&mut self, n: u64) -> Result<(), Refusal>
        ensures obeys { Obeys self.old.connection (Progress n) done_reply result self.new.connection }
        ensures frugal { ¬ IsErrOf result Refusal.NoMemory }
        ensures room { KeepsRoom self.old.connection self.new.connection }
        ensures wakes { WakesJust self.old self.new }
    {
        let answer = self.connection.progress(n);
        wake(&self.connection, &mut self.writers, &mut self.sender);
        answer
    }

    /// As `Connection::cancel`.
    pub fn cancel(&mut self, id: u64) -> Result<bool, Refusal>
        ensures obeys { Obeys self.old.connection (Cancel (record { 0 = id })) (cancelled_reply id) result self.new.connection }
        ensures frugal { ¬ IsErrOf result Refusal.NoMemory }
        ensures room { KeepsRoom self.old.connection self.new.connection }
        ensures wakes { WakesJust self.old self.new }
    {
        let answer = self.connection.cancel(id);
        wake(&self.connection, &mut self.writers, &mut self.sender);
        answer
    }

    /// As `Connection::fail_flushed`.
    pub fn fail_flushed(&mut self, cause: Cause, notify: bool) -> Result<Taken, Refusal>
        ensures obeys { Obeys self.old.connection (FailFlushed cause notify) taken_reply result self.new.connection }
        ensures next { IsNext self.old.connection (Failed cause) result self.new.connection }
        ensures quiet { notify ≡ false → IsQuiet result }
        ensures frugal { ¬ IsErrOf result Refusal.NoMemory }
        ensures room { TakesNoRoom self.old.connection self.new.connection }
        ensures wakes { WakesJust self.old self.new }
    {
        let answer = self.connection.fail_flushed(cause, notify);
        wake(&self.connection, &mut self.writers, &mut self.sender);
        answer
    }

    /// As `Connection::close`.
    pub fn close(&mut self, cause: Cause) -> Result<Taken, Refusal>
        ensures obeys { Obeys self.old.connection (Close cause) taken_reply result self.new.connection }
        ensures next { IsNext self.old.connection (Failed cause) result self.new.connection }
        ensures quiet { IsQuiet result }
        ensures room { OnOk result (room_in self.new.connection ≡ 0) }
        ensures frugal { ¬ IsErrOf result Refusal.NoMemory }
        ensures wakes { WakesJust self.old self.new }
    {
        let answer = self.connection.close(cause);
        wake(&self.connection, &mut self.writers, &mut self.sender);
        answer
    }

    /// As `Connection::user_bit`.
    pub fn user_bit(&mut self, index: u32, writable: bool) -> Result<Option<Change>, Refusal>
        ensures obeys { Obeys self.old.connection (UserBit index writable) bit_reply result self.new.connection }
        ensures frugal { ¬ IsErrOf result Refusal.NoMemory }
        ensures room { KeepsRoom self.old.connection self.new.connection }
        ensures wakes { WakesJust self.old self.new }
    {
        let answer = self.connection.user_bit(index, writable);
        wake(&self.connection, &mut self.writers, &mut self.sender);
        answer
    }

    /// As `Connection::set_marks`.
    pub fn set_marks(&mut self, marks: WaterMark) -> Result<(), Refusal>
        ensures obeys { Obeys self.old.connection (SetMarks marks) done_reply result self.new.connection }
        ensures frugal { ¬ IsErrOf result Refusal.NoMemory }
        ensures room { KeepsRoom self.old.connection self.new.connection }
        ensures wakes { WakesJust self.old self.new }
    {
        let answer = self.connection.set_marks(marks);
        wake(&self.connection, &mut self.writers, &mut self.sender);
        answer
    }

    /// As `Connection::give_up`.
    pub fn give_up(&mut self, cause: Cause) -> Result<Taken, Refusal>
        ensures gives_up { IfOk result (λ taken. GivesUp self.old.connection cause taken self.new.connection) }
        ensures open { Gives self.old.connection closed_after (is_err result) }
        ensures refused { OnErr result (self.new.connection ≡ self.old.connection) }
        ensures closed { IfErr result (λ refusal. refusal ≡ Refusal.Closed) }
        ensures room { OnOk result (room_in self.new.connection ≡ 0) }
        ensures wakes { WakesJust self.old self.new }
    {
        let answer = self.connection.give_up(cause);
        wake(&self.connection, &mut self.writers, &mut self.sender);
        answer
    }
}
