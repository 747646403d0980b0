//! One call for each command that lets the pending bytes stay or fall. Each settles the cover by what is pending then.

ghost use Rattle.std.specs.Prelude.{◌≡◌, IsErrOf, OnOk, false};
ghost use Rattle.ob_types.specs.declared.command.Command.TheVariants.{Flush, Remove, RemoveWith, RemoveBytes, Progress};
ghost use Rattle.ob_types.specs.declared.command.Command.TheVariants.{Cancel, FailFlushed, Close, UserBit, SetMarks};
ghost use Rattle.ob_types.specs.declared.promise.Outcome.TheVariants.{Success, Failed};
ghost use Rattle.ob_connection.specs.Connected.{KeepsRoom, TakesNoRoom, room_in};
ghost use Rattle.ob_connection.specs.Obeying.{Obeys, IsNext, IsQuiet, flushed_reply, removed_reply, taken_reply};
ghost use Rattle.ob_connection.specs.Obeying.{cancelled_reply, bit_reply, done_reply};
ghost use Rattle.ob_covered.specs.Budgeted.{IsThrifty};
ghost use Rattle.ob_covered.specs.Cover.{Tells};

use super::Budgeted;
use super::settled::settled;
use crate::fault::Told;
use ob_connection::{Flushed, Removed, Taken};
use ob_types::{Cause, Change, Refusal, WaterMark};

impl Budgeted {
    /// As `Connection::flush`.
    pub fn flush(&mut self) -> Told<Result<Flushed, Refusal>>
        ensures obeys { Obeys self.old.connection Flush flushed_reply result.answer self.new.connection }
        ensures frugal { ¬ IsErrOf result.answer Refusal.NoMemory }
        ensures room { KeepsRoom self.old.connection self.new.connection }
        ensures told { Tells self.old.cover result.pressure self.new.cover }
        ensures thrifty { IsThrifty self.old self.new }
    {
        self.connection.stands_for_some_commands();
        let answer = self.connection.flush();
        settled(&self.connection, &mut self.cover, answer)
    }

    /// As `Connection::remove`.
    pub fn remove(&mut self) -> Told<Result<Removed, Refusal>>
        ensures obeys { Obeys self.old.connection Remove removed_reply result.answer self.new.connection }
        ensures frugal { ¬ IsErrOf result.answer Refusal.NoMemory }
        ensures room { TakesNoRoom self.old.connection self.new.connection }
        ensures told { Tells self.old.cover result.pressure self.new.cover }
        ensures thrifty { IsThrifty self.old self.new }
    {
        self.connection.stands_for_some_commands();
        let answer = self.connection.remove();
        settled(&self.connection, &mut self.cover, answer)
    }

    /// As `Connection::remove_with`.
    pub fn remove_with(&mut self, cause: Cause) -> Told<Result<Removed, Refusal>>
        ensures obeys { Obeys self.old.connection (RemoveWith cause) removed_reply result.answer self.new.connection }
        ensures frugal { ¬ IsErrOf result.answer Refusal.NoMemory }
        ensures room { TakesNoRoom self.old.connection self.new.connection }
        ensures told { Tells self.old.cover result.pressure self.new.cover }
        ensures thrifty { IsThrifty self.old self.new }
    {
        self.connection.stands_for_some_commands();
        let answer = self.connection.remove_with(cause);
        settled(&self.connection, &mut self.cover, answer)
    }

    /// As `Connection::take_sent`.
    pub fn take_sent(&mut self, n: u64) -> Told<Result<Taken, Refusal>>
        ensures obeys { Obeys self.old.connection (RemoveBytes n) taken_reply result.answer self.new.connection }
        ensures next { IsNext self.old.connection Success result.answer self.new.connection }
        ensures frugal { ¬ IsErrOf result.answer Refusal.NoMemory }
        ensures room { TakesNoRoom self.old.connection self.new.connection }
        ensures told { Tells self.old.cover result.pressure self.new.cover }
        ensures thrifty { IsThrifty self.old self.new }
    {
        self.connection.stands_for_some_commands();
        let answer = self.connection.take_sent(n);
        settled(&self.connection, &mut self.cover, answer)
    }

    /// As `Connection::progress`.
    pub fn progress(&mut self, n: u64) -> Told<Result<(), Refusal>>
        ensures obeys { Obeys self.old.connection (Progress n) done_reply result.answer self.new.connection }
        ensures frugal { ¬ IsErrOf result.answer Refusal.NoMemory }
        ensures room { KeepsRoom self.old.connection self.new.connection }
        ensures told { Tells self.old.cover result.pressure self.new.cover }
        ensures thrifty { IsThrifty self.old self.new }
    {
        self.connection.stands_for_some_commands();
        let answer = self.connection.progress(n);
        settled(&self.connection, &mut self.cover, answer)
    }

    /// As `Connection::cancel`.
    pub fn cancel(&mut self, id: u64) -> Told<Result<bool, Refusal>>
        ensures obeys { Obeys self.old.connection (Cancel (record { 0 = id })) (cancelled_reply id) result.answer self.new.connection }
        ensures frugal { ¬ IsErrOf result.answer Refusal.NoMemory }
        ensures room { KeepsRoom self.old.connection self.new.connection }
        ensures told { Tells self.old.cover result.pressure self.new.cover }
        ensures thrifty { IsThrifty self.old self.new }
    {
        self.connection.stands_for_some_commands();
        let answer = self.connection.cancel(id);
        settled(&self.connection, &mut self.cover, answer)
    }

    /// As `Connection::fail_flushed`.
    pub fn fail_flushed(&mut self, cause: Cause, notify: bool) -> Told<Result<Taken, Refusal>>
        ensures obeys { Obeys self.old.connection (FailFlushed cause notify) taken_reply result.answer self.new.connection }
        ensures next { IsNext self.old.connection (Failed cause) result.answer self.new.connection }
        ensures quiet { notify ≡ false → IsQuiet result.answer }
        ensures frugal { ¬ IsErrOf result.answer Refusal.NoMemory }
        ensures room { TakesNoRoom self.old.connection self.new.connection }
        ensures told { Tells self.old.cover result.pressure self.new.cover }
        ensures thrifty { IsThrifty self.old self.new }
    {
        self.connection.stands_for_some_commands();
        let answer = self.connection.fail_flushed(cause, notify);
        settled(&self.connection, &mut self.cover, answer)
    }

    /// As `Connection::close`.
    pub fn close(&mut self, cause: Cause) -> Told<Result<Taken, Refusal>>
        ensures obeys { Obeys self.old.connection (Close cause) taken_reply result.answer self.new.connection }
        ensures next { IsNext self.old.connection (Failed cause) result.answer self.new.connection }
        ensures quiet { IsQuiet result.answer }
        ensures room { OnOk result.answer (room_in self.new.connection ≡ 0) }
        ensures frugal { ¬ IsErrOf result.answer Refusal.NoMemory }
        ensures told { Tells self.old.cover result.pressure self.new.cover }
        ensures thrifty { IsThrifty self.old self.new }
    {
        self.connection.stands_for_some_commands();
        let answer = self.connection.close(cause);
        settled(&self.connection, &mut self.cover, answer)
    }

    /// As `Connection::user_bit`.
    pub fn user_bit(&mut self, index: u32, writable: bool) -> Told<Result<Option<Change>, Refusal>>
        ensures obeys { Obeys self.old.connection (UserBit index writable) bit_reply result.answer self.new.connection }
        ensures frugal { ¬ IsErrOf result.answer Refusal.NoMemory }
        ensures room { KeepsRoom self.old.connection self.new.connection }
        ensures told { Tells self.old.cover result.pressure self.new.cover }
        ensures thrifty { IsThrifty self.old self.new }
    {
        self.connection.stands_for_some_commands();
        let answer = self.connection.user_bit(index, writable);
        settled(&self.connection, &mut self.cover, answer)
    }

    /// As `Connection::set_marks`.
    pub fn set_marks(&mut self, marks: WaterMark) -> Told<Result<(), Refusal>>
        ensures obeys { Obeys self.old.connection (SetMarks marks) done_reply result.answer self.new.connection }
        ensures frugal { ¬ IsErrOf result.answer Refusal.NoMemory }
        ensures room { KeepsRoom self.old.connection self.new.connection }
        ensures told { Tells self.old.cover result.pressure self.new.cover }
        ensures thrifty { IsThrifty self.old self.new }
    {
        self.connection.stands_for_some_commands();
        let answer = self.connection.set_marks(marks);
        settled(&self.connection, &mut self.cover, answer)
    }
}
