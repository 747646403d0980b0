//! One call for each command. What a command does and what it costs, `Buffer` of `ob_seq` says in full.

ghost use Rattle.std.specs.Prelude.{◌≡◌, false, is_err, IfErr, IfOk, IsErrOf, OnErr, OnOk, true};
ghost use Rattle.ob_types.specs.declared.command.Command.TheVariants.{Write, Flush, Remove, RemoveWith, RemoveBytes};
ghost use Rattle.ob_types.specs.declared.command.Command.TheVariants.{Progress, Cancel, FailFlushed, Close, UserBit};
ghost use Rattle.ob_types.specs.declared.command.Command.TheVariants.{SetMarks};
ghost use Rattle.ob_types.specs.declared.promise.Outcome.TheVariants.{Success, Failed};
ghost use Rattle.ob_seq.specs.State.{closed_after};
ghost use Rattle.ob_connection.specs.Obeying.{GivesUp, IsNext, IsQuiet, Obeys, answer_of_write, written_reply};
ghost use Rattle.ob_connection.specs.Obeying.{flushed_reply, removed_reply, taken_reply, cancelled_reply, bit_reply};
ghost use Rattle.ob_connection.specs.Obeying.{done_reply};
ghost use Rattle.ob_connection.specs.Connected.{Gives, KeepsRoom, TakesNoRoom, room_in};
ghost use Rattle.ob_seq.specs.Unsent.{room_for_one_more, spares};

use crate::connection::Connection;
use crate::refused::Refused;
use crate::replies::{Flushed, Removed, Taken, Written};
use ob_types::{Cause, Change, Message, Outcome, Refusal, WaterMark};

impl Connection {
    /// Adds a message behind all others (Netty's `addMessage`), and returns its promise: ids rise by one from 0. It
    /// takes the same few steps whatever is pending; a growth of the room is shared among the writes that filled it.
    ///
    /// `Closed` comes if the connection is closed, then `Oversize` if the message counts more than 2147483647 bytes or is
    /// a region longer than 9223372036854775807, then `TooMuch` if more than 4294967295 bytes would be pending or 2^64 - 1
    /// writes were accepted, and then `NoMemory` if the allocator refused. Each leaves everything as it was, and the
    /// message comes back with it: `?` to a `Refusal` lets that go.
    #[inline(always)]
    pub fn write(&mut self, message: Message) -> Result<Written, Refused>
        ensures obeys { Obeys self.old (Write message) written_reply (answer_of_write result) self.new }
        ensures room { OnOk result (room_in self.new ≡ room_for_one_more self.old.unsent) }
        ensures spares { spares self.old.unsent ≡ true → ¬ IsErrOf (answer_of_write result) Refusal.NoMemory }
        ensures returned { IfErr result (λ refused. refused.message ≡ message) }
    {
        match self.admits(&message) {
            Ok(size) => self.put(message, size),
            Err(refusal) => Err(Refused { refusal, message }),
        }
    }

    /// Lets the transport have all that was written so far, as `Buffer::flush` (Netty's `addFlush`), and returns how many
    /// messages it reached. It does not allocate. `Closed` is its only refusal.
    pub fn flush(&mut self) -> Result<Flushed, Refusal>
        ensures obeys { Obeys self.old Flush flushed_reply result self.new }
        ensures frugal { ¬ IsErrOf result Refusal.NoMemory }
        ensures room { KeepsRoom self.old self.new }
    {
        let count = self.contents.unflushed_count() as u64;
        let change = self.contents.flush()?;
        Ok(Flushed { count, change })
    }

    /// Takes the first flushed message away, as sent, as `Buffer::remove` (Netty's `remove()`). It never runs out of
    /// memory. `Closed` is its only refusal.
    // As at `Contents::add`, of the reply.
    #[inline(always)]
    pub fn remove(&mut self) -> Result<Removed, Refusal>
        ensures obeys { Obeys self.old Remove removed_reply result self.new }
        ensures frugal { ¬ IsErrOf result Refusal.NoMemory }
        ensures room { TakesNoRoom self.old self.new }
    {
        self.remove_as(Outcome::Success)
    }

    /// Takes the first flushed message away, as failed for this cause, as `Buffer::remove_with` (Netty's
    /// `remove(Throwable)`). It never runs out of memory. `Closed` is its only refusal.
    pub fn remove_with(&mut self, cause: Cause) -> Result<Removed, Refusal>
        ensures obeys { Obeys self.old (RemoveWith cause) removed_reply result self.new }
        ensures frugal { ¬ IsErrOf result Refusal.NoMemory }
        ensures room { TakesNoRoom self.old self.new }
    {
        self.remove_as(Outcome::Failed(cause))
    }

    /// Takes *n* bytes off the flushed blocks in front, as sent, as `Buffer::remove_bytes` (Netty's `removeBytes`), and
    /// returns which messages are gone by that. It never runs out of memory.
    ///
    /// `Closed` comes if the connection is closed, and then `TooManyBytes` if the flushed blocks before the first other
    /// message hold fewer bytes; both leave everything as it was.
    // As at `Contents::add`, of the reply.
    #[inline(always)]
    pub fn take_sent(&mut self, n: u64) -> Result<Taken, Refusal>
        ensures obeys { Obeys self.old (RemoveBytes n) taken_reply result self.new }
        ensures next { IsNext self.old Success result self.new }
        ensures frugal { ¬ IsErrOf result Refusal.NoMemory }
        ensures room { TakesNoRoom self.old self.new }
    {
        self.ask_open()?;
        let Some(cut) = self.contents.find_cut(n) else {
            return Err(Refusal::TooManyBytes);
        };
        let (before, from) = (self.contents.word(), self.gone);
        self.take_cut(cut);
        Ok(self.taken_since(before, from, Outcome::Success))
    }

    /// Adds *n* bytes to the progress of the first flushed message, as `Buffer::progress` (Netty's `progress`), and is
    /// refused as that is. It does not allocate.
    pub fn progress(&mut self, n: u64) -> Result<(), Refusal>
        ensures obeys { Obeys self.old (Progress n) done_reply result self.new }
        ensures frugal { ¬ IsErrOf result Refusal.NoMemory }
        ensures room { KeepsRoom self.old self.new }
    {
        self.contents.progress(n)
    }

    /// Takes a promise back, as `Buffer::cancel` (Netty's `Future.cancel`), and returns whether that came in time. It takes
    /// the same few steps whatever is pending, and does not allocate.
    ///
    /// `Closed` comes if the connection is closed, and then `UnknownPromise` if no write was accepted under the id.
    pub fn cancel(&mut self, id: u64) -> Result<bool, Refusal>
        ensures obeys { Obeys self.old (Cancel (record { 0 = id })) (cancelled_reply id) result self.new }
        ensures frugal { ¬ IsErrOf result Refusal.NoMemory }
        ensures room { KeepsRoom self.old self.new }
    {
        self.contents.cancel(id, self.gone)
    }

    /// Takes all flushed messages away, as failed for this cause, as `Buffer::fail_flushed` (Netty's `failFlushed`), and
    /// returns which they were, voided ones too. It never runs out of memory. `Closed` is its only refusal.
    pub fn fail_flushed(&mut self, cause: Cause, notify: bool) -> Result<Taken, Refusal>
        ensures obeys { Obeys self.old (FailFlushed cause notify) taken_reply result self.new }
        ensures next { IsNext self.old (Failed cause) result self.new }
        ensures quiet { notify ≡ false → IsQuiet result }
        ensures frugal { ¬ IsErrOf result Refusal.NoMemory }
        ensures room { TakesNoRoom self.old self.new }
    {
        self.ask_open()?;
        let (before, from) = (self.contents.word(), self.gone);
        let count = self.contents.line_count();
        self.contents.take_first(count, notify);
        self.gone += count as u64;
        self.give_back();
        Ok(self.taken_since(before, from, Outcome::Failed(cause)))
    }

    /// Closes the connection for good, as `Buffer::close` (Netty's `close`), and returns which messages it took away, of
    /// which no flush had reached any. It never runs out of memory.
    ///
    /// `Closed` comes if the connection is closed already, and then `FlushedLeft` if a flushed message is left, voided ones
    /// too; both leave everything as it was.
    pub fn close(&mut self, cause: Cause) -> Result<Taken, Refusal>
        ensures obeys { Obeys self.old (Close cause) taken_reply result self.new }
        ensures next { IsNext self.old (Failed cause) result self.new }
        ensures quiet { IsQuiet result }
        ensures frugal { ¬ IsErrOf result Refusal.NoMemory }
        ensures room { OnOk result (room_in self.new ≡ 0) }
    {
        self.ask_open()?;
        if self.contents.line_count() > 0 {
            return Err(Refusal::FlushedLeft);
        }
        let (before, from) = (self.contents.word(), self.gone);
        self.gone = self.accepted_writes();
        self.contents.shut();
        let taken = self.taken_since(before, from, Outcome::Failed(cause));
        self.give_back();
        Ok(taken)
    }

    /// Gives the connection up: fails what is flushed for this cause without notice, and closes for it, as
    /// `fail_flushed` and then `close` do, and returns one interval of all messages that were pending. The promise of
    /// each that was not cancelled in time fails. The word stays as it was. It never fails on an open connection. It
    /// goes over the messages that it takes away, and never runs out of memory. Our own.
    ///
    /// `Closed` comes if the connection is closed, and no other refusal does.
    pub fn give_up(&mut self, cause: Cause) -> Result<Taken, Refusal>
        ensures gives_up { IfOk result (λ taken. GivesUp self.old cause taken self.new) }
        ensures open { Gives self.old closed_after (is_err result) }
        ensures refused { OnErr result (self.new ≡ self.old) }
        ensures closed { IfErr result (λ refusal. refusal ≡ Refusal.Closed) }
        ensures room { OnOk result (room_in self.new ≡ 0) }
    {
        self.ask_open()?;
        self.stands_for_some_commands();
        let from = self.gone;
        let Ok(_failed) = self.fail_flushed(cause, false) else {
            unreachable!();
        };
        let Ok(_closed) = self.close(cause) else {
            unreachable!();
        };
        Ok(Taken {
            count: self.gone - from,
            change: None,
            from,
            to: self.gone,
            outcome: Outcome::Failed(cause),
        })
    }

    /// Sets the user bit of this index, or clears it if `writable` is set, as `Buffer::user_bit` (Netty's
    /// `setUserDefinedWritability`), and returns how that changed writability. It does not allocate.
    ///
    /// `Closed` comes if the connection is closed, and then `BadIndex` if the index is not 1 to 31.
    pub fn user_bit(&mut self, index: u32, writable: bool) -> Result<Option<Change>, Refusal>
        ensures obeys { Obeys self.old (UserBit index writable) bit_reply result self.new }
        ensures frugal { ¬ IsErrOf result Refusal.NoMemory }
        ensures room { KeepsRoom self.old self.new }
    {
        self.contents.user_bit(index, writable)
    }

    /// Sets the marks that are in force from now on, as `Buffer::set_marks`: it moves no bit, so it changes no writability.
    /// It does not allocate. `Closed` is its only refusal.
    pub fn set_marks(&mut self, marks: WaterMark) -> Result<(), Refusal>
        ensures obeys { Obeys self.old (SetMarks marks) done_reply result self.new }
        ensures frugal { ¬ IsErrOf result Refusal.NoMemory }
        ensures room { KeepsRoom self.old self.new }
    {
        self.contents.set_marks(marks)
    }
}
