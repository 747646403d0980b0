//! One call for each command but the write.

ghost use Rattle.std.specs.Prelude.{◌≡◌, IsErrOf, OnOk, false};
ghost use Rattle.ob_types.specs.declared.command.Command.TheVariants.{Flush, Remove, RemoveWith, RemoveBytes, Progress};
ghost use Rattle.ob_types.specs.declared.command.Command.TheVariants.{Cancel, FailFlushed, Close, UserBit, SetMarks};
ghost use Rattle.ob_types.specs.declared.promise.Outcome.TheVariants.{Success, Failed};
ghost use Rattle.ob_connection.specs.Connected.{KeepsRoom, TakesNoRoom, room_in};
ghost use Rattle.ob_connection.specs.Obeying.{Obeys, IsNext, IsQuiet, flushed_reply, removed_reply, taken_reply};
ghost use Rattle.ob_connection.specs.Obeying.{cancelled_reply, bit_reply, done_reply};
ghost use Rattle.ob_lifecycle.specs.Events.{happens};
ghost use Rattle.ob_lifecycle.specs.Managed.{Brings};

use super::ManagedConnection;
use crate::fault::Told;
use crate::{changes, counted};
use ob_connection::{Flushed, Removed, Taken};
use ob_types::{Cause, Change, Refusal, WaterMark};

impl ManagedConnection {
    /// As `Connection::flush`.
    pub fn flush(&mut self) -> Told<Result<Flushed, Refusal>>
        ensures obeys { Obeys self.old.connection Flush flushed_reply result.answer self.new.connection }
        ensures frugal { ¬ IsErrOf result.answer Refusal.NoMemory }
        ensures room { KeepsRoom self.old.connection self.new.connection }
        ensures brings { Brings self.old (happens Flush result.answer) result.finished self.new }
    {
        if self.ending.asked || self.tally.cancels {
            return self.flush_at_length();
        }
        match self.connection.flush() {
            Ok(flushed) => {
                self.ending.watch.after(true, 0, self.connection.is_empty());
                self.strain.changed(flushed.change);
                Told {
                    answer: Ok(flushed),
                    finished: false,
                }
            }
            Err(refusal) => Told {
                answer: Err(self.strain.declined(refusal)),
                finished: false,
            },
        }
    }

    /// A flush that may void messages, or reach the end.
    #[cold]
    #[inline(never)]
    fn flush_at_length(&mut self) -> Told<Result<Flushed, Refusal>>
        ensures obeys { Obeys self.old.connection Flush flushed_reply result.answer self.new.connection }
        ensures frugal { ¬ IsErrOf result.answer Refusal.NoMemory }
        ensures room { KeepsRoom self.old.connection self.new.connection }
        ensures brings { Brings self.old (happens Flush result.answer) result.finished self.new }
    {
        let answer = counted::flush(&mut self.connection, &mut self.tally);
        self.ending
            .watch
            .after(answer.is_ok(), 0, self.connection.is_empty());
        self.strain.told(changes::of_flush(&answer));
        let finished = self.ending.reach(self.connection.waiting_count());
        Told { answer, finished }
    }

    /// As `Connection::remove`.
    pub fn remove(&mut self) -> Told<Result<Removed, Refusal>>
        ensures obeys { Obeys self.old.connection Remove removed_reply result.answer self.new.connection }
        ensures frugal { ¬ IsErrOf result.answer Refusal.NoMemory }
        ensures room { TakesNoRoom self.old.connection self.new.connection }
        ensures brings { Brings self.old (happens Remove result.answer) result.finished self.new }
    {
        match self.connection.remove() {
            Ok(removed) => {
                let enough = self.limits.least_bytes;
                self.ending
                    .watch
                    .after(true, enough, self.connection.is_empty());
                self.strain.changed(removed.change);
                let finished = self.ending.reach(self.connection.waiting_count());
                Told {
                    answer: Ok(removed),
                    finished,
                }
            }
            Err(refusal) => Told {
                answer: Err(self.strain.declined(refusal)),
                finished: false,
            },
        }
    }

    /// As `Connection::remove_with`.
    pub fn remove_with(&mut self, cause: Cause) -> Told<Result<Removed, Refusal>>
        ensures obeys { Obeys self.old.connection (RemoveWith cause) removed_reply result.answer self.new.connection }
        ensures frugal { ¬ IsErrOf result.answer Refusal.NoMemory }
        ensures room { TakesNoRoom self.old.connection self.new.connection }
        ensures brings { Brings self.old (happens (RemoveWith cause) result.answer) result.finished self.new }
    {
        let answer = counted::remove_with(&mut self.connection, &mut self.tally, cause);
        self.ending
            .watch
            .after(answer.is_ok(), 0, self.connection.is_empty());
        self.strain.told(changes::of_removal(&answer));
        let finished = self.ending.reach(self.connection.waiting_count());
        Told { answer, finished }
    }

    /// As `Connection::take_sent`.
    pub fn take_sent(&mut self, n: u64) -> Told<Result<Taken, Refusal>>
        ensures obeys { Obeys self.old.connection (RemoveBytes n) taken_reply result.answer self.new.connection }
        ensures next { IsNext self.old.connection Success result.answer self.new.connection }
        ensures frugal { ¬ IsErrOf result.answer Refusal.NoMemory }
        ensures room { TakesNoRoom self.old.connection self.new.connection }
        ensures brings { Brings self.old (happens (RemoveBytes n) result.answer) result.finished self.new }
    {
        match self.connection.take_sent(n) {
            Ok(taken) => {
                self.ending.watch.after(true, n, self.connection.is_empty());
                self.strain.changed(taken.change);
                let finished = self.ending.reach(self.connection.waiting_count());
                Told {
                    answer: Ok(taken),
                    finished,
                }
            }
            Err(refusal) => Told {
                answer: Err(self.strain.declined(refusal)),
                finished: false,
            },
        }
    }

    /// As `Connection::progress`.
    pub fn progress(&mut self, n: u64) -> Told<Result<(), Refusal>>
        ensures obeys { Obeys self.old.connection (Progress n) done_reply result.answer self.new.connection }
        ensures frugal { ¬ IsErrOf result.answer Refusal.NoMemory }
        ensures room { KeepsRoom self.old.connection self.new.connection }
        ensures brings { Brings self.old (happens (Progress n) result.answer) result.finished self.new }
    {
        let answer = self.connection.progress(n);
        self.ending
            .watch
            .after(answer.is_ok(), n, self.connection.is_empty());
        self.strain.told(changes::of_done(&answer));
        let finished = self.ending.reach(self.connection.waiting_count());
        Told { answer, finished }
    }

    /// As `Connection::cancel`.
    pub fn cancel(&mut self, id: u64) -> Told<Result<bool, Refusal>>
        ensures obeys { Obeys self.old.connection (Cancel (record { 0 = id })) (cancelled_reply id) result.answer self.new.connection }
        ensures frugal { ¬ IsErrOf result.answer Refusal.NoMemory }
        ensures room { KeepsRoom self.old.connection self.new.connection }
        ensures brings { Brings self.old (happens (Cancel (record { 0 = id })) result.answer) result.finished self.new }
    {
        let answer = counted::cancel(&mut self.connection, &mut self.tally, id);
        self.ending
            .watch
            .after(answer.is_ok(), 0, self.connection.is_empty());
        self.strain.told(changes::of_cancel(&answer));
        let finished = self.ending.reach(self.connection.waiting_count());
        Told { answer, finished }
    }

    /// As `Connection::fail_flushed`.
    pub fn fail_flushed(&mut self, cause: Cause, notify: bool) -> Told<Result<Taken, Refusal>>
        ensures obeys { Obeys self.old.connection (FailFlushed cause notify) taken_reply result.answer self.new.connection }
        ensures next { IsNext self.old.connection (Failed cause) result.answer self.new.connection }
        ensures quiet { notify ≡ false → IsQuiet result.answer }
        ensures frugal { ¬ IsErrOf result.answer Refusal.NoMemory }
        ensures room { TakesNoRoom self.old.connection self.new.connection }
        ensures brings { Brings self.old (happens (FailFlushed cause notify) result.answer) result.finished self.new }
    {
        let answer = counted::fail_flushed(&mut self.connection, &mut self.tally, cause, notify);
        self.ending
            .watch
            .after(answer.is_ok(), 0, self.connection.is_empty());
        self.strain.told(changes::of_taking(&answer));
        let finished = self.ending.reach(self.connection.waiting_count());
        Told { answer, finished }
    }

    /// As `Connection::close`.
    pub fn close(&mut self, cause: Cause) -> Told<Result<Taken, Refusal>>
        ensures obeys { Obeys self.old.connection (Close cause) taken_reply result.answer self.new.connection }
        ensures next { IsNext self.old.connection (Failed cause) result.answer self.new.connection }
        ensures quiet { IsQuiet result.answer }
        ensures frugal { ¬ IsErrOf result.answer Refusal.NoMemory }
        ensures room { OnOk result.answer (room_in self.new.connection ≡ 0) }
        ensures brings { Brings self.old (happens (Close cause) result.answer) result.finished self.new }
    {
        let answer = counted::close(&mut self.connection, &mut self.tally, cause);
        self.ending
            .watch
            .after(answer.is_ok(), 0, self.connection.is_empty());
        self.strain.told(changes::of_taking(&answer));
        let finished = self.ending.reach(self.connection.waiting_count());
        Told { answer, finished }
    }

    /// As `Connection::user_bit`.
    pub fn user_bit(&mut self, index: u32, writable: bool) -> Told<Result<Option<Change>, Refusal>>
        ensures obeys { Obeys self.old.connection (UserBit index writable) bit_reply result.answer self.new.connection }
        ensures frugal { ¬ IsErrOf result.answer Refusal.NoMemory }
        ensures room { KeepsRoom self.old.connection self.new.connection }
        ensures brings { Brings self.old (happens (UserBit index writable) result.answer) result.finished self.new }
    {
        let answer = self.connection.user_bit(index, writable);
        self.ending
            .watch
            .after(answer.is_ok(), 0, self.connection.is_empty());
        self.strain.told(changes::of_bit(&answer));
        let finished = self.ending.reach(self.connection.waiting_count());
        Told { answer, finished }
    }

    /// As `Connection::set_marks`.
    pub fn set_marks(&mut self, marks: WaterMark) -> Told<Result<(), Refusal>>
        ensures obeys { Obeys self.old.connection (SetMarks marks) done_reply result.answer self.new.connection }
        ensures frugal { ¬ IsErrOf result.answer Refusal.NoMemory }
        ensures room { KeepsRoom self.old.connection self.new.connection }
        ensures brings { Brings self.old (happens (SetMarks marks) result.answer) result.finished self.new }
    {
        let answer = self.connection.set_marks(marks);
        self.ending
            .watch
            .after(answer.is_ok(), 0, self.connection.is_empty());
        self.strain.told(changes::of_done(&answer));
        let finished = self.ending.reach(self.connection.waiting_count());
        Told { answer, finished }
    }
}
