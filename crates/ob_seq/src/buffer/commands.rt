//! One call for each command.

ghost use Rattle.std.specs.Prelude.{◌≡◌, [], ◌∷◌, IsErrOf, if◌then◌else◌};
ghost use Rattle.ob_types.specs.declared.command.Command.TheVariants.{Write, Flush, Remove, RemoveWith, RemoveBytes};
ghost use Rattle.ob_types.specs.declared.command.Command.TheVariants.{Progress, Cancel, FailFlushed, Close, UserBit};
ghost use Rattle.ob_types.specs.declared.command.Command.TheVariants.{SetMarks};
ghost use Rattle.ob_seq.specs.Answer.{buffer_limit};
ghost use Rattle.ob_seq.specs.Kept.{removal};
ghost use Rattle.ob_seq.specs.Pending.{Obeys, SparesMemory};
ghost use Rattle.ob_seq.specs.Steps.Commands.{asked};

use crate::buffer::take::let_go;
use crate::buffer::{Buffer, MAX_WRITES};
use ob_types::{
    Answer, Cause, Change, Message, Outcome, PromiseId, Refusal, Reply, Settlements, WaterMark,
    pending_size,
};

impl Buffer {
    /// Adds a message behind all others (Netty's `addMessage`), and returns its promise. It takes the same few steps
    /// whatever is pending; a growth of the lists is shared among the writes that filled them.
    ///
    /// `Closed` comes if the buffer is closed, then `Oversize` if the message counts more than 2147483647 bytes or is a
    /// region longer than 9223372036854775807, then `TooMuch` if more than 4294967295 bytes would be pending or 1048576
    /// writes were accepted, and then `NoMemory` if the allocator refused. Each leaves everything as it was, but for
    /// the message, which is dropped.
    pub fn write(&mut self, message: Message) -> Result<Reply, Refusal>
        ensures { Obeys self.old (Write message) result self.new }
    {
        let id = PromiseId(self.promise_count() as u32);
        let size = self.admits(&message)?;
        // Both growths come before any change.
        self.gone.reserve(self.contents.count() + 1)?;
        let Ok(change) = self.contents.add(message, size) else {
            return Err(Refusal::NoMemory);
        };
        Ok(self.reply(Answer::Id(id), change))
    }

    /// Lets the transport have all that was written so far (Netty's `addFlush`), fixes the promises of those messages,
    /// and returns how many they are. A message whose promise was cancelled is voided: it becomes an empty block that
    /// counts nothing, and stays in line. It takes the same few steps whatever is pending, unless a promise was
    /// cancelled since the last flush: then it goes once over the messages that it reaches. It does not allocate.
    ///
    /// `Closed` comes if the buffer is closed.
    pub fn flush(&mut self) -> Result<Reply, Refusal>
        ensures obeys { Obeys self.old Flush result self.new }
        ensures frugal { ¬ IsErrOf result Refusal.NoMemory }
    {
        let answer = Answer::Count(self.contents.unflushed_count() as u32);
        let change = self.contents.flush()?;
        Ok(self.reply(answer, change))
    }

    /// Takes the first flushed message away, as sent (Netty's `remove()`): unless it was voided its promise
    /// succeeds, and the pending bytes fall with notice. With nothing flushed it returns false, and all is as it was.
    /// It takes the same few steps whatever is pending, and does not allocate.
    ///
    /// `Closed` comes if the buffer is closed.
    // As at `Contents::add`, of the reply.
    #[inline(always)]
    pub fn remove(&mut self) -> Result<Reply, Refusal>
        ensures obeys { Obeys self.old Remove result self.new }
        ensures frugal { ¬ IsErrOf result Refusal.NoMemory }
    {
        self.remove_as(Outcome::Success)
    }

    /// Takes the first flushed message away as `remove` does, but as failed for this cause (Netty's
    /// `remove(Throwable)`), and costs the same. It does not allocate.
    ///
    /// `Closed` comes if the buffer is closed.
    #[inline(always)]
    pub fn remove_with(&mut self, cause: Cause) -> Result<Reply, Refusal>
        ensures obeys { Obeys self.old (RemoveWith cause) result self.new }
        ensures frugal { ¬ IsErrOf result Refusal.NoMemory }
    {
        self.remove_as(Outcome::Failed(cause))
    }

    /// Takes *n* bytes off the flushed blocks in front, as sent (Netty's `removeBytes`), and returns how many messages
    /// it took away.
    ///
    /// Each message that is gone whole is taken away as by `remove`, empty and voided ones along with the others;
    /// what is left of the bytes is skipped in the next message, and added to its progress, which stops at
    /// 9223372036854775807. So 0 bytes take away the empty messages in front. Bytes that are skipped stay pending
    /// until their message is gone. It goes over the messages that it takes away, and one more; if it is refused for
    /// too many bytes, over the flushed blocks in front.
    ///
    /// `Closed` comes if the buffer is closed, then `TooManyBytes` if the flushed blocks before the first other message
    /// hold fewer bytes, and then `NoMemory` if more than four promises are settled and the allocator refused; all
    /// leave everything as it was.
    pub fn remove_bytes(&mut self, n: u64) -> Result<Reply, Refusal>
        ensures obeys { Obeys self.old (RemoveBytes n) result self.new }
        ensures spares { SparesMemory self.old (RemoveBytes n) result }
    {
        if self.contents.is_closed() {
            return Err(Refusal::Closed);
        }
        let Some(cut) = self.contents.find_cut(n) else {
            return Err(Refusal::TooManyBytes);
        };
        let before = self.contents.word();
        let settled = let_go(&mut self.gone, &self.contents, cut.whole, Outcome::Success)?;
        self.contents.take_cut(cut);
        Ok(Reply {
            answer: Answer::Count(cut.whole as u32),
            settled,
            change: Change::between(before, self.contents.word()),
        })
    }

    /// Adds *n* bytes to the progress of the first flushed message (Netty's `progress`). It takes the same few steps
    /// whatever is pending, and does not allocate.
    ///
    /// `Closed` comes if the buffer is closed, then `NothingFlushed` if no message is flushed, and then `TooFar` if the
    /// progress would pass 9223372036854775807.
    pub fn progress(&mut self, n: u64) -> Result<Reply, Refusal>
        ensures obeys { Obeys self.old (Progress n) result self.new }
        ensures frugal { ¬ IsErrOf result Refusal.NoMemory }
    {
        self.contents.progress(n)?;
        Ok(self.reply(Answer::Done, None))
    }

    /// Takes a promise back (Netty's `Future.cancel`), and returns whether that came in time: a promise that a
    /// flush has fixed, or that is settled, stays as it is. The pending bytes stay too: they fall at the flush. It
    /// takes the same few steps whatever is pending, and does not allocate.
    ///
    /// `Closed` comes if the buffer is closed, and then `UnknownPromise` if no write was accepted under the id.
    pub fn cancel(&mut self, id: PromiseId) -> Result<Reply, Refusal>
        ensures obeys { Obeys self.old (Cancel id) result self.new }
        ensures frugal { ¬ IsErrOf result Refusal.NoMemory }
    {
        let in_time = self
            .contents
            .cancel(u64::from(id.0), self.gone.len() as u64)?;
        Ok(Reply {
            answer: Answer::Yes(in_time),
            settled: self.settled(in_time, id, Outcome::Cancelled),
            change: None,
        })
    }

    /// Takes all flushed messages away, oldest first, as failed for this cause (Netty's `failFlushed`), and returns how
    /// many they were, voided ones too. The promise of each that was not voided fails. If `notify` is not set, the
    /// pending bytes fall without notice: the word stays as it was, below the low mark too. It goes over the messages
    /// that it takes away.
    ///
    /// `Closed` comes if the buffer is closed, and then `NoMemory` if more than four promises are settled and the
    /// allocator refused; both leave all as it was.
    pub fn fail_flushed(&mut self, cause: Cause, notify: bool) -> Result<Reply, Refusal>
        ensures obeys { Obeys self.old (FailFlushed cause notify) result self.new }
        ensures spares { SparesMemory self.old (FailFlushed cause notify) result }
    {
        if self.contents.is_closed() {
            return Err(Refusal::Closed);
        }
        let count = self.contents.line_count();
        let before = self.contents.word();
        let settled = let_go(
            &mut self.gone,
            &self.contents,
            count,
            Outcome::Failed(cause),
        )?;
        self.contents.take_first(count, notify);
        Ok(Reply {
            answer: Answer::Count(count as u32),
            settled,
            change: Change::between(before, self.contents.word()),
        })
    }

    /// Closes the buffer for good: takes all messages away that no flush has reached, oldest first and without notice,
    /// fails their promises for this cause unless they were cancelled, and returns how many messages they were (Netty's
    /// `close`). The word stays as it was. After it each command is refused as `Closed`, and looks still show what
    /// there is. It goes over the messages that it takes away.
    ///
    /// `Closed` comes if the buffer is closed already, then `FlushedLeft` if a flushed message is left, voided ones
    /// too, and then `NoMemory` if more than four promises are settled and the allocator refused; all leave everything
    /// as it was.
    pub fn close(&mut self, cause: Cause) -> Result<Reply, Refusal>
        ensures obeys { Obeys self.old (Close cause) result self.new }
        ensures spares { SparesMemory self.old (Close cause) result }
    {
        if self.contents.is_closed() {
            return Err(Refusal::Closed);
        }
        if self.contents.line_count() > 0 {
            return Err(Refusal::FlushedLeft);
        }
        let count = self.contents.count();
        let settled = let_go(
            &mut self.gone,
            &self.contents,
            count,
            Outcome::Failed(cause),
        )?;
        self.contents.shut();
        Ok(Reply {
            answer: Answer::Count(count as u32),
            settled,
            change: None,
        })
    }

    /// Sets the user bit of this index, or clears it if `writable` is set (Netty's
    /// `setUserDefinedWritability`). The buffer is writable while no user bit and no mark is set. It takes the same few
    /// steps whatever is pending, and does not allocate.
    ///
    /// `Closed` comes if the buffer is closed, and then `BadIndex` if the index is not 1 to 31.
    pub fn user_bit(&mut self, index: u32, writable: bool) -> Result<Reply, Refusal>
        ensures obeys { Obeys self.old (UserBit index writable) result self.new }
        ensures frugal { ¬ IsErrOf result Refusal.NoMemory }
    {
        let change = self.contents.user_bit(index, writable)?;
        Ok(self.reply(Answer::Done, change))
    }

    /// Sets the marks that are in force from now on (Netty's `setWriteBufferWaterMark` on an open channel, for which
    /// Netty states no rule). It moves no bit, settles nothing and reports no change, even if what is pending is above
    /// the new high mark or below the new low mark: only the next rise or fall goes by the new marks, and each look
    /// from now on. It takes the same few steps whatever is pending, and does not allocate.
    ///
    /// `Closed` comes if the buffer is closed.
    pub fn set_marks(&mut self, marks: WaterMark) -> Result<Reply, Refusal>
        ensures obeys { Obeys self.old (SetMarks marks) result self.new }
        ensures frugal { ¬ IsErrOf result Refusal.NoMemory }
    {
        self.contents.set_marks(marks)?;
        Ok(self.reply(Answer::Done, None))
    }

    /// What a message counts, unless its write is refused by anything but lack of memory.
    fn admits(&self, message: &Message) -> Result<u32, Refusal>
        ensures { result ≡ asked buffer_limit message.now self.now }
    {
        // Asked here too, before the size: else the tests of a write prepare the refusals of each other.
        if self.contents.is_closed() {
            return Err(Refusal::Closed);
        }
        let size = pending_size(message, self.contents.estimate());
        let writes = self.promise_count() as u64;
        self.contents.admits(size, writes, MAX_WRITES as u64)
    }

    /// Takes the front away with this outcome, if there is one.
    #[inline(always)]
    fn remove_as(&mut self, outcome: Outcome) -> Result<Reply, Refusal>
        requires { ¬ (outcome ≡ Outcome.Cancelled) }
        ensures obeys { Obeys self.old (removal outcome) result self.new }
        ensures frugal { ¬ IsErrOf result Refusal.NoMemory }
    {
        let Some(front) = self.contents.remove()? else {
            return Ok(self.reply(Answer::Yes(false), None));
        };
        let id = PromiseId(self.gone.len() as u32);
        self.gone.push(front.ending(outcome));
        Ok(Reply {
            answer: Answer::Yes(true),
            settled: self.settled(front.settles, id, outcome),
            change: front.change,
        })
    }

    /// The reply of a call that settles nothing.
    fn reply(&self, answer: Answer, change: Option<Change>) -> Reply
        ensures { result ≡ record { answer = answer; settled = []; change = change } }
    {
        Reply {
            answer,
            settled: Settlements::new(self.contents.allocator()),
            change,
        }
    }

    /// The settlement of this promise, or none.
    fn settled(&self, settles: bool, id: PromiseId, outcome: Outcome) -> Settlements
        ensures { result ≡ (if settles then (id, outcome) ∷ [] else []) }
    {
        if settles {
            Settlements::one(self.contents.allocator(), id, outcome)
        } else {
            Settlements::new(self.contents.allocator())
        }
    }
}
