//! The calls that take nothing away, each of which takes the lock for it.
ghost use Rattle.std.specs.Prelude.{⊤, IfErr};
ghost use Rattle.ob_types.specs.declared.command.Command.TheVariants as command;
ghost use Rattle.ob_types.specs.declared.message.Message.TheVariants.{Block};
ghost use Rattle.ob_types.specs.declared.promise.Outcome.TheVariants.{Failed};
ghost use Rattle.ob_connection.specs.Obeying.{flushed_reply, cancelled_reply, bit_reply, done_reply};
ghost use Rattle.ob_shared_connection.specs.Calls.{Makes, ObeyingFreely, TakingQuietly, UnderLock};
ghost use Rattle.ob_shared_connection.specs.Calls.{IsUncoveredOnlyWithin, Puts, PutsAndFlushes, Writes, WritesAndFlushes};

use crate::commands;
use crate::handle::Handle;
use crate::not_written::{NotWritten, WriteFault};
use crate::writes::{WriteAndFlush, WriteCopy, WriteCopyAndFlush};
use crate::written::WrittenAndFlushed;
use ob_connection::{Flushed, Taken, Written};
use ob_types::{Cause, Change, Message, Refusal, WaterMark};
use std::sync::Wait;

impl Handle {
    /// Adds a message behind all others, as `Connection::write`: one that is refused comes back. Of a connection within a
    /// budget it is `Uncovered` if the seat does not hold it: `act_within` raises that.
    #[inline(always)]
    pub fn write<R: Wait>(&mut self, rt: &R, message: Message) -> Result<Written, NotWritten>
        ensures under { UnderLock self.old (Writes message result) self.new }
        ensures covered { IfErr result (λ refused. IsUncoveredOnlyWithin refused.why self.old.budget) }
    {
        self.caller.call(rt, commands::Write(message))
    }

    /// Adds a copy of these bytes behind all others, as `Connection::write_copy`: few bytes share memory with other messages.
    /// They are copied under the lock, so write many as a block that is made before.
    #[inline(always)]
    pub fn write_copy<R: Wait>(&mut self, rt: &R, bytes: &[u8]) -> Result<Written, WriteFault>
        ensures under { UnderLock self.old (Puts (Block bytes.now) result) self.new }
        ensures covered { IfErr result (λ refused. IsUncoveredOnlyWithin refused self.old.budget) }
    {
        self.caller.call(rt, WriteCopy(bytes))
    }

    /// Writes as `write`, and flushes as `flush`, under one lock (Netty's `writeAndFlush`): no call comes between the two. A
    /// message that is refused comes back, and nothing is flushed then. The flush behind a write that was accepted is
    /// accepted too.
    #[inline(always)]
    pub fn write_and_flush<R: Wait>(
        &mut self,
        rt: &R,
        message: Message,
    ) -> Result<WrittenAndFlushed, NotWritten>
        ensures under { UnderLock self.old (WritesAndFlushes message result) self.new }
        ensures covered { IfErr result (λ refused. IsUncoveredOnlyWithin refused.why self.old.budget) }
    {
        self.caller.call(rt, WriteAndFlush(message))
    }

    /// Writes as `write_copy`, and flushes, as `write_and_flush`.
    #[inline(always)]
    pub fn write_copy_and_flush<R: Wait>(
        &mut self,
        rt: &R,
        bytes: &[u8],
    ) -> Result<WrittenAndFlushed, WriteFault>
        ensures under { UnderLock self.old (PutsAndFlushes (Block bytes.now) result) self.new }
        ensures covered { IfErr result (λ refused. IsUncoveredOnlyWithin refused self.old.budget) }
    {
        self.caller.call(rt, WriteCopyAndFlush(bytes))
    }

    /// Lets the transport have all that was written so far, as `Connection::flush`.
    #[inline(always)]
    pub fn flush<R: Wait>(&mut self, rt: &R) -> Result<Flushed, Refusal>
        ensures { UnderLock self.old (Makes (ObeyingFreely flushed_reply) command.Flush result) self.new }
    {
        self.caller.call(rt, commands::Flush)
    }

    /// Adds *n* bytes to the progress of the first flushed message, as `Connection::progress`.
    #[inline(always)]
    pub fn progress<R: Wait>(&mut self, rt: &R, n: u64) -> Result<(), Refusal>
        ensures { UnderLock self.old (Makes (ObeyingFreely done_reply) (command.Progress n) result) self.new }
    {
        self.caller.call(rt, commands::Progress(n))
    }

    /// Takes a promise back, as `Connection::cancel`.
    #[inline(always)]
    pub fn cancel<R: Wait>(&mut self, rt: &R, id: u64) -> Result<bool, Refusal>
        ensures { UnderLock self.old (Makes (ObeyingFreely (cancelled_reply id)) (command.Cancel (record { 0 = id })) result) self.new }
    {
        self.caller.call(rt, commands::Cancel(id))
    }

    /// Closes the connection for good, as `Connection::close`.
    #[inline(always)]
    pub fn close<R: Wait>(&mut self, rt: &R, cause: Cause) -> Result<Taken, Refusal>
        ensures { UnderLock self.old (Makes (TakingQuietly (Failed cause) ⊤) (command.Close cause) result) self.new }
    {
        self.caller.call(rt, commands::Close(cause))
    }

    /// Sets a user bit or clears it, as `Connection::user_bit`.
    #[inline(always)]
    pub fn user_bit<R: Wait>(
        &mut self,
        rt: &R,
        index: u32,
        writable: bool,
    ) -> Result<Option<Change>, Refusal>
        ensures { UnderLock self.old (Makes (ObeyingFreely bit_reply) (command.UserBit index writable) result) self.new }
    {
        self.caller.call(rt, commands::UserBit(index, writable))
    }

    /// Sets the marks that are in force from now on, as `Connection::set_marks`.
    #[inline(always)]
    pub fn set_marks<R: Wait>(&mut self, rt: &R, marks: WaterMark) -> Result<(), Refusal>
        ensures { UnderLock self.old (Makes (ObeyingFreely done_reply) (command.SetMarks marks) result) self.new }
    {
        self.caller.call(rt, commands::SetMarks(marks))
    }
}
