ghost use Rattle.std.specs.Prelude.{◌≡◌, false, IsOk, IfOk};
ghost use Rattle.ob_types.specs.Traits.{writes_block};

use crate::message::Message;
use crate::promise::{Cause, PromiseId};
use crate::water_mark::WaterMark;
use std::alloc::AllocError;

/// One call of a buffer.
#[derive(Debug, Drop, PartialEq, Eq)]
pub enum Command {
    /// Adds a message behind all others (Netty's `addMessage`).
    Write(Message),
    /// Lets the transport have all that was written so far (Netty's `addFlush`).
    Flush,
    /// Takes the first flushed message away, as sent (Netty's `remove()`).
    Remove,
    /// Takes the first flushed message away, as failed for this cause (Netty's `remove(Throwable)`).
    RemoveWith(Cause),
    /// Takes *n* bytes off the front of the flushed messages, as sent (Netty's `removeBytes`).
    RemoveBytes(u64),
    /// Adds *n* bytes to the progress of the first flushed message (Netty's `progress`).
    Progress(u64),
    /// Takes a promise back, unless a flush has fixed it (Netty's `Future.cancel`).
    Cancel(PromiseId),
    /// Takes all flushed messages away, as failed for this cause; the pending bytes fall with notice if the second is
    /// set, else without (Netty's `failFlushed`).
    FailFlushed(Cause, bool),
    /// Takes all messages away that no flush has reached, fails for this cause those of their promises that still wait,
    /// and refuses every later command (Netty's `close`).
    Close(Cause),
    /// Clears the user bit of this index if the second is set, else sets it (Netty's
    /// `setUserDefinedWritability`).
    UserBit(u32, bool),
    /// Sets the marks that are in force from then on, for later moments and looks. It moves no bit of the word itself
    /// (Netty's `setWriteBufferWaterMark` on an open channel).
    SetMarks(WaterMark),
}

impl Command {
    /// The same command. It fails only if the copy of its message does: for a write of a block alone.
    // in one piece with its callers, so that the copy is not passed through memory
    #[inline(always)]
    pub fn copy(&self) -> Result<Command, AllocError>
        ensures same { IfOk result (λ copy. copy ≡ self.now) }
        ensures succeeds { writes_block self.now ≡ false → IsOk result }
    {
        Ok(match self {
            Command::Write(message) => Command::Write(message.copy()?),
            Command::Flush => Command::Flush,
            Command::Remove => Command::Remove,
            Command::RemoveWith(cause) => Command::RemoveWith(*cause),
            Command::RemoveBytes(n) => Command::RemoveBytes(*n),
            Command::Progress(n) => Command::Progress(*n),
            Command::Cancel(id) => Command::Cancel(*id),
            Command::FailFlushed(cause, notify) => Command::FailFlushed(*cause, *notify),
            Command::Close(cause) => Command::Close(*cause),
            Command::UserBit(index, writable) => Command::UserBit(*index, *writable),
            Command::SetMarks(marks) => Command::SetMarks(*marks),
        })
    }
}
