//! The looks at a buffer: at its state, at its promises and at its messages.

ghost use Rattle.std.specs.Option.{option_copied};
ghost use Rattle.std.specs.Prelude.{◌≡◌, ◌<◌, ◌≤◌, [], List, length, IfOk, IfErr, IsOk};
ghost use Rattle.ob_types.specs.Limits.{most_writes};
ghost use Rattle.ob_types.specs.declared.command.Command.{Command};
ghost use Rattle.ob_seq.specs.Looks.{current_after, flushed_after, front_promise_after, gathered_after, look_after, promise_after};
ghost use Rattle.ob_seq.specs.Pending.{Gives, StandsFor};
ghost use Rattle.ob_seq.specs.Steps.Step.{state_at};
ghost use Rattle.ob_seq.specs.State.{writable_after, empty_after, closed_after, user_writable_after, writes_left_after};

use crate::buffer::{Buffer, MAX_WRITES};
use crate::contents::word;
use crate::flushed::Flushed;
use crate::look::Look;
use bytes::Bytes;
use ob_types::{Message, PromiseId, PromiseState, Refusal};

impl Buffer {
    /// What is pending now. It changes nothing, takes the same few steps whatever is pending, and does not allocate.
    pub fn look(&self) -> Look
        ensures { Gives self.now look_after result }
    {
        let contents = &self.contents;
        Look {
            total: contents.total(),
            word: contents.word(),
            size: contents.line_count() as u32,
            before_unwritable: contents.before_unwritable(),
            before_writable: contents.before_writable(),
            current_progress: contents.current_progress(),
        }
    }

    /// Whether writers may go on: whether neither the mark nor a user bit is set, so that the word is 0 (Netty's
    /// `isWritable`). A close leaves it as it was. It does not allocate.
    pub fn is_writable(&self) -> bool
        ensures { Gives self.now writable_after result }
    {
        self.contents.word() == 0
    }

    /// Whether no message is flushed and not yet removed, voided ones too (Netty's `isEmpty`). As in Netty, messages
    /// that no flush has reached are not asked for. It does not allocate.
    pub fn is_empty(&self) -> bool
        ensures { Gives self.now empty_after result }
    {
        self.contents.line_count() == 0
    }

    /// Whether a close was accepted: from then on each command is refused as `Closed`. It does not allocate.
    pub fn is_closed(&self) -> bool
        ensures { Gives self.now closed_after result }
    {
        self.contents.is_closed()
    }

    /// Whether the user bit of this index is clear (Netty's `getUserDefinedWritability`). The indexes are 1 to 31; of
    /// any other index no user bit is ever set, so it returns true; Netty throws. It does not allocate.
    pub fn user_defined_writability(&self, index: u32) -> bool
        ensures { Gives self.now (user_writable_after index) result }
    {
        if index == 0 || index > 31 {
            return true;
        }
        !word::has_bit(self.contents.word(), index)
    }

    /// How many more writes can be accepted: 1048576 less those that were accepted from the opening on, and 0 once the
    /// buffer is closed. Removals give none back. It does not allocate.
    pub fn writes_left(&self) -> u32
        ensures { Gives self.now writes_left_after result }
    {
        if self.contents.is_closed() {
            return 0;
        }
        (MAX_WRITES - self.promise_count()) as u32
    }

    /// What has become of a promise, or nothing if no write was accepted under the id. It takes the same few steps
    /// whatever is pending, at most 20 more if the message is gone, and does not allocate.
    pub fn promise(&self, id: PromiseId) -> Option<PromiseState>
        ensures { Gives self.now (λ settings commands. promise_after settings commands id) result }
    {
        let at = id.0 as usize;
        if at < self.promise_count() {
            Some(self.state_at(at))
        } else {
            None
        }
    }

    /// What is left of the first flushed message: the unread part of a block, which is empty if the message was voided
    /// (Netty's `current`). It takes the same few steps whatever is pending, and does not allocate.
    pub fn current(&self) -> Option<&Message>
        ensures { Gives self.now current_after (option_copied result) }
    {
        self.contents.current()
    }

    /// The promise of the first flushed message, which is the one that `current` shows; none exactly if `current` is none.
    /// A removal settles it next, unless the message was voided. Netty keeps it in the entry of `current()`. It takes
    /// the same few steps whatever is pending, and does not allocate.
    pub fn front(&self) -> Option<PromiseId>
        ensures { Gives self.now front_promise_after result }
    {
        if self.contents.line_count() == 0 {
            return None;
        }
        Some(PromiseId(self.gone.len() as u32))
    }

    /// What is left of each flushed message that was not voided, oldest first (Netty's `forEachFlushedMessage`). It
    /// does not allocate, and the iterator goes over what it gives and over the voided messages that it passes.
    pub fn flushed(&self) -> Flushed<'_>
        ensures { Gives self.now flushed_after result }
    {
        self.contents.to_send()
    }

    /// The flushed blocks in front that can be sent at once (Netty's `nioBuffers`): those that hold a byte, up to the
    /// first message that is no block, at most `max_count` of them, and together at most `max_bytes` bytes; but the
    /// first of them however long it is, and none if `max_count` is 0. They share their memory with the buffer, which
    /// stays as it is.
    ///
    /// It goes over the blocks that it gives and the empty ones that it passes, and allocates the list alone.
    /// `NoMemory` comes only if the allocator refused or a block has more owners than can be counted, and never if
    /// nothing is gathered.
    pub fn gather(&self, max_count: u32, max_bytes: u32) -> Result<Vec<Bytes>, Refusal>
        ensures blocks { IfOk result (λ blocks.
            Gives self.now (λ settings commands. gathered_after settings commands max_count max_bytes) blocks.items) }
        ensures no_memory { IfErr result (λ refusal. refusal ≡ Refusal.NoMemory) }
        ensures frugal { (commands : List Command) → StandsFor self.now commands
            → gathered_after self.now.settings commands max_count max_bytes ≡ [] → IsOk result }
    {
        self.contents.gather(max_count, max_bytes)
    }

    /// How many promises were given.
    pub(super) fn promise_count(&self) -> usize
        ensures count { result ≡ length self.now.promises }
        ensures few { result ≤ most_writes }
    {
        self.gone.len() + self.contents.count()
    }

    /// The state of the promise with this id.
    pub(super) fn state_at(&self, id: usize) -> PromiseState
        requires { id < length self.now.promises }
        ensures { result ≡ state_at self.now id }
    {
        let gone = self.gone.len();
        if id < gone {
            return PromiseState::Settled(self.gone.at(id));
        }
        self.contents.state_at(id - gone)
    }
}
