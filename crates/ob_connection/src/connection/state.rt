//! The looks at the state of a connection.

ghost use Rattle.std.specs.Prelude.{◌≡◌, ℕ, List, length, Some};
ghost use Rattle.ob_types.specs.declared.command.Command.TheVariants.{Write};
ghost use Rattle.ob_types.specs.declared.message.Message.TheVariants.{Block};
ghost use Rattle.ob_seq.specs.State.{marks_after, writable_after, empty_after, closed_after};
ghost use Rattle.ob_seq.specs.Unsent.{HoldsLittleMore, spares, waiting_count};
ghost use Rattle.ob_connection.specs.Connected.{room_in, Gives};
ghost use Rattle.ob_connection.specs.Connected.{Refuses, Shows, Tells, unflushed_count_after, waiting_count_after};

use crate::connection::Connection;
use crate::look::Look;
use crate::status::Status;
use ob_types::{Estimate, Refusal, WaterMark};

impl Connection {
    /// What is pending now. It changes nothing, takes the same few steps whatever is pending, and does not allocate.
    pub fn look(&self) -> Look
        ensures { Shows self.now result }
    {
        let contents = &self.contents;
        Look {
            total: contents.total(),
            word: contents.word(),
            size: contents.line_count() as u64,
            before_unwritable: contents.before_unwritable(),
            before_writable: contents.before_writable(),
            current_progress: contents.current_progress(),
        }
    }

    /// Whether writers may go on: whether neither the mark nor a user bit is set, so that the word is 0 (Netty's
    /// `isWritable`). A close leaves it as it was. It does not allocate.
    pub fn is_writable(&self) -> bool
        ensures { Gives self.now writable_after result }
    {
        self.contents.word() == 0
    }

    /// Whether no message is flushed and not yet removed, voided ones too (Netty's `isEmpty`). As in Netty, messages
    /// that no flush has reached are not asked for. It does not allocate.
    pub fn is_empty(&self) -> bool
        ensures { Gives self.now empty_after result }
    {
        self.contents.line_count() == 0
    }

    /// How many messages no flush has reached. It does not allocate. Netty shows them to nobody; our own.
    pub fn unflushed_count(&self) -> u64
        ensures { Gives self.now unflushed_count_after result }
    {
        self.contents.unflushed_count() as u64
    }

    /// How many messages wait: those that are flushed and not yet removed, voided ones too, and those that no flush has
    /// reached. If it is 0 nothing that was accepted is left. It does not allocate. Our own.
    pub fn waiting_count(&self) -> u64
        ensures { Gives self.now waiting_count_after result }
    {
        self.contents.count() as u64
    }

    /// How many messages may wait before memory is taken for one more. A message takes one place of 64 bytes as long as it
    /// waits. A write takes memory for places only if none is left: for the next of 4, 16, 32, 64 and 128 in all, for 32 if the 3
    /// that many left are full, or for 128 more if as many wait. It does not allocate. Our own.
    pub fn room(&self) -> usize
        ensures { result ≡ room_in self.now }
    {
        self.contents.room()
    }

    /// Whether a place is left for one more message, so that `write` is not out of memory. It does not allocate. Our own.
    #[inline(always)]
    pub fn has_place(&self) -> bool
        ensures { result ≡ spares self.now.unsent }
    {
        self.contents.has_place()
    }

    /// For how many messages it holds places of 64 bytes: for those for which there is room, and for 128 more at most, which are
    /// left by messages that are gone. If nothing waits it is as much as there is room for. It does not allocate. Our own; Rust's
    /// `capacity`.
    pub fn capacity(&self) -> usize
        ensures value { result ≡ self.now.unsent.capacity }
        ensures little_more { HoldsLittleMore (waiting_count self.now.unsent) (room_in self.now) self.now.unsent.capacity }
    {
        self.contents.capacity()
    }

    /// The marks in force: those of the last `set_marks`, and before it those of the opening. It does not allocate.
    pub fn marks(&self) -> WaterMark
        ensures { Gives self.now marks_after result }
    {
        self.contents.marks()
    }

    /// By what messages are counted: the estimate of the opening. It does not allocate.
    pub fn estimate(&self) -> Estimate
        ensures { result ≡ self.now.unsent.settings.estimate }
    {
        self.contents.estimate()
    }

    /// Whether a close was accepted: from then on each command is refused as `Closed`. It does not allocate.
    pub fn is_closed(&self) -> bool
        ensures { Gives self.now closed_after result }
    {
        self.contents.is_closed()
    }

    /// Why a write of these bytes as a block would be refused now, or nothing if it would be accepted while there is
    /// memory: `Closed`, then `Oversize`, then `TooMuch`, as `write` has it. It copies nothing and does not allocate: ask it
    /// before the bytes are copied into a block. Our own.
    pub fn refusal_of_block(&self, bytes: &[u8]) -> Option<Refusal>
        ensures first { Refuses self.now (Write (Block bytes.now)) result }
        ensures other { ¬ (result ≡ Some Refusal.NoMemory) }
    {
        self.refusal_of_length(bytes.len())
    }

    /// As `refusal_of_block`, of any block of *n* bytes.
    pub fn refusal_of_length(&self, n: usize) -> Option<Refusal>
        ensures first { (bytes : List ℕ) → length bytes ≡ n → Refuses self.now (Write (Block bytes)) result }
        ensures other { ¬ (result ≡ Some Refusal.NoMemory) }
    {
        self.admits_block(n).err()
    }

    /// What has become of a promise, or nothing if no write was accepted under the id. It takes the same few steps
    /// whatever is pending, and does not allocate.
    pub fn promise(&self, id: u64) -> Option<Status>
        ensures { Tells self.now id result }
    {
        if id >= self.accepted_writes() {
            return None;
        }
        if id < self.gone {
            return Some(Status::SettledBefore);
        }
        let place = (id - self.gone) as usize;
        Some(Status::of(self.contents.state_at(place)))
    }
}
