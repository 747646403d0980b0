//! Messages that are written as bytes, and what all writes share.

ghost use Rattle.std.specs.Prelude.{◌≡◌, ◌<◌, ℕ, List, length, Ok, Some, None, IfErr, IfSome, IsErrOf, OnOk, true};
ghost use Rattle.std.specs.Result.{result_err};
ghost use Rattle.ob_types.specs.Limits.{greatest_pending_size};
ghost use Rattle.ob_types.specs.declared.command.Command.TheVariants.{Write};
ghost use Rattle.ob_types.specs.declared.message.Message.TheVariants.{Block};
ghost use Rattle.ob_seq.specs.Unsent.{room_for_one_more, spares};
ghost use Rattle.ob_connection.specs.Connected.{room_in, Refuses};
ghost use Rattle.ob_connection.specs.Inside.{admission};
ghost use Rattle.ob_connection.specs.Obeying.{Obeys, answer_of_write, joined, written_reply};

use crate::connection::Connection;
use crate::refused::Refused;
use crate::replies::Written;
use bytes::Bytes;
use ob_types::{Message, Refusal, pending_size, pending_size_of_length};

/// The most writes that a connection accepts.
const MAX_WRITES: u64 = 18446744073709551615;

impl Connection {
    /// Adds a copy of these bytes behind all others, as `write` adds a block, and returns its promise. Small messages
    /// that wait together share memory: once four wait, or if those before took 1 KiB together, up to 2048 bytes are copied into
    /// a chunk of 1 to 16 KiB, which lives as long as the last message in it; any other message takes memory of its own. Our own.
    ///
    /// Refusals are those of `write`, in its order, and come before anything is copied; `NoMemory` comes also if the
    /// allocator refused the memory of the copy.
    pub fn write_copy(&mut self, bytes: &[u8]) -> Result<Written, Refusal>
        ensures obeys { Obeys self.old (Write (Block bytes.now)) written_reply result self.new }
        ensures room { OnOk result (room_in self.new ≡ room_for_one_more self.old.unsent) }
    {
        let size = self.admits_block(bytes.len())?;
        let block = self.chunks.copy(bytes, self.contents.count())?;
        self.put_block(block, size)
    }

    /// Adds the bytes of a block behind all others, as `write` adds it, and returns its promise: the message shares the
    /// block, and no byte is copied. Our own.
    ///
    /// Refusals are those of `write`, in its order, and come before the block is shared; `NoMemory` comes also if the block
    /// has more owners than can be counted.
    #[inline(always)]
    pub fn write_shared(&mut self, block: &Bytes) -> Result<Written, Refusal>
        ensures obeys { Obeys self.old (Write (Block block.now)) written_reply result self.new }
        ensures room { OnOk result (room_in self.new ≡ room_for_one_more self.old.unsent) }
    {
        let size = self.admits_block(block.len())?;
        let shared = block.clone()?;
        self.put_block(shared, size)
    }

    /// Adds a copy of these parts behind all others as one block, one part behind the other, as a header and a body; else
    /// as `write_copy`.
    pub fn write_parts(&mut self, parts: &[&[u8]]) -> Result<Written, Refusal>
        ensures obeys { Obeys self.old (Write (Block (joined parts.now))) written_reply result self.new }
        ensures room { OnOk result (room_in self.new ≡ room_for_one_more self.old.unsent) }
    {
        let Some(count) = length_of_parts(parts) else {
            return Err(self.refusal_of_too_long());
        };
        let size = self.admits_block(count)?;
        let block = self.chunks.copy_parts(parts, count, self.contents.count())?;
        self.put_block(block, size)
    }

    /// Why a block is refused that is longer than any message may be.
    fn refusal_of_too_long(&self) -> Refusal
        ensures first { (bytes : List ℕ) → greatest_pending_size < length bytes
            → Refuses self.now (Write (Block bytes)) (Some result) }
        ensures other { ¬ (result ≡ Refusal.NoMemory) }
    {
        if self.is_closed() {
            Refusal::Closed
        } else {
            Refusal::Oversize
        }
    }

    /// What this message counts, unless anything but lack of memory refuses its write.
    #[inline(always)]
    pub(super) fn admits(&self, message: &Message) -> Result<u32, Refusal>
        ensures { result ≡ admission self.now message.now }
    {
        let size = pending_size(message, self.contents.estimate());
        self.contents
            .admits(size, self.accepted_writes(), MAX_WRITES)
    }

    /// What a block of *n* bytes counts, unless anything but lack of memory refuses its write.
    #[inline(always)]
    pub(super) fn admits_block(&self, n: usize) -> Result<u32, Refusal>
        ensures admits { (bytes : List ℕ) → length bytes ≡ n → result ≡ admission self.now (Block bytes) }
        ensures first { (bytes : List ℕ) → length bytes ≡ n → Refuses self.now (Write (Block bytes)) (result_err result) }
        ensures other { ¬ IsErrOf result Refusal.NoMemory }
    {
        let size = pending_size_of_length(n as u64, self.contents.estimate());
        self.contents
            .admits(size, self.accepted_writes(), MAX_WRITES)
    }

    /// Writes a message that is admitted and counts `size`.
    #[inline(always)]
    pub(super) fn put(&mut self, message: Message, size: u32) -> Result<Written, Refused>
        requires { admission self.old message ≡ Ok size }
        ensures obeys { Obeys self.old (Write message) written_reply (answer_of_write result) self.new }
        ensures room { OnOk result (room_in self.new ≡ room_for_one_more self.old.unsent) }
        ensures spares { spares self.old.unsent ≡ true → ¬ IsErrOf (answer_of_write result) Refusal.NoMemory }
        ensures returned { IfErr result (λ refused. refused.message ≡ message) }
    {
        let id = self.accepted_writes();
        let change = match self.contents.add(message, size) {
            Ok(change) => change,
            Err(message) => {
                return Err(Refused {
                    refusal: Refusal::NoMemory,
                    message,
                });
            }
        };
        Ok(Written { id, change })
    }

    /// Writes a block that is admitted and counts `size`; it is let go if that is refused.
    #[inline(always)]
    fn put_block(&mut self, block: Bytes, size: u32) -> Result<Written, Refusal>
        requires { admission self.old (Block block) ≡ Ok size }
        ensures obeys { Obeys self.old (Write (Block block)) written_reply result self.new }
        ensures room { OnOk result (room_in self.new ≡ room_for_one_more self.old.unsent) }
    {
        self.put(Message::Block(block), size)
            .map_err(|refused| refused.refusal)
    }
}

/// How many bytes these parts are together, as one block of `Connection::write_parts`, or nothing if that is more than any
/// message may have and no `usize` holds it. With `refusal_of_length` it tells before such a write why it would be refused.
/// It goes over the parts and not over their bytes, and does not allocate. Our own.
pub fn length_of_parts(parts: &[&[u8]]) -> Option<usize>
    ensures some { IfSome result (λ count. count ≡ length (joined parts.now)) }
    ensures none { result ≡ None → greatest_pending_size < length (joined parts.now) }
{
    let mut count: usize = 0;
    for part in parts {
        let Some(more) = count.checked_add(part.len()) else {
            return None;
        };
        count = more;
    }
    Some(count)
}
