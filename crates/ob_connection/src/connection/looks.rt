//! The looks at the messages of a connection.

ghost use Rattle.std.specs.Io.Slices.{io_slice_bytes};
ghost use Rattle.std.specs.Option.{option_copied};
ghost use Rattle.std.specs.Prelude.{◌≡◌, ◌≤◌, [], List, length, map, take, drop, IfOk, IfErr, IsOk};
ghost use Rattle.ob_types.specs.declared.command.Command.{Command};
ghost use Rattle.ob_seq.specs.Looks.{gathered_after};
ghost use Rattle.ob_connection.specs.Connected.{AreFlushed, AreGathered, IsCurrent, IsFrontPromise, StandsFor};

use crate::connection::Connection;
use bytes::Bytes;
use ob_seq::Flushed;
use ob_types::{Message, Refusal};
use std::io::IoSlice;

impl Connection {
    /// What is left of the first flushed message: the unread part of a block, which is empty if the message was voided
    /// (Netty's `current`). It takes the same few steps whatever is pending, and does not allocate.
    pub fn current(&self) -> Option<&Message>
        ensures { IsCurrent self.now (option_copied result) }
    {
        self.contents.current()
    }

    /// The promise of the first flushed message, which is the one that `current` shows; none exactly if `current` is none.
    /// A removal settles it next, unless the message was voided. It takes the same few steps whatever is pending, and
    /// does not allocate.
    pub fn front(&self) -> Option<u64>
        ensures { IsFrontPromise self.now result }
    {
        if self.contents.line_count() == 0 {
            return None;
        }
        Some(self.gone)
    }

    /// What is left of each flushed message that was not voided, oldest first (Netty's `forEachFlushedMessage`). It
    /// does not allocate, and the iterator goes over what it gives and over the voided messages that it passes.
    pub fn flushed(&self) -> Flushed<'_>
        ensures { AreFlushed self.now result }
    {
        self.contents.to_send()
    }

    /// The flushed blocks in front that can be sent at once (Netty's `nioBuffers`): those that hold a byte, up to the first
    /// message that is no block, at most `max_count` of them, and together at most `max_bytes` bytes; but the first of them
    /// however long it is, and none if `max_count` is 0. They share their memory with the connection, which stays as it is.
    ///
    /// It goes over the blocks that it gives and the empty ones that it passes, and allocates the list alone.
    /// `NoMemory` comes if the allocator refused or a block has more owners than can be counted, and not if nothing is
    /// gathered.
    pub fn gather(&self, max_count: u32, max_bytes: u32) -> Result<Vec<Bytes>, Refusal>
        ensures blocks { IfOk result (λ blocks. AreGathered self.now max_count max_bytes blocks.items) }
        ensures no_memory { IfErr result (λ refusal. refusal ≡ Refusal.NoMemory) }
        ensures frugal { (commands : List Command) → StandsFor self.now commands
            → gathered_after self.now.unsent.settings commands max_count max_bytes ≡ [] → IsOk result }
    {
        self.contents.gather(max_count, max_bytes)
    }

    /// Puts the blocks that `gather` gives for as many as there are pieces into these pieces, from the first on, and
    /// returns how many they are. The other pieces stay as they were. It borrows the blocks, so it does not allocate,
    /// counts up no owner, and the connection cannot change while the pieces are in use. A vectored write takes such
    /// pieces.
    pub fn gather_into<'a>(&'a self, pieces: &mut [IoSlice<'a>], max_bytes: u32) -> usize
        ensures blocks { AreGathered self.now (length pieces.old) max_bytes
            (map io_slice_bytes (take result pieces.new)) }
        ensures within { result ≤ length pieces.old }
        ensures rest { drop result pieces.new ≡ drop result pieces.old }
    {
        self.contents.gather_into(pieces, max_bytes)
    }
}
