ghost use Rattle.std.specs.Prelude.{◌≡◌, false, IsOk, IfOk};
ghost use Rattle.ob_types.specs.Traits.{is_block};

use bytes::Bytes;
use std::alloc::AllocError;

/// What an application writes to a channel.
#[derive(Debug, Drop, PartialEq, Eq)]
pub enum Message {
    /// Bytes to be sent. The memory is shared with whoever else holds the `Bytes`.
    Block(Bytes),
    /// *n* bytes of something that the transport sends by itself, as a part of a file (Netty's `FileRegion`).
    Region(u64),
    /// Any other message, by a number that means something to the application alone.
    Other(u32),
}

impl Message {
    /// The same message. A block shares its memory with the copy: no byte of it is copied, and nothing is allocated.
    ///
    /// It fails for a block alone, if more share it than can be counted. The allocator's error stands for that.
    // in one piece with its callers, so that the copy is not passed through memory
    #[inline(always)]
    pub fn copy(&self) -> Result<Message, AllocError>
        ensures same { IfOk result (λ copy. copy ≡ self.now) }
        ensures succeeds { is_block self.now ≡ false → IsOk result }
    {
        Ok(match self {
            Message::Block(bytes) => Message::Block(bytes.clone()?),
            Message::Region(length) => Message::Region(*length),
            Message::Other(value) => Message::Other(*value),
        })
    }
}
