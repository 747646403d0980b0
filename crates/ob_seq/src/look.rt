/// What a look at a buffer shows.
#[derive(Clone, Copy, Debug, PartialEq, Eq)]
pub struct Look {
    /// The pending bytes (Netty's `totalPendingWriteBytes`).
    pub total: u32,
    /// Bit 0 is the mark, bit i the user bit i. The buffer is writable exactly if the word is 0 (Netty's `isWritable`).
    pub word: u32,
    /// How many messages are flushed and not removed (Netty's `size`).
    pub size: u32,
    /// How many bytes more make a writable buffer unwritable, else 0 (Netty's `bytesBeforeUnwritable`).
    pub before_unwritable: u32,
    /// How many bytes fewer bring an unwritable buffer below the low mark, and one more than are pending if that mark
    /// is 0, at most 4294967295 (Netty's `bytesBeforeWritable`); 0 if it is writable or below.
    pub before_writable: u32,
    /// The progress of the first flushed message, or 0 if there is none (Netty's `currentProgress`).
    pub current_progress: u64,
}
