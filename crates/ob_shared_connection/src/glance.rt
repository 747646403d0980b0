/// What is seen of a connection without its lock.
#[derive(Clone, Copy, Debug, PartialEq, Eq)]
pub struct Glance {
    /// Bit 0 is the mark, bit i the user bit i. The connection is writable if the word is 0 (Netty's `isWritable`).
    pub word: u32,
    /// The pending bytes (Netty's `totalPendingWriteBytes`).
    pub total: u32,
}
