/// What can be seen of a buffer at a glance, as one atomic load gives it.
#[derive(Clone, Copy, Debug, PartialEq, Eq)]
pub struct Glance {
    /// 0 if the buffer is writable; bit 0 is the mark, bits 1 to 31 are the user bits.
    pub word: u32,
    /// The pending bytes, with the overheads.
    pub total: u32,
}
