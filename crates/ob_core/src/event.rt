use crate::ask_fault::AskFault;

/// What a lane did in its turn: one atomic step on the one word, or none.
#[derive(Clone, Copy, Debug, PartialEq, Eq)]
pub enum Event {
    /// The total rose by a charge, and bit 0 of the word was set if that passed the high mark.
    Added,
    /// The total fell by what the lane owed, and bit 0 of the word was cleared if that came below the low mark.
    Subtracted,
    /// A user bit was set, also if it was set before.
    BitSet,
    /// A user bit was cleared, also if it was clear before.
    BitCleared,
    /// The word was read.
    ReadWord,
    /// The total was read.
    ReadTotal,
    /// A charge of 0, or the discharge of one: the word was not touched.
    Nothing,
    /// The ask was refused, and nothing changed.
    Refused(AskFault),
}
