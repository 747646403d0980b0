use crate::bounds::Bounds;

/// What a seat knows of itself, which no other seat changes. No value of it is made: it stands in contracts alone.
pub struct Account {
    /// What the budget was opened with.
    pub bounds: Bounds,
    /// The bytes that the seat holds.
    pub held: u64,
    /// How many seats it is for, itself included.
    pub seats: u64,
    /// How often it has told that pressure began.
    pub began: u64,
    /// How often it has told that pressure ended.
    pub ended: u64,
    /// The one word as its own last step left it.
    pub last: u64,
    /// How many steps it has made on the word.
    pub steps: u64,
    /// How many of them were exchanges that found another word than its step before had left.
    pub lost: u64,
}
