/// How pressure changed.
#[derive(Clone, Copy, Debug, PartialEq, Eq)]
pub enum Pressure {
    /// The total came above the high mark, and had been below the low mark before, or pressure had never begun.
    Began,
    /// The total came below the low mark.
    Ended,
}

/// What one step has seen of a budget.
#[derive(Clone, Copy, Debug, PartialEq, Eq)]
pub struct Look {
    /// The bytes that all seats held.
    pub total: u64,
    /// Whether pressure stood.
    pub is_pressed: bool,
}
