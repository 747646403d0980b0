use ob_budget::RaiseFault;

/// An act that was not made, since the budget of its connection did not cover what it writes. It comes back, with its
/// message, and nothing changed.
#[derive(Debug, Drop)]
pub struct OverBudget<A> {
    /// Why the seat was not raised.
    pub fault: RaiseFault,
    /// The act.
    pub act: A,
}
