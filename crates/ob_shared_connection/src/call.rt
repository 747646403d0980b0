use ob_types::Command;

/// A call that was accepted: which handle made it, and what it asked. No value of it is made: it stands in contracts and
/// proofs alone.
pub struct Call {
    /// The number of the handle.
    pub caller: u64,
    pub command: Command,
}
