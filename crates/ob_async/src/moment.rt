/// What a task finds that has waited.
#[must_use]
#[derive(Clone, Copy, Debug, PartialEq, Eq)]
pub enum Moment {
    /// What it waited for: the connection is writable, or a flushed message is there. It is not closed.
    Ready,
    /// The connection is closed.
    Closed,
}
