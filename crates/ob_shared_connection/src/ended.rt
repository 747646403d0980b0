use ob_connection::Connection;
use ob_covered::Cover;

/// A connection whose handles have ended.
#[derive(Drop)]
pub struct Ended {
    /// What the calls left of it, if `is_left` is set.
    pub connection: Connection,
    /// The cover of what was pending, if it was opened within a budget. It holds what it held.
    pub cover: Option<Cover>,
    /// How many handles there ever were: those that the last one stands for, if it had the whole share again.
    pub handles: u64,
    /// Whether nobody had the lock, as is so if the last handle had the whole share again. A guard that is forgotten has a
    /// part of the connection, so that no handle ends it.
    pub is_left: bool,
}
