ghost use Rattle.std.specs.Prelude.{◌≡◌};
ghost use Rattle.ob_shared_connection.specs.Values.{is_due};

/// What a handle that waits finds under the lock.
#[derive(Clone, Copy, Debug, PartialEq, Eq)]
pub enum Moment {
    /// What it waited for is there: the connection is writable, or has a flushed message.
    Ready,
    /// The connection is closed, so that does not come any more.
    Closed,
    /// Neither is so, and the time is over.
    NotYet,
}

impl Moment {
    /// Whether the wait is over, other than by its time.
    pub fn is_due(self) -> bool
        ensures { result ≡ is_due self }
    {
        match self {
            Moment::Ready | Moment::Closed => true,
            Moment::NotYet => false,
        }
    }
}
