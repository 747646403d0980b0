ghost use Rattle.ob_connection.specs.Connected.{Connected};

use ob_connection::Connection;

/// What a handle looks at under the lock.
pub trait Ask {
    /// What it sees.
    type Answer;

    /// What that shows of the connection, as the sequential look promises it.
    ghost shows: { Self → Connected → Self.Answer → Type 0 };

    fn ask(self, connection: &Connection) -> Self::Answer
        ensures { shows self connection.now result };
}
