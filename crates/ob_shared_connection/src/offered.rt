use bytes::Bytes;
use ob_connection::Sent;

/// How many pieces a socket is offered at once, at most: what one call of Linux takes.
pub const MOST_PIECES: usize = 1024;

/// What a transport finds to offer under the lock.
#[derive(Drop)]
pub enum Offered {
    /// Nothing: the empty messages in front are taken away.
    Nothing(Sent),
    /// These blocks.
    Blocks(Vec<Bytes>),
}
