use std::io;

/// What to do for a connection next: each pattern that sends returns it. Whether to read from the peer is not in it:
/// ask `is_writable`.
#[derive(Clone, Copy, Debug)]
pub enum Next {
    /// All that is flushed is sent: ask for readiness to write no more.
    Rest,
    /// The socket has no room: ask for readiness to write, and send again when it comes.
    WaitForRoom,
    /// There may be more to do at once: come again after the other connections had their turn. No event will say so.
    ComeAgain,
    /// A region or another message is in front: look at `current`, send it by your own means, and `remove` it.
    SendFront,
    /// The connection was closed before: drop it and its socket.
    Closed,
    /// The socket is broken, with its own error, and the connection was given up: drop both.
    Broken(io::Error),
}
