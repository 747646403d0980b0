//! What a connection sends to.

ghost use Rattle.std.specs.Io.Slices.{io_slice_bytes, io_slices_bytes};
ghost use Rattle.std.specs.Prelude.{◌≡◌, ◌≤◌, [], ◌∷◌, List, ℕ, length, map, take, Option, IfOk, OnErr};
ghost use Rattle.ob_connection.specs.Calls.{Call, IsFaultOf, with_more};

use std::io;
use std::io::IoSlice;
use thiserror::Error;

/// Why a socket took nothing.
#[derive(Clone, Copy, Debug, Error)]
pub enum SocketFault {
    /// It has no room now: it is to be written to again when it is ready.
    #[error("the socket has no room")]
    Blocked,
    /// It is broken, with its own error: it takes nothing any more.
    #[error("the socket is broken: {0}")]
    Broken(io::Error),
}

/// A call that would have blocked found no room, and any other error broke the socket. A call that was interrupted
/// (`EINTR`) took nothing and is to be made again, so a socket does that itself.
impl From<io::Error> for SocketFault {
    ghost from_gives = { λ error fault. IsFaultOf error fault };

    fn from(error: io::Error) -> SocketFault {
        if error.kind() == io::ErrorKind::WouldBlock {
            SocketFault::Blocked
        } else {
            SocketFault::Broken(error)
        }
    }
}

/// A socket that does not block.
///
/// A call takes a beginning of what it is given, which may be all of it or nothing. A call that fails takes nothing.
///
/// The two ghosts are for contracts alone: what a connection promises of its sending is said by them. A socket that
/// reports nothing has `{ λ _. None }` for either, and what is promised of the connection itself holds all the same.
pub trait Socket {
    /// The bytes that it took so far, of a socket that reports them, as one in memory. Of a real socket no contract can
    /// say what the system does with the bytes.
    ghost sent: { Self → Option (List ℕ) };

    /// Its calls so far, each with the pieces that it was offered and what it returned, of a socket that reports them.
    ghost calls: { Self → Option (List Call) };

    /// Writes pieces, one after another, and returns how many of their bytes were taken, from the front (`writev`).
    fn write_vectored(&mut self, pieces: &[IoSlice<'_>]) -> Result<usize, SocketFault>
        ensures within { IfOk result (λ count. count ≤ length (io_slices_bytes pieces.now)) }
        ensures taken { IfOk result (λ count. sent self.new ≡ with_more (sent self.old) (take count (io_slices_bytes pieces.now))) }
        ensures failed { OnErr result (sent self.new ≡ sent self.old) }
        ensures called { calls self.new
            ≡ with_more (calls self.old) (record { offered = map io_slice_bytes pieces.now; answer = result } ∷ []) };
}
