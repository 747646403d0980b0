//! How a transport sends: it gathers under the lock, writes to the socket without it, and takes away under the lock what
//! the socket took.

ghost use Rattle.std.specs.Io.Slices.{io_slice_bytes};
ghost use Rattle.std.specs.Prelude.{◌≡◌, ◌≤◌, ◌==◌, length, map, take, IfErr, IfOk, Some};
ghost use Rattle.ob_connection.specs.Calls.{bytes_of, had_no_room, most_pieces};
ghost use Rattle.ob_shared_connection.specs.Calls.{UnderLock};
ghost use Rattle.ob_shared_connection.specs.Sending.{Asked, IsOfBroken, Offering, SendsOnce, TakesAway, AreInFront};

use crate::offered::{MOST_PIECES, Offered};
use crate::patience::Patience;
use crate::transport::Transport;
use bytes::Bytes;
use ob_connection::{Sent, Socket, SocketFault};
use std::io;
use std::io::IoSlice;
use std::sync::Wait;
use thiserror::Error;

/// For how many pieces there is room if no more blocks are offered.
const FEW_PIECES: usize = 64;

/// Why a transport sent nothing. The connection is as it was.
#[derive(Clone, Copy, Debug, Error)]
pub enum SendFault {
    /// The connection is closed.
    #[error("the connection is closed")]
    Closed,
    /// The socket is broken, with its own error, and took nothing.
    #[error("the socket is broken: {0}")]
    Broken(io::Error),
    /// There was no memory for the list of the blocks, and the socket was not asked.
    #[error("out of memory")]
    NoMemory,
}

impl Transport {
    /// Offers a socket once the flushed blocks in front, as `gather` gives them, and takes away what it took, as
    /// `Connection::send_once`; but the lock is free while the socket is written to, so no other handle waits for that.
    /// What other handles write and flush meanwhile is behind, and is for the next call.
    ///
    /// If nothing is gathered the socket is not asked, and the empty messages in front are taken away all the same, under
    /// one lock. At most 1024 blocks are offered at once, whatever `max_count` is.
    ///
    /// `Closed` comes if the connection is closed, `NoMemory` if the allocator refused the list of blocks, and `Broken` if
    /// the socket failed for good; each leaves the connection as it was, and nothing was sent. Our own.
    pub fn send_once<R: Wait, S: Socket>(
        &mut self,
        rt: &R,
        socket: &mut S,
        max_count: u32,
        max_bytes: u32,
    ) -> Result<Sent, SendFault>
        ensures { SendsOnce max_count max_bytes self.old (S.sent socket.old, S.calls socket.old) result self.new
            (S.sent socket.new, S.calls socket.new) }
    {
        let blocks = match self.offer(rt, max_count, max_bytes)? {
            Offered::Nothing(sent) => return Ok(sent),
            Offered::Blocks(blocks) => blocks,
        };
        let bytes = match taken_of(ask(socket, blocks.as_slice())) {
            Ok(bytes) => bytes,
            Err(fault) => return Err(fault),
        };
        // the blocks are let go after this, so that no memory is freed under the lock
        Ok(self.take_away(rt, bytes))
    }

    /// What is to be offered.
    fn offer<R: Wait>(
        &mut self,
        rt: &R,
        max_count: u32,
        max_bytes: u32,
    ) -> Result<Offered, SendFault>
        ensures { UnderLock self.old (Offering max_count max_bytes result) self.new }
    {
        self.caller.lock(rt, Patience::Long);
        let offered = self.caller.offer(max_count, max_bytes);
        self.caller.unlock();
        offered
    }

    /// Takes away what a socket took, which was asked.
    fn take_away<R: Wait>(&mut self, rt: &R, bytes: u64) -> Sent
        requires { AreInFront self.old bytes }
        ensures takes { UnderLock self.old (TakesAway result) self.new }
        ensures bytes { result.bytes ≡ bytes }
        ensures blocked { result.blocked ≡ (bytes == 0) }
    {
        self.caller.lock(rt, Patience::Long);
        let sent = self.caller.take_away(bytes, bytes == 0);
        self.caller.unlock();
        sent
    }
}

/// Lets a socket take of some blocks.
fn ask<S: Socket>(socket: &mut S, blocks: &[Bytes]) -> Result<u64, SocketFault>
    requires few { length blocks.now ≤ most_pieces }
    ensures { Asked blocks.now (S.sent socket.old, S.calls socket.old) result (S.sent socket.new, S.calls socket.new) }
{
    if blocks.len() <= FEW_PIECES {
        let mut pieces = [IoSlice::new(&[]); FEW_PIECES];
        return ask_by(socket, &mut pieces, blocks);
    }
    ask_many(socket, blocks)
}

/// The same, however many these are.
// Its pieces take 16 KiB of the stack, for which a sending of a few blocks is not to pay.
#[inline(never)]
fn ask_many<S: Socket>(socket: &mut S, blocks: &[Bytes]) -> Result<u64, SocketFault>
    requires few { length blocks.now ≤ most_pieces }
    ensures { Asked blocks.now (S.sent socket.old, S.calls socket.old) result (S.sent socket.new, S.calls socket.new) }
{
    let mut pieces = [IoSlice::new(&[]); MOST_PIECES];
    ask_by(socket, &mut pieces, blocks)
}

/// The same by these pieces.
fn ask_by<'a, S: Socket>(
    socket: &mut S,
    pieces: &mut [IoSlice<'a>],
    blocks: &'a [Bytes],
) -> Result<u64, SocketFault>
    requires few { length blocks.now ≤ length pieces.old }
    ensures { Asked blocks.now (S.sent socket.old, S.calls socket.old) result (S.sent socket.new, S.calls socket.new) }
{
    lay(pieces, blocks);
    match socket.write_vectored(&pieces[..blocks.len()]) {
        Ok(count) => Ok(count as u64),
        Err(fault) => Err(fault),
    }
}

/// How many bytes a socket took that is not broken.
fn taken_of(answer: Result<u64, SocketFault>) -> Result<u64, SendFault>
    ensures taken { IfOk result (λ bytes. bytes ≡ bytes_of answer) }
    ensures blocked { IfOk result (λ bytes. (bytes == 0) ≡ had_no_room (Some answer)) }
    ensures broken { IfErr result (λ fault. IsOfBroken answer fault) }
{
    match answer {
        Ok(bytes) => Ok(bytes),
        Err(SocketFault::Blocked) => Ok(0),
        Err(SocketFault::Broken(error)) => Err(SendFault::Broken(error)),
    }
}

/// Puts blocks into pieces.
fn lay<'a>(pieces: &mut [IoSlice<'a>], blocks: &'a [Bytes])
    requires { length blocks.now ≤ length pieces.old }
    ensures laid { map io_slice_bytes (take (length blocks.now) pieces.new) ≡ blocks.now }
    ensures same { length pieces.new ≡ length pieces.old }
{
    'lays: for at in 0..blocks.len() {
        pieces[at] = IoSlice::new(blocks[at].as_slice());
    }
}
