//! Callers of a buffer: those that `docs/calls.md` points to, which `slow_peer` of `ob_tests` plays, and those that
//! `docs/PROVED.md` names.

ghost use Rattle.std.specs.Prelude.{◌≡◌, ◌↔◌, List, IsTrue};
ghost use Rattle.ob_types.specs.declared.command.Command.{Command};
ghost use Rattle.ob_seq.specs.Pending.{StandsFor};
ghost use Rattle.ob_seq.specs.State.{word_after};

use bytes::Bytes;
use ob_seq::Buffer;
use ob_types::{Cause, Change, Estimate, Message, Outcome, PromiseId, Refusal, Reply, WaterMark};
use std::alloc::Global;

/// What a server does for one of its connections.
pub trait Peer {
    /// Sends bytes from the front of these blocks, as `writev` does, and tells how many went out: 0 if the socket is not
    /// ready. If it is broken, the cause is a number of your own.
    fn send(&mut self, blocks: &[Bytes]) -> Result<u64, Cause>;
    /// The response of this promise has gone out, or is given up.
    fn settled(&mut self, id: PromiseId, outcome: Outcome);
    /// Whether to read further requests from this connection.
    fn set_reading(&mut self, reading: bool);
}

/// A buffer with Netty's marks and sizes.
pub fn open(alloc: Global) -> Result<Buffer, Refusal> {
    let estimate = Estimate {
        overhead: 96,
        unknown: 8,
    };
    Ok(Buffer::new(alloc, WaterMark::new(32768, 65536)?, estimate))
}

/// Writes a response, and sends what the socket takes.
pub fn respond<P: Peer>(buffer: &mut Buffer, peer: &mut P, response: Bytes) -> Result<(), Refusal> {
    let written = buffer.write(Message::Block(response))?;
    tell(peer, &written);
    let flushed = buffer.flush()?;
    tell(peer, &flushed);
    send(buffer, peer)
}

/// Sends at most 64 blocks and 65536 bytes: to be called again when the socket is ready, and at once if it took all. If
/// the socket is broken, the connection is given up.
pub fn send<P: Peer>(buffer: &mut Buffer, peer: &mut P) -> Result<(), Refusal> {
    let blocks = buffer.gather(64, 65536)?;
    match peer.send(&blocks) {
        Ok(count) => {
            // also if nothing went out: empty blocks in front are taken away, or `is_empty` would never come
            let removed = buffer.remove_bytes(count)?;
            tell(peer, &removed);
            Ok(())
        }
        Err(cause) => give_up(buffer, peer, cause),
    }
}

/// Hands on what a reply tells, which no later call tells again.
pub fn tell<P: Peer>(peer: &mut P, reply: &Reply) {
    for (id, outcome) in reply.settled.as_slice() {
        peer.settled(*id, *outcome);
    }
    if let Some(change) = reply.change {
        peer.set_reading(change == Change::Writable);
    }
}

/// Gives a connection up: each promise that is not settled yet fails for this cause.
pub fn give_up<P: Peer>(buffer: &mut Buffer, peer: &mut P, cause: Cause) -> Result<(), Refusal> {
    let failed = buffer.fail_flushed(cause, false)?;
    tell(peer, &failed);
    let closed = buffer.close(cause)?;
    tell(peer, &closed);
    Ok(())
}

/// When few writes are left, takes no more work until all is sent, and goes on with a new buffer.
pub fn renew<P: Peer>(buffer: &mut Buffer, peer: &mut P, alloc: Global) -> Result<(), Refusal> {
    if buffer.writes_left() >= 1000 {
        return Ok(());
    }
    send(buffer, peer)?;
    if buffer.is_closed() {
        return Ok(());
    }
    let sent = buffer.look().total == 0;
    if sent {
        *buffer = open(alloc)?;
    }
    // behind the send, whose removal may have told that the old buffer is writable
    peer.set_reading(sent);
    Ok(())
}

/// Whether more may be written: whatever commands the buffer was given, exactly if the word after them is 0.
pub fn may_write(buffer: &Buffer) -> bool
    ensures { (commands : List Command) → StandsFor buffer.now commands
        → IsTrue result ↔ (word_after buffer.now.settings commands ≡ 0) }
{
    buffer.look().word == 0
}
