//! What a transport sends, and what goes on meanwhile.

use crate::tests::{flushed, four};
use bytes::Bytes;
use ob_connection::{Ending, Socket, SocketFault};
use ob_shared_connection::{Handle, SendFault, Transport, looks};
use ob_types::{Cause, Change, Message};
use std::alloc::Global;
use std::io;
use std::io::IoSlice;
use std::sync::Wait;
use std::test::Fail;

/// A socket that takes at most three bytes of the first piece a call, and `room` bytes in all.
#[derive(Drop)]
pub struct Slow {
    pub log: Vec<u8>,
    pub room: usize,
    pub breaks: bool,
}

impl Socket for Slow {
    ghost use Rattle.std.specs.Prelude.{Some, None};

    ghost sent = { λ socket. Some socket.log.items };

    ghost calls = { λ _. None };

    fn write_vectored(&mut self, pieces: &[IoSlice<'_>]) -> Result<usize, SocketFault> {
        let Some(first) = pieces.first() else {
            return Ok(0);
        };
        let bytes = first.as_slice();
        let count = self.room.min(bytes.len()).min(3);
        if count == 0 {
            return Err(self.fault());
        }
        self.log
            .extend_from_slice(&bytes[..count])
            .map_err(io::Error::from)?;
        self.room -= count;
        Ok(count)
    }
}

impl Slow {
    /// One with this much room.
    pub fn new(alloc: Global, room: usize, breaks: bool) -> Slow {
        Slow {
            log: Vec::new(alloc),
            room,
            breaks,
        }
    }

    fn fault(&self) -> SocketFault {
        let kind = if self.breaks {
            io::ErrorKind::ConnectionReset
        } else {
            io::ErrorKind::WouldBlock
        };
        SocketFault::from(io::Error::from(kind))
    }
}

/// A socket that takes all, and meanwhile writes to the connection itself: that waits without end if the lock is not free.
#[derive(Drop)]
struct Busy<'a, R: Wait> {
    rt: &'a R,
    writer: Handle,
    accepted: u32,
}

impl<'a, R: Wait> Socket for Busy<'a, R> {
    ghost use Rattle.std.specs.Prelude.{None};

    ghost sent = { λ _. None };

    ghost calls = { λ _. None };

    fn write_vectored(&mut self, pieces: &[IoSlice<'_>]) -> Result<usize, SocketFault> {
        if self.writer.write(self.rt, four()).is_ok() && self.writer.flush(self.rt).is_ok() {
            self.accepted = self.accepted.saturating_add(1);
        }
        match pieces.first() {
            Some(first) => Ok(first.as_slice().len()),
            None => Ok(0),
        }
    }
}

#[test]
fn a_slow_socket_takes_all(rt: HostRuntime) -> Result<(), Fail> {
    let (mut transport, mut writer) = flushed(&rt, rt.alloc(), 2)?;
    let mut socket = Slow::new(rt.alloc(), 5, false);
    let first = transport.send_once(&rt, &mut socket, 8, 100)?;
    let second = transport.send_once(&rt, &mut socket, 8, 100)?;
    let third = transport.send_once(&rt, &mut socket, 8, 100)?;
    assert!(rt;
        (
            first.bytes,
            second.bytes,
            third.bytes,
            third.blocked,
            third.more
        ) == (3, 1, 1, false, true)
    );
    assert!(rt;
        (second.taken.from, second.taken.to) == (0, 1)
            && transport.send_once(&rt, &mut socket, 8, 100)?.blocked
    );
    socket.room = 3;
    let last = transport.send_once(&rt, &mut socket, 8, 100)?;
    let none = transport.send_once(&rt, &mut socket, 8, 100)?;
    assert!(rt;
        (last.bytes, last.more, none.bytes, none.blocked, none.more) == (3, false, 0, false, false)
    );
    assert!(rt;
        socket.log.as_slice() == b"fourfour".as_slice() && writer.ask(&rt, looks::Look).total == 0
    );
    Ok(())
}

/// Whether a socket broke by a reset.
fn is_reset(fault: Option<SendFault>) -> bool {
    let Some(SendFault::Broken(error)) = fault else {
        return false;
    };
    error.kind() == io::ErrorKind::ConnectionReset
}

/// Whether a sending ended by a reset.
fn ended_by_a_reset(ending: Ending) -> bool {
    let Ending::Broken(error) = ending else {
        return false;
    };
    error.kind() == io::ErrorKind::ConnectionReset
}

#[test]
fn a_slow_socket_takes_all_in_turns(rt: HostRuntime) -> Result<(), Fail> {
    let (mut transport, _writer) = flushed(&rt, rt.alloc(), 5)?;
    let mut socket = Slow::new(rt.alloc(), 13, false);
    let blocked = transport.send_until_blocked(&rt, &mut socket, 20, 100)?;
    socket.room = 100;
    let used_up = transport.send_until_blocked(&rt, &mut socket, 1, 100)?;
    socket.breaks = true;
    socket.room = 1;
    let broken = transport.send_until_blocked(&rt, &mut socket, 20, 100)?;
    let at_once = transport.send_until_blocked(&rt, &mut socket, 20, 100);
    socket.room = 3;
    let drained = transport.send_until_blocked(&rt, &mut socket, 20, 100)?;
    assert!(rt;
        matches!(blocked.ending, Ending::Blocked)
            && matches!(used_up.ending, Ending::TurnsUsed)
            && ended_by_a_reset(broken.ending)
            && matches!(drained.ending, Ending::Drained)
    );
    assert!(rt; (blocked.bytes, used_up.bytes, broken.bytes, drained.bytes) == (13, 3, 1, 3));
    let taken = blocked.taken;
    assert!(rt; (taken.count, taken.from, taken.to, taken.change) == (3, 0, 3, None));
    assert!(rt;
        (used_up.taken.from, drained.taken.to) == (3, 5)
            && used_up.taken.change == Some(Change::Writable)
            && is_reset(at_once.err())
    );
    Ok(())
}

#[test]
fn no_writer_waits_for_a_socket(rt: HostRuntime) -> Result<(), Fail> {
    let (mut transport, writer) = flushed(&rt, rt.alloc(), 1)?;
    let mut socket = Busy {
        rt: &rt,
        writer,
        accepted: 0,
    };
    let first = transport.send_once(&rt, &mut socket, 8, 100)?;
    let second = transport.send_once(&rt, &mut socket, 8, 100)?;
    assert!(rt;
        (
            first.bytes,
            first.more,
            second.bytes,
            second.more,
            socket.accepted
        ) == (4, true, 4, true, 2)
    );
    Ok(())
}

#[test]
fn an_empty_message_is_taken_away_and_no_socket_is_asked(rt: HostRuntime) -> Result<(), Fail> {
    let (mut transport, mut writer) = flushed(&rt, rt.alloc(), 0)?;
    let _written = writer.write(&rt, Message::Block(Bytes::from_static(b"")))?;
    let _flushed = writer.flush(&rt)?;
    let mut socket = Slow::new(rt.alloc(), 0, true);
    let sent = transport.send_once(&rt, &mut socket, 8, 100)?;
    assert!(rt; (sent.bytes, sent.blocked, sent.taken.count, sent.more) == (0, false, 1, false));
    Ok(())
}

#[test]
fn a_broken_socket_and_a_closed_connection_are_told(rt: HostRuntime) -> Result<(), Fail> {
    let (mut transport, _writer) = flushed(&rt, rt.alloc(), 5)?;
    let mut socket = Slow::new(rt.alloc(), 3, true);
    let sent = transport.send_once(&rt, &mut socket, 8, 100)?;
    let broken = transport.send_once(&rt, &mut socket, 8, 100);
    let given_up = transport.give_up(&rt, Cause(7))?;
    let closed = transport.send_once(&rt, &mut socket, 8, 100);
    assert!(rt; (sent.bytes, sent.taken.change, given_up.count) == (3, None, 5));
    assert!(rt; is_reset(broken.err()) && matches!(closed, Err(SendFault::Closed)));
    Ok(())
}

/// Sends once there is work, until a socket that takes three bytes a call has taken this many.
pub fn drains<R: Wait>(
    rt: &R,
    mut transport: Transport,
    socket: &mut Slow,
    bytes: usize,
) -> Transport {
    for _ in rt.forever() {
        if socket.log.len() >= bytes {
            return transport;
        }
        let _moment = transport.wait_for_work(rt);
        let _sent = transport.send_once(rt, socket, 64, 1000);
    }
    unreachable!()
}
