//! What is said to do next: over a socket that takes three bytes a call.

use crate::tests::connection::sending::Slow;
use crate::tests::connection::{four_bytes, open};
use bytes::Bytes;
use ob_connection::{Connection, Socket, SocketFault};
use ob_patterns::{Next, Peer, respond, serve, spin};
use ob_types::{Message, Refusal};
use std::io;
use std::io::IoSlice;
use std::test::Fail;

/// A peer that asks so often, and is answered by four bytes each time.
#[derive(Drop)]
struct Asking {
    socket: Slow,
    left: u32,
}

impl Socket for Asking {
    ghost use Rattle.std.specs.Prelude.{None};

    ghost sent = { λ _. None };

    ghost calls = { λ _. None };

    fn write_vectored(&mut self, pieces: &[IoSlice<'_>]) -> Result<usize, SocketFault> {
        self.socket.write_vectored(pieces)
    }
}

impl Peer for Asking {
    fn answer(&mut self, connection: &mut Connection) -> bool {
        let Some(left) = self.left.checked_sub(1) else {
            return false;
        };
        self.left = left;
        connection.write(four_bytes()).is_ok() && connection.flush().is_ok()
    }
}

/// Responds by four bytes: what is next, and whether the connection is writable then.
fn responds(connection: &mut Connection, socket: &mut Slow) -> Result<(Said, bool), Refusal> {
    let next = respond(connection, socket, Bytes::from_static(b"four"))?;
    Ok((said(next), connection.is_writable()))
}

/// What is next, or the kind of the error that a socket broke with.
pub type Said = Result<&'static str, io::ErrorKind>;

pub fn said(next: Next) -> Said {
    match next {
        Next::Rest => Ok("rest"),
        Next::WaitForRoom => Ok("wait for room"),
        Next::ComeAgain => Ok("come again"),
        Next::SendFront => Ok("send front"),
        Next::Closed => Ok("closed"),
        Next::Broken(error) => Err(error.kind()),
    }
}

#[test]
fn a_response_says_what_is_next(rt: HostRuntime) -> Result<(), Fail> {
    let mut connection = open(rt.alloc())?;
    let mut socket = Slow::new(rt.alloc(), false);
    // of five bytes of room the first takes four, and the second one
    let told = [0; 4].map(|_| responds(&mut connection, &mut socket));
    socket.breaks = true;
    let broken = [0; 2].map(|_| responds(&mut connection, &mut socket));
    assert_eq!(rt;
        (told, broken),
        (
            [
                Ok((Ok("rest"), true)),
                Ok((Ok("wait for room"), true)),
                Ok((Ok("wait for room"), true)),
                Ok((Ok("wait for room"), false)),
            ],
            [
                Ok((Err(io::ErrorKind::ConnectionReset), false)),
                Err(Refusal::Closed)
            ],
        )
    );
    drop((connection, socket));
    Ok(())
}

#[test]
fn turns_that_are_used_up_come_again_and_a_region_is_in_front(rt: HostRuntime) -> Result<(), Fail> {
    let mut connection = open(rt.alloc())?;
    let mut socket = Slow::new(rt.alloc(), false);
    socket.room = 100;
    let _block = connection.write(four_bytes())?;
    let _region = connection.write(Message::Region(7))?;
    let _flushed = connection.flush()?;
    // three bytes and the fourth in two turns: then the region is in front
    let told = [0; 2].map(|_| said(spin(&mut connection, &mut socket, 2)));
    assert_eq!(rt;
        (told, socket.log.as_slice()),
        ([Ok("come again"), Ok("send front")], b"four".as_slice())
    );
    drop((connection, socket));
    Ok(())
}

#[test]
fn a_peer_is_read_again_once_it_is_writable(rt: HostRuntime) -> Result<(), Fail> {
    let mut connection = open(rt.alloc())?;
    let mut peer = Asking {
        socket: Slow::new(rt.alloc(), false),
        left: 7,
    };
    // five bytes of room: the answers to four requests wait, at 400 less 100, and the peer is read no more
    let stopped = said(serve(&mut connection, &mut peer, 16));
    let left = peer.left;
    peer.socket.room = 100;
    let short = said(serve(&mut connection, &mut peer, 1));
    let served = said(serve(&mut connection, &mut peer, 16));
    assert_eq!(rt;
        (
            stopped,
            left,
            short,
            served,
            peer.left,
            peer.socket.log.len()
        ),
        (Ok("wait for room"), 3, Ok("come again"), Ok("rest"), 0, 28)
    );
    drop((connection, peer));
    Ok(())
}
