//! What is urgent, and what waits behind it, over one socket that takes three bytes a call.

use super::turns::{Said, said};
use crate::tests::connection::open;
use crate::tests::connection::sending::Slow;
use bytes::Bytes;
use ob_connection::Connection;
use ob_patterns::{send_urgent_first, spin};
use ob_types::{Cause, Message, Refusal};
use std::alloc::Global;
use std::io;
use std::test::Fail;

/// Two connections and their socket.
#[derive(Drop)]
struct Both {
    urgent: Connection,
    other: Connection,
    socket: Slow,
}

impl Both {
    /// Of a message of seven bytes the socket took three, and has room for `room` more.
    fn cut(alloc: Global, room: usize) -> Result<Both, Refusal> {
        let mut both = Both {
            urgent: open(alloc)?,
            other: open(alloc)?,
            socket: Slow::new(alloc, false),
        };
        match both.begin() {
            Ok(()) => {
                both.socket.room = room;
                Ok(both)
            }
            Err(refusal) => {
                drop(both);
                Err(refusal)
            }
        }
    }

    fn begin(&mut self) -> Result<(), Refusal> {
        write(&mut self.other, b"message")?;
        write(&mut self.other, b"data")?;
        let _next = spin(&mut self.other, &mut self.socket, 1);
        write(&mut self.urgent, b"stop")
    }

    fn send(&mut self, turns: u32) -> Said {
        said(send_urgent_first(&mut self.urgent, &mut self.other, &mut self.socket, turns))
    }
}

/// Writes and flushes bytes.
fn write(connection: &mut Connection, bytes: &'static [u8]) -> Result<(), Refusal> {
    let _written = connection.write(Message::Block(Bytes::from_static(bytes)))?;
    let _flushed = connection.flush()?;
    Ok(())
}

#[test]
fn the_rest_of_a_cut_message_goes_first(rt: HostRuntime) -> Result<(), Fail> {
    let mut both = Both::cut(rt.alloc(), 100)?;
    // of the four bytes that are left the socket takes three
    let first = both.send(8);
    let size = both.urgent.look().size;
    let second = both.send(8);
    assert_eq!(rt; (first, size, second), (Ok("come again"), 1, Ok("rest")));
    assert_eq!(rt; both.socket.log.as_slice(), b"messagestopdata".as_slice());
    drop(both);
    Ok(())
}

#[test]
fn nothing_urgent_is_sent_into_a_cut_message(rt: HostRuntime) -> Result<(), Fail> {
    let mut both = Both::cut(rt.alloc(), 1)?;
    let told = [0; 2].map(|_| both.send(8));
    let blocked = both.socket.log.len();
    both.socket.room = 5;
    let later = [0; 3].map(|_| both.send(8));
    assert_eq!(rt;
        (told, blocked, later, both.socket.log.as_slice()),
        (
            [Ok("come again"), Ok("wait for room")],
            4,
            // three bytes end the message, two are of what is urgent
            [
                Ok("wait for room"),
                Ok("wait for room"),
                Ok("wait for room")
            ],
            b"messagest".as_slice()
        )
    );
    drop(both);
    Ok(())
}

#[test]
fn data_waits_until_nothing_urgent_is_left(rt: HostRuntime) -> Result<(), Fail> {
    let mut both = Both::cut(rt.alloc(), 100)?;
    // three bytes of the message; its last and three that are urgent; the fourth, and three of data; the last of data
    let turns = [0; 5].map(|_| (both.send(1), both.socket.log.len()));
    assert_eq!(rt;
        turns,
        [
            (Ok("come again"), 6),
            (Ok("come again"), 10),
            (Ok("come again"), 14),
            (Ok("rest"), 15),
            (Ok("rest"), 15)
        ]
    );
    assert_eq!(rt; both.socket.log.as_slice(), b"messagestopdata".as_slice());
    drop(both);
    Ok(())
}

#[test]
fn a_region_that_is_cut_or_urgent_is_sent_by_other_means(rt: HostRuntime) -> Result<(), Fail> {
    let mut both = Both::cut(rt.alloc(), 100)?;
    let _failed = both.other.fail_flushed(Cause(7), false)?;
    let _region = both.other.write(Message::Region(9))?;
    let _flushed = both.other.flush()?;
    both.other.progress(4)?;
    let cut = both.send(8);
    let size = both.urgent.look().size;
    let _removed = both.other.remove()?;
    let ended = both.send(8);
    let _region = both.urgent.write(Message::Region(9))?;
    let _flushed = both.urgent.flush()?;
    let urgent = both.send(8);
    assert_eq!(rt;
        (cut, size, ended, urgent),
        (Ok("send front"), 1, Ok("rest"), Ok("send front"))
    );
    assert_eq!(rt; both.socket.log.as_slice(), b"messtop".as_slice());
    drop(both);
    Ok(())
}

#[test]
fn a_closed_connection_stops_what_comes_after(rt: HostRuntime) -> Result<(), Fail> {
    let mut both = Both::cut(rt.alloc(), 100)?;
    let _given_up = both.urgent.give_up(Cause(7))?;
    let told = [0; 2].map(|_| both.send(8));
    let sent = both.socket.log.len();
    let mut next = Both::cut(rt.alloc(), 100)?;
    let _given_up = next.other.give_up(Cause(7))?;
    let other = next.send(8);
    assert_eq!(rt;
        (told, sent, other),
        ([Ok("come again"), Ok("closed")], 7, Ok("closed"))
    );
    assert_eq!(rt; next.socket.log.as_slice(), b"messtop".as_slice());
    drop((both, next));
    Ok(())
}

#[test]
fn who_finds_the_socket_broken_is_given_up(rt: HostRuntime) -> Result<(), Fail> {
    let mut both = Both::cut(rt.alloc(), 0)?;
    both.socket.breaks = true;
    let first = both.send(8);
    let closed = (both.urgent.is_closed(), both.other.is_closed());
    let second = both.send(8);
    let after = (both.urgent.is_closed(), both.other.is_closed());
    assert_eq!(rt;
        (first, closed, second, after, both.socket.log.len()),
        (
            Err(io::ErrorKind::ConnectionReset),
            (false, true),
            Err(io::ErrorKind::ConnectionReset),
            (true, true),
            3
        )
    );
    drop(both);
    Ok(())
}
