//! What a slow and a broken socket leave, what a full ring gives back, and what a refused write leaves.

use super::{four_bytes, open, sent, write, written};
use bytes::Bytes;
use ob_connection::{Connection, Ending, SendFault, SentTurns, Socket, SocketFault, Taken};
use ob_types::{Change, Message, Outcome, Refusal};
use std::alloc::Global;
use std::io;
use std::io::IoSlice;
use std::test::Fail;

/// A socket that takes at most three bytes of the first piece a call, and `room` bytes in all.
#[derive(Drop)]
pub struct Slow {
    pub log: Vec<u8>,
    pub room: usize,
    pub breaks: bool,
}

impl Socket for Slow {
    ghost use Rattle.std.specs.Prelude.{Some, None};

    ghost sent = { λ socket. Some socket.log.items };

    ghost calls = { λ _. None };

    fn write_vectored(&mut self, pieces: &[IoSlice<'_>]) -> Result<usize, SocketFault> {
        let Some(first) = pieces.first() else {
            return Ok(0);
        };
        let bytes = first.as_slice();
        let count = self.room.min(bytes.len()).min(3);
        if count == 0 {
            return Err(self.fault());
        }
        self.log
            .extend_from_slice(&bytes[..count])
            .map_err(io::Error::from)?;
        self.room -= count;
        Ok(count)
    }
}

impl Slow {
    /// One with room for five bytes.
    pub fn new(alloc: Global, breaks: bool) -> Slow {
        Slow {
            log: Vec::new(alloc),
            room: 5,
            breaks,
        }
    }

    fn fault(&self) -> SocketFault {
        if self.breaks {
            SocketFault::from(io::Error::from(io::ErrorKind::ConnectionReset))
        } else {
            SocketFault::from(io::Error::from(io::ErrorKind::WouldBlock))
        }
    }
}

/// A connection with this many flushed messages of four bytes.
fn flushed(alloc: Global, count: u32) -> Result<Connection, Refusal> {
    let mut connection = open(alloc)?;
    match fill(&mut connection, count) {
        Ok(()) => Ok(connection),
        Err(refusal) => {
            drop(connection);
            Err(refusal)
        }
    }
}

fn fill(connection: &mut Connection, count: u32) -> Result<(), Refusal> {
    for _ in 0..count {
        let _written = connection.write(four_bytes())?;
    }
    let _flushed = connection.flush()?;
    Ok(())
}

/// What a sending in turns tells: its bytes, the messages that are gone, and its ending.
fn told(turns: SentTurns) -> (u64, Result<Taken, Refusal>, Ended) {
    (turns.bytes, Ok(turns.taken), ended(turns.ending))
}

/// How a sending ended, or the kind of the error that a socket broke with.
type Ended = Result<Left, io::ErrorKind>;

/// Why a sending ended that broke no socket.
#[derive(Clone, Copy, Debug, PartialEq, Eq)]
enum Left {
    Nothing,
    Blocked,
    OtherInFront,
    Turns,
}

fn ended(ending: Ending) -> Ended {
    match ending {
        Ending::Drained => Ok(Left::Nothing),
        Ending::Blocked => Ok(Left::Blocked),
        Ending::OtherInFront => Ok(Left::OtherInFront),
        Ending::TurnsUsed => Ok(Left::Turns),
        Ending::Broken(error) => Err(error.kind()),
    }
}

/// The kind of the error that a socket broke with, if that is the fault.
fn kind_of(fault: SendFault) -> Option<io::ErrorKind> {
    match fault {
        SendFault::Closed => None,
        SendFault::Broken(error) => Some(error.kind()),
    }
}

#[test]
fn a_slow_socket_takes_all_in_turns(rt: HostRuntime) -> Result<(), Fail> {
    let mut connection = flushed(rt.alloc(), 3)?;
    let mut socket = Slow::new(rt.alloc(), false);
    let once = connection.send_once(&mut socket, 8, 100);
    let blocked = connection
        .send_until_blocked(&mut socket, 8, 100)
        .map(told)
        .map_err(kind_of);
    socket.room = 100;
    let used_up = connection
        .send_until_blocked(&mut socket, 1, 100)
        .map(told)
        .map_err(kind_of);
    let drained = connection
        .send_until_blocked(&mut socket, 8, 100)
        .map(told)
        .map_err(kind_of);
    let last = Taken {
        count: 1,
        change: Some(Change::Writable),
        from: 2,
        to: 3,
        outcome: Outcome::Success,
    };
    assert_eq!(rt;
        (
            once.map(|once| (once.bytes, Ok(once.taken), once.more))
                .map_err(kind_of),
            blocked,
            used_up,
            drained,
            socket.log.as_slice(),
        ),
        (
            Ok((3, sent(0, 0), true)),
            Ok((2, sent(0, 1), Ok(Left::Blocked))),
            Ok((3, sent(1, 2), Ok(Left::Turns))),
            Ok((4, Ok(last), Ok(Left::Nothing))),
            b"fourfourfour".as_slice(),
        )
    );
    drop((connection, socket));
    Ok(())
}

#[test]
fn a_socket_that_breaks_in_the_middle_loses_nothing(rt: HostRuntime) -> Result<(), Fail> {
    let mut connection = flushed(rt.alloc(), 2)?;
    let mut socket = Slow::new(rt.alloc(), true);
    assert_eq!(rt;
        (
            connection
                .send_until_blocked(&mut socket, 8, 100)
                .map(told)
                .map_err(kind_of),
            connection.send_once(&mut socket, 8, 100).map_err(kind_of),
            connection.front(),
            connection.look().current_progress,
        ),
        (
            Ok((5, sent(0, 1), Err(io::ErrorKind::ConnectionReset))),
            Err(Some(io::ErrorKind::ConnectionReset)),
            Some(1),
            1,
        )
    );
    drop((connection, socket));
    Ok(())
}

#[test]
fn what_is_no_block_is_left_in_front(rt: HostRuntime) -> Result<(), Fail> {
    let mut connection = open(rt.alloc())?;
    let mut socket = Slow::new(rt.alloc(), false);
    assert_eq!(rt;
        (
            write(&mut connection, Message::Block(Bytes::new())),
            write(&mut connection, Message::Region(7)),
            connection.flush(),
            connection
                .send_until_blocked(&mut socket, 8, 100)
                .map(told)
                .map_err(kind_of),
            connection.front(),
        ),
        (
            written(0, None),
            written(1, None),
            super::flushed(2),
            Ok((0, sent(0, 1), Ok(Left::OtherInFront))),
            Some(1),
        )
    );
    drop((connection, socket));
    Ok(())
}

#[test]
fn a_ring_that_gave_memory_back_answers_as_before(rt: HostRuntime) -> Result<(), Fail> {
    let mut connection = flushed(rt.alloc(), 100)?;
    let last = Taken {
        count: 3,
        change: Some(Change::Writable),
        from: 98,
        to: 101,
        outcome: Outcome::Success,
    };
    assert_eq!(rt;
        (
            connection.take_sent(4 * 97 + 1),
            write(&mut connection, four_bytes()),
            connection.flush(),
            connection.take_sent(3),
            connection.take_sent(12),
            connection.look().total,
        ),
        (
            sent(0, 97),
            written(100, None),
            super::flushed(1),
            sent(97, 98),
            Ok(last),
            0,
        )
    );
    drop(connection);
    Ok(())
}
