//! What servers do with a connection: each answer as worked by hand. A message counts 100 bytes, and a connection stops
//! above 200 of them.

mod many;
mod turns;
mod urgent;

use crate::tests::connection::open;
use bytes::Bytes;
use ob_connection::{Connection, Refused};
use ob_patterns::{Chunks, Progress, forward, give_up_if_slow, write_chunks};
use ob_types::{Cause, Message, Refusal};
use std::test::Fail;

/// A response of *n* pieces of four bytes.
#[derive(Drop)]
struct Pieces {
    left: u32,
}

impl Chunks for Pieces {
    ghost use Rattle.std.specs.Prelude.{None};

    ghost answers = { λ _. None };

    fn next(&mut self) -> Option<Bytes> {
        self.left = self.left.checked_sub(1)?;
        Some(Bytes::from_static(b"four"))
    }
}

/// Why bytes were refused, and how many came back.
fn refused<T: Drop>(written: Result<T, Refused>) -> Option<(Refusal, usize)> {
    let refused = written.err()?;
    match &refused.message {
        Message::Block(bytes) => Some((refused.refusal, bytes.len())),
        _ => None,
    }
}

/// How far a response came, of which at most *n* pieces are written.
fn written(connection: &mut Connection, pieces: &mut Pieces, most: u32) -> Option<Progress> {
    write_chunks(connection, pieces, most).ok()
}

#[test]
fn a_long_response_pauses_and_comes_to_its_end(rt: HostRuntime) -> Result<(), Fail> {
    let mut connection = open(rt.alloc())?;
    let mut pieces = Pieces { left: 4 };
    let first = written(&mut connection, &mut pieces, 2);
    let second = written(&mut connection, &mut pieces, 9);
    let pending = connection.look().total;
    let _flushed = connection.flush()?;
    let _taken = connection.take_sent(12)?;
    let last = written(&mut connection, &mut pieces, 9);
    assert_eq!(rt;
        (
            first,
            second,
            pending,
            last,
            connection.look().total,
            pieces.left
        ),
        (
            Some(Progress::ComeAgain),
            Some(Progress::Paused),
            300,
            Some(Progress::Finished),
            100,
            0,
        )
    );
    drop(connection);
    Ok(())
}

#[test]
fn what_a_closed_connection_refuses_comes_back(rt: HostRuntime) -> Result<(), Fail> {
    let mut connection = open(rt.alloc())?;
    let mut pieces = Pieces { left: 2 };
    let _closed = connection.close(Cause(7))?;
    assert_eq!(rt;
        [
            refused(write_chunks(&mut connection, &mut pieces, 9)),
            refused(forward(&mut connection, Bytes::from_static(b"seventh"))),
        ],
        [Some((Refusal::Closed, 4)), Some((Refusal::Closed, 7))]
    );
    assert_eq!(rt; pieces.left, 1);
    drop(connection);
    Ok(())
}

#[test]
fn a_proxy_reads_on_while_the_other_side_is_writable(rt: HostRuntime) -> Result<(), Fail> {
    let mut connection = open(rt.alloc())?;
    let reads = [0; 3].map(|_| forward(&mut connection, Bytes::from_static(b"four")).ok());
    assert_eq!(rt; reads, [Some(true), Some(true), Some(false)]);
    let early = give_up_if_slow(&mut connection, 5, 5).map(|taken| taken.count);
    let late = give_up_if_slow(&mut connection, 6, 5).map(|taken| taken.count);
    let again = give_up_if_slow(&mut connection, 7, 5).map(|taken| taken.count);
    assert_eq!(rt;
        (early, late, again, connection.is_closed()),
        (None, Some(3), None, true)
    );
    drop(connection);
    Ok(())
}
