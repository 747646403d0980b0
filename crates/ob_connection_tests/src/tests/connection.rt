//! A connection that is written to, cancelled, sent and closed: each answer as worked by hand.

mod copying;
mod giving_up;
pub mod sending;

use bytes::Bytes;
use ob_connection::{Connection, Flushed, Removed, Status, Taken, Written};
use ob_types::{Cause, Change, Estimate, Message, Outcome, Refusal, WaterMark};
use std::alloc::Global;
use std::test::Fail;

/// A message that counts 100 bytes: four, and the overhead.
pub fn four_bytes() -> Message {
    Message::Block(Bytes::from_static(b"four"))
}

/// A connection that is to stop above 200 bytes and to go on below 100.
pub fn open(alloc: Global) -> Result<Connection, Refusal> {
    let estimate = Estimate {
        overhead: 96,
        unknown: 8,
    };
    Ok(Connection::new(alloc, WaterMark::new(100, 200)?, estimate))
}

/// What a removal answers that takes these messages away as sent and changes no writability.
fn sent(from: u64, to: u64) -> Result<Taken, Refusal> {
    Ok(Taken {
        count: to.saturating_sub(from),
        change: None,
        from,
        to,
        outcome: Outcome::Success,
    })
}

/// The answer of a flush that changes no writability.
fn flushed(count: u64) -> Result<Flushed, Refusal> {
    Ok(Flushed {
        count,
        change: None,
    })
}

/// Writes a message, of which a refusal tells the reason alone.
fn write(connection: &mut Connection, message: Message) -> Result<Written, Refusal> {
    connection.write(message).map_err(Refusal::from)
}

/// The answer of a write.
fn written(id: u64, change: Option<Change>) -> Result<Written, Refusal> {
    Ok(Written { id, change })
}

#[test]
fn a_cancelled_message_leaves_with_the_one_before(rt: HostRuntime) -> Result<(), Fail> {
    let mut connection = open(rt.alloc())?;
    assert_eq!(rt;
        (
            write(&mut connection, four_bytes()),
            write(&mut connection, four_bytes()),
            write(&mut connection, four_bytes()),
            connection.cancel(1),
            connection.cancel(1),
            connection.cancel(3),
            connection.promise(1),
            connection.flush(),
            connection.cancel(0),
            connection.look().total,
        ),
        (
            written(0, None),
            written(1, None),
            written(2, Some(Change::Unwritable)),
            Ok(true),
            Ok(false),
            Err(Refusal::UnknownPromise),
            Some(Status::Settled(Outcome::Cancelled)),
            flushed(3),
            Ok(false),
            200,
        )
    );
    assert_eq!(rt;
        (
            connection.take_sent(9),
            connection.take_sent(3),
            connection.look().current_progress,
            connection.take_sent(1),
        ),
        (Err(Refusal::TooManyBytes), sent(0, 0), 3, sent(0, 2))
    );
    assert_eq!(rt;
        [0, 1, 2, 3].map(|id| connection.promise(id)),
        [
            Some(Status::SettledBefore),
            Some(Status::SettledBefore),
            Some(Status::Fixed),
            None,
        ]
    );
    let last = Removed {
        any: true,
        settled: Some((2, Outcome::Success)),
        change: Some(Change::Writable),
    };
    let none = Removed {
        any: false,
        settled: None,
        change: None,
    };
    assert_eq!(rt;
        (connection.front(), connection.remove(), connection.remove()),
        (Some(2), Ok(last), Ok(none))
    );
    drop(connection);
    Ok(())
}

#[test]
fn a_close_tells_which_messages_it_failed(rt: HostRuntime) -> Result<(), Fail> {
    let mut connection = open(rt.alloc())?;
    let failed = |from, to, cause| Taken {
        count: 1,
        change: None,
        from,
        to,
        outcome: Outcome::Failed(Cause(cause)),
    };
    assert_eq!(rt;
        (
            write(&mut connection, four_bytes()),
            connection.flush(),
            write(&mut connection, four_bytes()),
            connection.close(Cause(7)),
            connection.fail_flushed(Cause(6), true),
            connection.close(Cause(7)),
            write(&mut connection, four_bytes()),
        ),
        (
            written(0, None),
            flushed(1),
            written(1, None),
            Err(Refusal::FlushedLeft),
            Ok(failed(0, 1, 6)),
            Ok(failed(1, 2, 7)),
            Err(Refusal::Closed),
        )
    );
    assert_eq!(rt;
        (
            connection.promise(1),
            connection.look().total,
            connection.is_writable()
        ),
        (Some(Status::SettledBefore), 0, true)
    );
    drop(connection);
    Ok(())
}
