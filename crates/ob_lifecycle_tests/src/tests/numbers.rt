//! The numbers, with a block of each end.

use super::{opened, put, write};
use bytes::Bytes;
use ob_lifecycle::{Count, ManagedConnection, Numbers};
use ob_types::{Cause, Message};
use std::test::Fail;

/// This many messages, and this many bytes.
fn count(messages: u64, bytes: u64) -> Count {
    Count { messages, bytes }
}

/// Whether what was accepted is what is told of it, in messages.
fn adds_up(connection: &ManagedConnection) -> bool {
    let numbers = connection.numbers();
    let ends = [
        numbers.sent,
        numbers.failed,
        numbers.cancelled,
        numbers.pending,
    ];
    let mut left = numbers.accepted;
    for end in &ends {
        left = Count {
            messages: left.messages.saturating_sub(end.messages),
            bytes: left.bytes.saturating_sub(end.bytes),
        };
    }
    left == count(0, 0)
}

#[test]
fn each_end_is_counted(rt: HostRuntime) -> Result<(), Fail> {
    let mut connection = opened(rt.alloc(), 96)?;
    for _ in 0..4u32 {
        write(&mut connection)?;
    }
    assert_eq!(rt; connection.cancel(1).answer, Ok(true));
    assert_eq!(rt; connection.numbers().pending, count(4, 400));
    assert!(rt; connection.flush().answer.is_ok());
    assert_eq!(rt; connection.numbers().cancelled, count(1, 100));
    assert!(rt; connection.take_sent(4).answer.is_ok());
    assert_eq!(rt; connection.numbers().sent, count(1, 100));
    assert!(rt; connection.remove_with(Cause(1)).answer.is_ok());
    assert_eq!(rt; connection.numbers().failed, count(1, 100));
    assert!(rt; adds_up(&connection));
    assert!(rt; connection.fail_flushed(Cause(1), true).answer.is_ok());
    assert_eq!(rt; connection.numbers().failed, count(2, 200));
    assert!(rt;
        put(
            &mut connection,
            Message::Block(Bytes::from_static(b"the fifth"))
        )
        .is_ok()
    );
    assert!(rt; adds_up(&connection));
    assert!(rt; connection.close(Cause(1)).answer.is_ok());
    let expected = Numbers {
        accepted: count(5, 505),
        sent: count(1, 100),
        failed: count(3, 305),
        cancelled: count(1, 100),
        pending: count(0, 0),
        peak: 400,
        stops: 0,
        stopped: 0,
        refusals: connection.numbers().refusals,
    };
    assert_eq!(rt; connection.numbers(), expected);
    Ok(())
}

#[test]
fn what_is_sent_in_part_is_pending(rt: HostRuntime) -> Result<(), Fail> {
    let mut connection = opened(rt.alloc(), 0)?;
    for _ in 0..2u32 {
        write(&mut connection)?;
    }
    assert!(rt; connection.flush().answer.is_ok());
    assert!(rt; connection.take_sent(5).answer.is_ok());
    let numbers = connection.numbers();
    assert_eq!(rt; (numbers.sent, numbers.pending), (count(1, 4), count(1, 4)));
    assert!(rt; connection.give_up(Cause(1)).answer.is_ok());
    assert_eq!(rt; connection.numbers().failed, count(1, 4));
    Ok(())
}

#[test]
fn refusals_are_counted_by_the_reason_and_change_no_other_number(
    rt: HostRuntime,
) -> Result<(), Fail> {
    let mut connection = opened(rt.alloc(), 96)?;
    write(&mut connection)?;
    let before = connection.numbers();
    assert!(rt; connection.progress(1).answer.is_err());
    assert!(rt; connection.cancel(1).answer.is_err());
    assert!(rt; connection.take_sent(1).answer.is_err());
    assert!(rt; connection.user_bit(0, true).answer.is_err());
    assert!(rt; !connection.finish());
    assert!(rt; write(&mut connection).is_err());
    assert!(rt; write(&mut connection).is_err());
    let mut expected = before;
    expected.refusals.nothing_flushed = 1;
    expected.refusals.unknown_promise = 1;
    expected.refusals.too_many_bytes = 1;
    expected.refusals.bad_index = 1;
    expected.refusals.finishing = 2;
    assert_eq!(rt; connection.numbers(), expected);
    Ok(())
}

#[test]
fn writers_are_stopped_by_the_clock(rt: HostRuntime) -> Result<(), Fail> {
    let mut connection = opened(rt.alloc(), 96)?;
    assert!(rt; !connection.tick(7));
    for _ in 0..5u32 {
        write(&mut connection)?;
    }
    assert!(rt; connection.flush().answer.is_ok());
    assert!(rt; !connection.tick(17));
    assert!(rt; connection.take_sent(12).answer.is_ok());
    assert!(rt; !connection.tick(21));
    assert!(rt; connection.take_sent(4).answer.is_ok());
    assert!(rt; !connection.tick(50));
    let numbers = connection.numbers();
    assert_eq!(rt; (numbers.stops, numbers.stopped), (1, 14));
    Ok(())
}
