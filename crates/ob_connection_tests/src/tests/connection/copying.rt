//! Messages that are written as bytes, and what waits then.

use super::{flushed, open, sent, written};
use bytes::Bytes;
use ob_connection::Connection;
use ob_types::{Cause, Change, Message, Refusal, WaterMark};
use std::test::Fail;

/// A message that shares a chunk.
const SMALL: &[u8] = &[7; 2000];

/// The messages that a gathering of at most eight finds, as one text.
fn gathered(connection: &Connection) -> Result<Vec<u8>, Refusal> {
    let blocks = connection.gather(8, 20000)?;
    let mut all = Vec::new(*blocks.allocator());
    for block in &blocks {
        all.extend_from_slice(block.as_slice())?;
    }
    Ok(all)
}

#[test]
fn copies_and_parts_are_messages_of_their_bytes(rt: HostRuntime) -> Result<(), Fail> {
    let mut connection = open(rt.alloc())?;
    // each of the four has memory of its own, and what is written while four wait shares a chunk
    let alone = [b"a", b"b", b"c", b"d"].map(|bytes| connection.write_copy(bytes));
    let shared = [
        connection.write_copy(b"one"),
        connection.write_parts(&[b"he", b"", b"ad"]),
        connection.write_parts(&[]),
    ];
    let before = (connection.unflushed_count(), connection.waiting_count());
    let flush = connection.flush();
    let bytes = gathered(&connection)?;
    let take = connection.take_sent(4 + 3 + 1);
    let after = (connection.unflushed_count(), connection.waiting_count());
    assert_eq!(rt;
        (alone, shared, before, flush, bytes.as_slice(), take, after),
        (
            // 97 bytes each are pending, above 200 from the third on
            [
                written(0, None),
                written(1, None),
                written(2, Some(Change::Unwritable)),
                written(3, None),
            ],
            [written(4, None), written(5, None), written(6, None)],
            (7, 7),
            flushed(7),
            b"abcdonehead".as_slice(),
            // three bytes are left of the sixth, which counts its hundred still, and the last counts 96
            sent(0, 5),
            (0, 2),
        )
    );
    drop((connection, bytes));
    Ok(())
}

#[test]
fn a_block_is_shared_by_the_messages_of_its_bytes(rt: HostRuntime) -> Result<(), Fail> {
    let mut connection = open(rt.alloc())?;
    let block = Bytes::copy_from_slice(rt.alloc(), b"tick")?;
    let shared = [
        connection.write_shared(&block),
        connection.write_shared(&block),
    ];
    let _flushed = connection.flush()?;
    let bytes = gathered(&connection)?;
    let _failed = connection.fail_flushed(Cause(1), false)?;
    let _taken = connection.close(Cause(1))?;
    assert_eq!(rt;
        (
            shared,
            bytes.as_slice(),
            block.as_slice(),
            connection.write_shared(&block)
        ),
        (
            [written(0, None), written(1, None)],
            b"ticktick".as_slice(),
            b"tick".as_slice(),
            Err(Refusal::Closed)
        )
    );
    drop((connection, bytes, block));
    Ok(())
}

#[test]
fn chunks_end_and_begin_where_messages_do(rt: HostRuntime) -> Result<(), Fail> {
    let mut connection = open(rt.alloc())?;
    // four have memory of their own; the others fill a chunk of 2000 bytes and one of 4000 to the last byte, and the
    // longest has memory of its own again
    for _ in 0..7 {
        let _written = connection.write_copy(SMALL)?;
    }
    let _written = connection.write_copy(&[8; 2049])?;
    let _flushed = connection.flush()?;
    let bytes = gathered(&connection)?;
    assert_eq!(rt;
        (
            bytes.iter().take(14000).all(|&byte| byte == 7),
            bytes.iter().skip(14000).all(|&byte| byte == 8),
            bytes.len()
        ),
        (true, true, 14000 + 2049)
    );
    drop((connection, bytes));
    Ok(())
}

/// Writes *n* messages without a byte, and returns the room then.
fn room_after(connection: &mut Connection, n: usize) -> Result<usize, Fail> {
    for _ in 0..n {
        let _written = connection
            .write(Message::Block(Bytes::new()))
            .map_err(Refusal::from)?;
    }
    Ok(connection.room())
}

/// Sends all, and returns the room that is left.
fn room_left(connection: &mut Connection) -> Result<usize, Fail> {
    let _flushed = connection.flush()?;
    let _taken = connection.take_sent(0)?;
    Ok(connection.room())
}

#[test]
fn room_is_taken_in_few_steps_and_given_back(rt: HostRuntime) -> Result<(), Fail> {
    let mut connection = open(rt.alloc())?;
    let none = connection.room();
    // 1, 5, 17, 33, 65 and 129 messages wait
    let mut rooms = [1, 4, 12, 16, 32, 64];
    for room in &mut rooms {
        *room = room_after(&mut connection, *room)?;
    }
    let left = room_left(&mut connection)?;
    // many came, so it makes room for many once the few places are full
    let again = [
        room_after(&mut connection, 3)?,
        room_after(&mut connection, 1)?,
    ];
    let left_again = room_left(&mut connection)?;
    connection.shrink_to_fit();
    assert_eq!(rt;
        (none, rooms, left, again, left_again, connection.room()),
        (0, [4, 16, 32, 64, 128, 256], 3, [3, 32], 3, 0)
    );
    drop(connection);
    Ok(())
}

#[test]
fn of_few_places_all_or_none_are_kept(rt: HostRuntime) -> Result<(), Fail> {
    let mut connection = open(rt.alloc())?;
    let four = (room_after(&mut connection, 4)?, room_left(&mut connection)?);
    let five = (room_after(&mut connection, 5)?, room_left(&mut connection)?);
    assert_eq!(rt; (four, five), ((4, 4), (16, 0)));
    drop(connection);
    Ok(())
}

#[test]
fn a_segment_is_freed_with_its_last_message(rt: HostRuntime) -> Result<(), Fail> {
    let mut connection = open(rt.alloc())?;
    assert!(rt; !connection.has_place());
    for _ in 0..300 {
        let _written = connection
            .write(Message::Block(Bytes::new()))
            .map_err(Refusal::from)?;
    }
    let _flushed = connection.flush()?;
    // two segments of 128, and 44 in a third
    let all = (connection.room(), connection.capacity());
    let some = (removed(&mut connection, 100)?, connection.capacity());
    let first = (removed(&mut connection, 28)?, connection.capacity());
    assert_eq!(rt; (all, some, first), ((384, 384), (284, 384), (256, 256)));
    assert!(rt; connection.has_place());
    drop(connection);
    Ok(())
}

/// Removes *n* messages, and returns the room that is left.
fn removed(connection: &mut Connection, n: usize) -> Result<usize, Fail> {
    for _ in 0..n {
        let _removed = connection.remove()?;
    }
    Ok(connection.room())
}

#[test]
fn marks_in_force_and_refusals_of_a_length(rt: HostRuntime) -> Result<(), Fail> {
    let mut connection = open(rt.alloc())?;
    let marks = connection.marks();
    connection.set_marks(WaterMark::new(5, 6)?)?;
    let long = connection.refusal_of_length(2147483647 - 95);
    let fits = connection.refusal_of_length(2147483647 - 96);
    let set = connection.marks();
    let overhead = connection.estimate().overhead;
    let _taken = connection.close(Cause(1))?;
    assert_eq!(rt;
        (
            [marks, set],
            overhead,
            [long, fits, connection.refusal_of_length(0)],
            connection.write_copy(b"late"),
            connection.write_parts(&[b"late"]),
        ),
        (
            [WaterMark::new(100, 200)?, WaterMark::new(5, 6)?],
            96,
            [Some(Refusal::Oversize), None, Some(Refusal::Closed)],
            Err(Refusal::Closed),
            Err(Refusal::Closed),
        )
    );
    drop(connection);
    Ok(())
}
