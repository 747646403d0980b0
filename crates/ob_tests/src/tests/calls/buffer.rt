//! Of `ob_seq`: commands by their names and as values, and looks.

use super::{ESTIMATE, four_bytes, marks};
use bytes::Bytes;
use ob_seq::Buffer;
use ob_types::{Answer, Cause, Change, Command, Message, PromiseId, Refusal};
use std::alloc::Global;
use std::test::Fail;

/// Two blocks of four bytes that are flushed, and a region behind them that is not.
fn two_flushed(alloc: Global) -> Result<Buffer, Refusal> {
    let mut buffer = Buffer::new(alloc, marks()?, ESTIMATE);
    let _first = buffer.apply(Command::Write(four_bytes()))?;
    let _second = buffer.apply(Command::Write(four_bytes()))?;
    let _flushed = buffer.apply(Command::Flush)?;
    let _region = buffer.apply(Command::Write(Message::Region(1000)))?;
    Ok(buffer)
}

/// The answer of a command, and how it changed writability.
fn answer_of(buffer: &mut Buffer, command: Command) -> Result<(Answer, Option<Change>), Refusal> {
    let reply = buffer.apply(command)?;
    Ok((reply.answer, reply.change))
}

/// How many messages a removal of *n* bytes took away.
fn remove_bytes(buffer: &mut Buffer, n: u64) -> Result<Answer, Refusal> {
    let reply = buffer.remove_bytes(n)?;
    Ok(reply.answer)
}

/// 296 bytes are pending, above the high mark. Six bytes take one message away, and half of the next, which counts as before
/// until it is gone: so 196 are left.
#[test]
fn bytes_that_were_sent_are_removed(rt: HostRuntime) -> Result<(), Fail> {
    let mut buffer = two_flushed(rt.alloc())?;
    assert_eq!(rt;
        (
            buffer.look().total,
            buffer.is_writable(),
            buffer.is_empty(),
            buffer.is_closed(),
            buffer.front(),
            remove_bytes(&mut buffer, 6),
            buffer.front(),
            buffer.look().total,
            buffer.is_writable(),
        ),
        (
            296,
            false,
            false,
            false,
            Some(PromiseId(0)),
            Ok(Answer::Count(1)),
            Some(PromiseId(1)),
            196,
            false,
        )
    );
    assert!(rt; buffer.current() == Some(&Message::Block(Bytes::from_static(b"ur"))));
    drop(buffer);
    Ok(())
}

/// How many flushed messages there are, and how many bytes of blocks are left of them.
fn left_in(buffer: &Buffer) -> (u64, u64) {
    let mut count = 0u64;
    let mut bytes = 0u64;
    for message in buffer.flushed() {
        count = count.saturating_add(1);
        if let Message::Block(block) = message {
            bytes = bytes.saturating_add(block.len() as u64);
        }
    }
    (count, bytes)
}

#[test]
fn user_bits_stop_writers_too(rt: HostRuntime) -> Result<(), Fail> {
    let mut buffer = Buffer::new(rt.alloc(), marks()?, ESTIMATE);
    assert_eq!(rt;
        (
            buffer.user_defined_writability(3),
            answer_of(&mut buffer, Command::UserBit(3, false)),
            buffer.user_defined_writability(3),
            buffer.user_defined_writability(32),
            buffer.is_writable(),
            answer_of(&mut buffer, Command::UserBit(3, true)),
            answer_of(&mut buffer, Command::Close(Cause(1))),
            answer_of(&mut buffer, Command::Flush),
            buffer.is_closed(),
            left_in(&buffer),
        ),
        (
            true,
            Ok((Answer::Done, Some(Change::Unwritable))),
            false,
            true,
            false,
            Ok((Answer::Done, Some(Change::Writable))),
            Ok((Answer::Count(0), None)),
            Err(Refusal::Closed),
            true,
            (0, 0),
        )
    );
    drop(buffer);
    Ok(())
}

#[test]
fn what_is_flushed_is_gone_over(rt: HostRuntime) -> Result<(), Fail> {
    let buffer = two_flushed(rt.alloc())?;
    assert_eq!(rt; left_in(&buffer), (2, 8));
    Ok(())
}
