//! Each way in which the end of a connection is told, and told once.

use super::{opened, put, write};
use ob_connection::{Socket, SocketFault};
use ob_lifecycle::{ManagedConnection, WriteFault};
use ob_types::{Cause, Message, Refusal, WaterMark};
use std::alloc::Global;
use std::io::IoSlice;
use std::test::Fail;

/// A socket that takes all that it is offered.
#[derive(Drop)]
struct Open {
    taken: usize,
}

impl Socket for Open {
    ghost use Rattle.std.specs.Prelude.{None};

    ghost sent = { λ _. None };

    ghost calls = { λ _. None };

    fn write_vectored(&mut self, pieces: &[IoSlice<'_>]) -> Result<usize, SocketFault> {
        let Some(first) = pieces.first() else {
            return Ok(0);
        };
        self.taken = first.as_slice().len();
        Ok(self.taken)
    }
}

/// A connection with one flushed block, of which the end was asked for. With an overhead of 0 a region and any other
/// message count nothing.
fn finishing(alloc: Global) -> Result<ManagedConnection, Fail> {
    let mut connection = opened(alloc, 0)?;
    write(&mut connection)?;
    let flushed = connection.flush();
    if flushed.answer.is_err() || flushed.finished || connection.finish() {
        return Err(Fail::new("a block is left"));
    }
    Ok(connection)
}

/// Whether the end was reached, and asking for it once more tells nothing.
fn is_over(connection: &mut ManagedConnection) -> bool {
    connection.is_finished() && !connection.finish()
}

#[test]
fn with_nothing_left_the_end_is_told_at_once(rt: HostRuntime) -> Result<(), Fail> {
    let mut connection = opened(rt.alloc(), 96)?;
    assert!(rt; !connection.is_finishing());
    assert!(rt; connection.finish());
    assert!(rt; is_over(&mut connection));
    assert_eq!(rt; write(&mut connection), Err(WriteFault::Finishing));
    Ok(())
}

#[test]
fn the_removal_of_the_last_byte_tells_the_end(rt: HostRuntime) -> Result<(), Fail> {
    let mut connection = finishing(rt.alloc())?;
    assert_eq!(rt; write(&mut connection), Err(WriteFault::Finishing));
    assert!(rt; !connection.take_sent(3).finished);
    assert!(rt; !connection.progress(1).finished);
    assert!(rt; connection.take_sent(1).finished);
    assert!(rt; is_over(&mut connection));
    Ok(())
}

#[test]
fn each_removal_of_the_last_message_tells_the_end(rt: HostRuntime) -> Result<(), Fail> {
    let mut sent = finishing(rt.alloc())?;
    assert!(rt; sent.remove().finished);
    assert!(rt; is_over(&mut sent));
    let mut failed = finishing(rt.alloc())?;
    assert!(rt; failed.remove_with(Cause(1)).finished);
    assert!(rt; is_over(&mut failed));
    let mut failed_all = finishing(rt.alloc())?;
    assert!(rt; failed_all.fail_flushed(Cause(1), true).finished);
    assert!(rt; is_over(&mut failed_all));
    Ok(())
}

#[test]
fn a_sending_tells_the_end(rt: HostRuntime) -> Result<(), Fail> {
    let mut once = finishing(rt.alloc())?;
    let mut socket = Open { taken: 0 };
    assert!(rt; once.send_once(&mut socket, 8, 100).finished);
    assert!(rt; is_over(&mut once));
    let mut turns = finishing(rt.alloc())?;
    assert!(rt; turns.send_until_blocked(&mut socket, 8, 100).finished);
    assert!(rt; is_over(&mut turns));
    Ok(())
}

#[test]
fn what_no_flush_has_reached_is_waited_for(rt: HostRuntime) -> Result<(), Fail> {
    let mut connection = opened(rt.alloc(), 0)?;
    write(&mut connection)?;
    assert!(rt; !connection.finish());
    assert!(rt; !connection.flush().finished);
    assert!(rt; connection.take_sent(4).finished);
    let mut closed = opened(rt.alloc(), 0)?;
    write(&mut closed)?;
    assert!(rt; !closed.finish());
    assert!(rt; closed.close(Cause(1)).finished);
    assert!(rt; is_over(&mut closed));
    assert_eq!(rt;
        write(&mut closed),
        Err(WriteFault::Refused(Refusal::Closed))
    );
    Ok(())
}

#[test]
fn a_region_that_counts_nothing_is_waited_for(rt: HostRuntime) -> Result<(), Fail> {
    let mut connection = opened(rt.alloc(), 0)?;
    assert!(rt; put(&mut connection, Message::Region(10)).is_ok());
    assert!(rt; connection.flush().answer.is_ok());
    assert_eq!(rt; connection.connection().look().total, 0);
    assert!(rt; !connection.finish());
    assert!(rt; !connection.progress(10).finished);
    assert!(rt; connection.remove().finished);
    assert!(rt; is_over(&mut connection));
    Ok(())
}

#[test]
fn a_cancelled_message_is_waited_for(rt: HostRuntime) -> Result<(), Fail> {
    let mut connection = opened(rt.alloc(), 0)?;
    write(&mut connection)?;
    assert!(rt; !connection.finish());
    let told = connection.cancel(0);
    assert_eq!(rt; (told.answer, told.finished), (Ok(true), false));
    assert!(rt; !connection.flush().finished);
    assert!(rt; connection.take_sent(0).finished);
    Ok(())
}

#[test]
fn a_connection_that_is_given_up_is_over(rt: HostRuntime) -> Result<(), Fail> {
    let mut connection = opened(rt.alloc(), 0)?;
    for _ in 0..3u32 {
        write(&mut connection)?;
    }
    assert!(rt; connection.flush().answer.is_ok());
    write(&mut connection)?;
    assert!(rt; !connection.finish());
    assert!(rt; connection.give_up(Cause(9)).finished);
    assert!(rt; is_over(&mut connection));
    let again = connection.give_up(Cause(9));
    assert_eq!(rt; (again.answer.is_err(), again.finished), (true, false));
    Ok(())
}

#[test]
fn all_else_goes_on(rt: HostRuntime) -> Result<(), Fail> {
    let mut connection = finishing(rt.alloc())?;
    assert!(rt; connection.user_bit(1, false).answer.is_ok());
    assert!(rt; connection.set_marks(WaterMark::new(1, 2)?).answer.is_ok());
    assert!(rt; connection.close(Cause(1)).answer.is_err());
    assert_eq!(rt; connection.cancel(0).answer, Ok(false));
    assert!(rt; connection.is_finishing() && !connection.is_finished());
    assert!(rt; connection.take_sent(4).finished);
    Ok(())
}
