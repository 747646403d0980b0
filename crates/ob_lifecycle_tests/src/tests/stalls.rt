//! Peers that stall, with a window of 30 and at least 10 bytes in it.

use super::{opened, put, write};
use ob_lifecycle::ManagedConnection;
use ob_types::{Cause, Message};
use std::alloc::Global;
use std::test::Fail;

/// A connection with twenty flushed blocks of four bytes, and the time told once.
fn flushed(alloc: Global) -> Result<ManagedConnection, Fail> {
    let mut connection = opened(alloc, 0)?;
    for _ in 0..20u32 {
        write(&mut connection)?;
    }
    if connection.flush().answer.is_err() || connection.tick(100) {
        return Err(Fail::new("no window was open"));
    }
    Ok(connection)
}

#[test]
fn a_peer_that_takes_nothing_is_named_once(rt: HostRuntime) -> Result<(), Fail> {
    let mut connection = flushed(rt.alloc())?;
    assert!(rt; !connection.tick(129));
    assert!(rt; connection.tick(130));
    assert!(rt; !connection.tick(200));
    Ok(())
}

#[test]
fn a_byte_less_than_it_has_to_take_is_too_few(rt: HostRuntime) -> Result<(), Fail> {
    let mut enough = flushed(rt.alloc())?;
    assert!(rt; enough.take_sent(10).answer.is_ok());
    assert!(rt; !enough.tick(130));
    // a window opened anew at 130
    assert!(rt; !enough.tick(159));
    assert!(rt; enough.tick(160));
    let mut too_few = flushed(rt.alloc())?;
    assert!(rt; too_few.take_sent(9).answer.is_ok());
    assert!(rt; too_few.tick(130));
    Ok(())
}

#[test]
fn it_is_named_again_once_it_took_enough(rt: HostRuntime) -> Result<(), Fail> {
    let mut connection = flushed(rt.alloc())?;
    assert!(rt; connection.tick(130));
    assert!(rt; connection.take_sent(9).answer.is_ok());
    assert!(rt; !connection.tick(140));
    assert!(rt; connection.take_sent(1).answer.is_ok());
    assert!(rt; !connection.tick(150));
    assert!(rt; !connection.tick(179));
    assert!(rt; connection.tick(180));
    Ok(())
}

#[test]
fn who_takes_all_is_not_named(rt: HostRuntime) -> Result<(), Fail> {
    let mut connection = opened(rt.alloc(), 0)?;
    for now in 0..5u64 {
        write(&mut connection)?;
        assert!(rt; connection.flush().answer.is_ok());
        assert!(rt; !connection.tick(now * 30 + 1));
        assert!(rt; connection.take_sent(4).answer.is_ok());
    }
    assert!(rt; !connection.tick(1000));
    Ok(())
}

#[test]
fn what_no_flush_has_reached_opens_no_window(rt: HostRuntime) -> Result<(), Fail> {
    let mut connection = opened(rt.alloc(), 0)?;
    write(&mut connection)?;
    assert!(rt; !connection.tick(10));
    assert!(rt; !connection.tick(100));
    assert!(rt; connection.flush().answer.is_ok());
    // the window opens at the first tick after that
    assert!(rt; !connection.tick(110));
    assert!(rt; !connection.tick(139));
    assert!(rt; connection.tick(140));
    Ok(())
}

#[test]
fn a_region_is_taken_by_its_progress(rt: HostRuntime) -> Result<(), Fail> {
    let mut connection = opened(rt.alloc(), 0)?;
    assert!(rt; put(&mut connection, Message::Region(100)).is_ok());
    write(&mut connection)?;
    assert!(rt; connection.flush().answer.is_ok());
    assert!(rt; !connection.tick(1));
    assert!(rt; connection.progress(10).answer.is_ok());
    assert!(rt; !connection.tick(31));
    // who tells that the message in front was sent tells of enough
    assert!(rt; connection.remove().answer.is_ok());
    assert!(rt; !connection.tick(61));
    assert!(rt; connection.tick(91));
    Ok(())
}

#[test]
fn a_time_behind_the_last_tells_nothing(rt: HostRuntime) -> Result<(), Fail> {
    let mut connection = flushed(rt.alloc())?;
    assert!(rt; !connection.tick(50));
    assert!(rt; !connection.tick(129));
    assert!(rt; !connection.tick(0));
    assert!(rt; connection.tick(130));
    Ok(())
}

#[test]
fn a_failing_is_nothing_that_the_peer_took(rt: HostRuntime) -> Result<(), Fail> {
    let mut connection = flushed(rt.alloc())?;
    for _ in 0..5u32 {
        assert!(rt; connection.remove_with(Cause(1)).answer.is_ok());
    }
    assert!(rt; connection.tick(130));
    assert!(rt; connection.fail_flushed(Cause(1), true).answer.is_ok());
    assert!(rt; !connection.tick(200));
    Ok(())
}
