//! The role of the transport in other hands, and polls in place of waits.

use crate::tests::{flushed, four, opened, told, tried};
use ob_shared_connection::Moment;
use ob_shared_connection::commands::{Flush, Write};
use ob_types::Cause;
use std::test::Fail;

#[test]
fn a_dropped_transport_is_replaced(rt: HostRuntime) -> Result<(), Fail> {
    let (transport, writer) = flushed(&rt, rt.alloc(), 2)?;
    let Err(writer) = writer.take_over(&rt) else {
        panic!(rt; "the transport is there")
    };
    drop(transport);
    let Ok(mut next) = writer.take_over(&rt) else {
        panic!(rt; "nobody has the role")
    };
    let other = next.another()?;
    let Err(_other) = other.take_over(&rt) else {
        panic!(rt; "another has the role")
    };
    assert!(rt; next.take_sent(&rt, 4)?.count == 1);
    Ok(())
}

#[test]
fn who_retires_may_take_the_role_again(rt: HostRuntime) -> Result<(), Fail> {
    let (transport, writer) = flushed(&rt, rt.alloc(), 2)?;
    let Ok(Err(writer)) = tried(writer.try_take_over()) else {
        panic!(rt; "the transport is there")
    };
    let handle = transport.retire();
    let guard = writer.lock(&rt);
    let Err(handle) = tried(handle.try_take_over()) else {
        panic!(rt; "the lock is taken")
    };
    drop(guard);
    let Ok(Ok(mut transport)) = tried(handle.try_take_over()) else {
        panic!(rt; "the lock is free, and nobody has the role")
    };
    assert!(rt; transport.give_up(&rt, Cause(1))?.count == 2);
    Ok(())
}

#[test]
fn a_writer_that_polls_is_told_of_once(rt: HostRuntime) -> Result<(), Fail> {
    let (mut transport, mut writer) = flushed(&rt, rt.alloc(), 5)?;
    let Some((polled, none)) = writer.try_wait_writable() else {
        panic!(rt; "the lock is free")
    };
    let Some((_taken, first)) = transport.try_take_sent(4) else {
        panic!(rt; "the lock is free")
    };
    let Some((_taken, second)) = transport.try_take_sent(12) else {
        panic!(rt; "the lock is free")
    };
    let Some((_taken, third)) = transport.try_take_sent(4) else {
        panic!(rt; "the lock is free")
    };
    let found = (told(none).1, told(first).1, told(second).1, told(third).1);
    assert!(rt; polled == Moment::NotYet);
    assert!(rt; found == (false, false, true, false));
    Ok(())
}

#[test]
fn a_transport_that_polls_is_told_of_once(rt: HostRuntime) -> Result<(), Fail> {
    let mut transport = opened(rt.alloc())?.into_transport();
    let mut writer = transport.another()?;
    let Some((polled, none)) = transport.try_wait_for_work() else {
        panic!(rt; "the lock is free")
    };
    let Ok((_written, first)) = writer.try_act(Write(four())) else {
        panic!(rt; "the lock is free")
    };
    let Ok((_flushed, second)) = writer.try_act(Flush) else {
        panic!(rt; "the lock is free")
    };
    let Some((ready, third)) = transport.try_wait_for_work() else {
        panic!(rt; "the lock is free")
    };
    let found = (told(none).2, told(first).2, told(second).2, told(third).2);
    assert!(rt; (polled, ready) == (Moment::NotYet, Moment::Ready));
    assert!(rt; found == (false, false, true, false));
    Ok(())
}

#[test]
fn a_guard_that_is_left_tells_whom_to_wake(rt: HostRuntime) -> Result<(), Fail> {
    let mut transport = opened(rt.alloc())?.into_transport();
    let writer = transport.another()?;
    let Some((polled, none)) = transport.try_wait_for_work() else {
        panic!(rt; "the lock is free")
    };
    let first = told(none);
    let Ok(mut guard) = writer.try_lock() else {
        panic!(rt; "the lock is free")
    };
    let _written = guard.write(four())?;
    let _flushed = guard.flush()?;
    let (_writer, wakes) = guard.leave();
    let second = told(wakes);
    let Ok(mut guard) = transport.try_lock() else {
        panic!(rt; "it was left")
    };
    let taken = guard.take_sent(4)?;
    let (_transport, wakes) = guard.leave_transport();
    let third = told(wakes);
    assert!(rt; polled == Moment::NotYet && taken.count == 1);
    assert!(rt; (first.2, second.2, third.2) == (false, true, false));
    Ok(())
}

#[test]
fn what_was_gathered_is_taken_under_a_lock_of_its_own(rt: HostRuntime) -> Result<(), Fail> {
    let (mut transport, writer) = flushed(&rt, rt.alloc(), 3)?;
    let Some((pieces, none)) = transport.try_gather(2, 1000) else {
        panic!(rt; "the lock is free")
    };
    let whom = told(none);
    let pieces = pieces?;
    let mut guard = transport.lock(&rt);
    let taken = guard.take_sent(8)?;
    let ended = guard.unlock_transport().into_handle().finish();
    assert!(rt; (pieces.len(), taken.count, whom) == (2, 2, (false, false, false)));
    assert!(rt; ended.is_err());
    assert!(rt;
        [Moment::Ready, Moment::Closed, Moment::NotYet].map(|at| at.is_due()) == [true, true, false]
    );
    drop(writer);
    Ok(())
}
