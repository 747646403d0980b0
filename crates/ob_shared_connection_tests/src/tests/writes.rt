//! Writes with the flush behind them, copies, and what is made of acts and looks if the lock is free.

use crate::tests::{flushed, four, opened, tried};
use ob_connection::Status;
use ob_shared_connection::{WriteFault, commands, looks, writes};
use ob_types::{Cause, Change, Message, Refusal, WaterMark};
use std::test::Fail;

/// What a write to a closed connection answers.
const CLOSED: WriteFault = WriteFault::Refused(Refusal::Closed);

#[test]
fn a_write_is_flushed_behind_it(rt: HostRuntime) -> Result<(), Fail> {
    let mut writer = opened(rt.alloc())?;
    let _written = writer.write(&rt, four())?;
    let first = writer.write_and_flush(&rt, four())?;
    assert!(rt; (first.written.id, first.flushed.count) == (1, 2));
    let second = writer.write_copy_and_flush(&rt, &[7; 105])?;
    assert!(rt;
        (
            second.written.id,
            second.written.change,
            second.flushed.count
        ) == (2, Some(Change::Unwritable), 1)
    );
    let look = writer.ask(&rt, looks::Look);
    assert!(rt; (look.size, look.total) == (3, 401));
    Ok(())
}

#[test]
fn a_write_that_is_refused_is_not_flushed(rt: HostRuntime) -> Result<(), Fail> {
    let mut writer = opened(rt.alloc())?;
    let _closed = writer.close(&rt, Cause(1))?;
    let Err(refused) = writer.write_and_flush(&rt, four()) else {
        panic!(rt; "it is closed")
    };
    assert!(rt; (refused.why, refused.message) == (CLOSED, four()));
    let Ok(Err(again)) = tried(writer.try_act(writes::WriteAndFlush(four()))) else {
        panic!(rt; "the lock is free, and it is closed")
    };
    assert!(rt; (again.why, again.message) == (CLOSED, four()));
    assert!(rt; writer.write_copy_and_flush(&rt, b"x") == Err(CLOSED));
    Ok(())
}

#[test]
fn the_flush_behind_a_write_drops_what_was_taken_back(rt: HostRuntime) -> Result<(), Fail> {
    let mut writer = opened(rt.alloc())?;
    let _written = writer.write_copy(&rt, &[1; 300])?;
    let _cancelled = writer.cancel(&rt, 0)?;
    let done = writer.write_and_flush(&rt, four())?;
    assert!(rt;
        (done.written.change, done.flushed.change, done.flushed.count)
            == (Some(Change::Unwritable), Some(Change::Writable), 2)
    );
    Ok(())
}

#[test]
fn a_taken_lock_gives_all_back(rt: HostRuntime) -> Result<(), Fail> {
    let mut writer = opened(rt.alloc())?;
    let mut guard = writer.another()?.lock(&rt);
    let _copied = guard.write_copy(b"copied")?;
    let Err(write) = tried(writer.try_act(writes::WriteAndFlush(four()))) else {
        panic!(rt; "the lock is taken")
    };
    let Err(act) = tried(writer.try_act(commands::Cancel(7))) else {
        panic!(rt; "the lock is taken")
    };
    assert!(rt; write.0 == four() && act.0 == 7);
    assert!(rt; tried(writer.try_ask(looks::Promise(7))).is_err());
    drop(guard);
    let Ok(Ok(done)) = tried(writer.try_act(write)) else {
        panic!(rt; "it is free again")
    };
    assert!(rt; (done.written.id, done.flushed.count) == (1, 2));
    Ok(())
}

#[test]
fn acts_and_looks_are_made_if_the_lock_is_free(rt: HostRuntime) -> Result<(), Fail> {
    let mut writer = opened(rt.alloc())?;
    let parts: [&[u8]; 2] = [b"head", b"body"];
    let Ok(Ok(written)) = tried(writer.try_act(writes::WriteParts(&parts))) else {
        panic!(rt; "the lock is free")
    };
    let Ok(Ok(put)) = tried(writer.try_act(writes::Put(Message::Region(9)))) else {
        panic!(rt; "the lock is free")
    };
    let Ok(Ok(())) = tried(writer.try_act(commands::SetMarks(WaterMark::new(1, 2)?))) else {
        panic!(rt; "the lock is free")
    };
    let Ok(Ok(done)) = tried(writer.try_act(writes::PutAndFlush(four()))) else {
        panic!(rt; "the lock is free")
    };
    let Ok(state) = tried(writer.try_ask(looks::Promise(1))) else {
        panic!(rt; "the lock is free")
    };
    assert!(rt; (written.id, put.id, done.flushed.count, state) == (0, 1, 3, Some(Status::Fixed)));
    Ok(())
}

#[test]
fn a_transport_removes_if_the_lock_is_free(rt: HostRuntime) -> Result<(), Fail> {
    let (mut transport, writer) = flushed(&rt, rt.alloc(), 2)?;
    let guard = writer.lock(&rt);
    assert!(rt; tried(transport.try_act(commands::Remove)).is_err());
    assert!(rt; tried(transport.try_ask(looks::Front)).is_err());
    drop(guard);
    let Ok(Ok(removed)) = tried(transport.try_act(commands::Remove)) else {
        panic!(rt; "the lock is free")
    };
    let Ok(front) = tried(transport.try_ask(looks::Front)) else {
        panic!(rt; "the lock is free")
    };
    assert!(rt; removed.any && front == Some(1));
    Ok(())
}
