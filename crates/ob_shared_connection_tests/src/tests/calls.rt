//! Each call once, through handles of one connection in one thread.

use crate::tests::{flushed, four, opened};
use ob_connection::Status;
use ob_shared_connection::{Glance, WriteFault, looks};
use ob_types::{Cause, Change, Outcome, Refusal, WaterMark};
use std::test::Fail;

#[test]
fn handles_write_to_one_connection(rt: HostRuntime) -> Result<(), Fail> {
    let mut first = opened(rt.alloc())?;
    let mut second = first.another()?;
    let ids = (first.write(&rt, four())?.id, second.write(&rt, four())?.id);
    assert!(rt;
        (ids, second.glance())
            == (
                (0, 1),
                Glance {
                    word: 0,
                    total: 200
                }
            )
    );
    Ok(())
}

#[test]
fn what_was_sent_is_taken_away(rt: HostRuntime) -> Result<(), Fail> {
    let (mut transport, mut writer) = flushed(&rt, rt.alloc(), 5)?;
    let gathered = transport.gather(&rt, 2, 100)?.len();
    let before = writer.glance();
    let taken = transport.take_sent(&rt, 18)?;
    let left = writer.ask(&rt, looks::Look).current_progress;
    assert!(rt;
        (gathered, before, left)
            == (
                2,
                Glance {
                    word: 1,
                    total: 500
                },
                2
            )
    );
    assert!(rt; (taken.from, taken.to, taken.change) == (0, 4, Some(Change::Writable)));
    Ok(())
}

#[test]
fn messages_are_removed_one_by_one(rt: HostRuntime) -> Result<(), Fail> {
    let (mut transport, mut writer) = flushed(&rt, rt.alloc(), 2)?;
    let first = transport.remove(&rt)?.settled;
    let second = transport.remove_with(&rt, Cause(3))?.settled;
    assert!(rt;
        first == Some((0, Outcome::Success)) && second == Some((1, Outcome::Failed(Cause(3))))
    );
    assert!(rt; writer.ask(&rt, looks::IsEmpty) && writer.ask(&rt, looks::Front).is_none());
    Ok(())
}

#[test]
fn a_promise_is_taken_back_once(rt: HostRuntime) -> Result<(), Fail> {
    let mut handle = opened(rt.alloc())?;
    let _written = handle.write(&rt, four())?;
    let waits = handle.ask(&rt, looks::Promise(0));
    let cancelled = (handle.cancel(&rt, 0), handle.cancel(&rt, 0));
    assert!(rt; (waits, cancelled) == (Some(Status::Waiting), (Ok(true), Ok(false))));
    Ok(())
}

#[test]
fn bits_and_marks_are_set(rt: HostRuntime) -> Result<(), Fail> {
    let mut handle = opened(rt.alloc())?;
    let change = handle.user_bit(&rt, 5, false)?;
    let set = handle.set_marks(&rt, WaterMark::new(1, 2)?);
    let progress = handle.progress(&rt, 7);
    assert!(rt;
        (change, set, progress)
            == (
                Some(Change::Unwritable),
                Ok(()),
                Err(Refusal::NothingFlushed)
            )
    );
    assert!(rt; !handle.ask(&rt, looks::IsWritable) && handle.glance().word == 32);
    Ok(())
}

#[test]
fn a_connection_is_failed_and_closed(rt: HostRuntime) -> Result<(), Fail> {
    let (mut transport, mut writer) = flushed(&rt, rt.alloc(), 2)?;
    let failed = transport.fail_flushed(&rt, Cause(4), false)?;
    let closed = writer.close(&rt, Cause(5))?;
    assert!(rt;
        (failed.from, failed.to, closed.count) == (0, 2, 0) && writer.ask(&rt, looks::IsClosed)
    );
    assert!(rt; writer.ask(&rt, looks::RefusalOfBlock(b"x")) == Some(Refusal::Closed));
    Ok(())
}

#[test]
fn a_connection_is_given_up(rt: HostRuntime) -> Result<(), Fail> {
    let (mut transport, _writer) = flushed(&rt, rt.alloc(), 2)?;
    let given_up = transport.give_up(&rt, Cause(6))?;
    let again = transport.give_up(&rt, Cause(6));
    assert!(rt; (given_up.from, given_up.to) == (0, 2) && again == Err(Refusal::Closed));
    Ok(())
}

#[test]
fn a_guard_makes_several_calls_under_one_lock(rt: HostRuntime) -> Result<(), Fail> {
    let mut guard = opened(rt.alloc())?.lock(&rt);
    let _written = guard.write(four())?;
    let _flushed = guard.flush()?;
    let taken = guard.take_sent(4)?;
    assert!(rt; taken.count == 1 && guard.ask(looks::Look).total == 0 && guard.ask(looks::IsEmpty));
    let mut handle = guard.unlock();
    assert!(rt; handle.glance().total == 0);
    Ok(())
}

#[test]
fn a_lock_is_taken_if_it_is_free(rt: HostRuntime) -> Result<(), Fail> {
    let (transport, first) = flushed(&rt, rt.alloc(), 2)?;
    let Ok(mut guard) = first.try_lock() else {
        panic!(rt; "nobody has the lock")
    };
    let Err(transport) = transport.try_lock() else {
        panic!(rt; "it is taken")
    };
    assert!(rt; guard.ask(looks::Look).total == 200);
    let first = guard.unlock();
    let Ok(mut guard) = transport.try_lock() else {
        panic!(rt; "it is free again")
    };
    let Err(mut first) = first.try_lock() else {
        panic!(rt; "the transport has it")
    };
    assert!(rt; guard.take_sent(4)?.count == 1 && first.glance().total == 200);
    drop(guard);
    assert!(rt; first.glance().total == 100);
    Ok(())
}

#[test]
fn a_refused_message_comes_back(rt: HostRuntime) -> Result<(), Fail> {
    let mut handle = opened(rt.alloc())?;
    let _closed = handle.close(&rt, Cause(1))?;
    let Err(first) = handle.write(&rt, four()) else {
        panic!(rt; "it is closed")
    };
    let mut guard = handle.lock(&rt);
    let Err(second) = guard.write(first.message) else {
        panic!(rt; "it is closed still")
    };
    assert!(rt; (second.why, second.message) == (WriteFault::Refused(Refusal::Closed), four()));
    Ok(())
}

#[test]
fn joined_handles_end_with_all_their_calls(rt: HostRuntime) -> Result<(), Fail> {
    let mut first = opened(rt.alloc())?;
    let mut second = first.another()?;
    let _written = second.write(&rt, four())?;
    let Err(mut first) = first.finish() else {
        panic!(rt; "another handle is left")
    };
    first.join(second);
    let Ok(ended) = first.finish() else {
        panic!(rt; "no other handle is left")
    };
    assert!(rt; ended.is_left && ended.handles == 2 && ended.connection.look().total == 100);
    Ok(())
}
