//! Tasks that wait for a connection with marks of 200 and 400 bytes. A block of 304 bytes counts 400 and one of 4 counts 100:
//! with both it is not writable.
use bytes::Bytes;
use futures::executor::block_on;
use futures::task::Poll;
use futures::test::MockTask;
use ob_async::{Moment, Outbound};
use ob_types::{Cause, Estimate, Message, WaterMark};
use std::alloc::{AllocGlobal, Global};
use std::random::RandomSource;
use std::sync::{Arc, Wait};
use std::test::Fail;
use std::thread;

fn opened(alloc: Global) -> Result<Outbound, Fail> {
    let estimate = Estimate {
        overhead: 96,
        unknown: 8,
    };
    Outbound::new(alloc, WaterMark::new(200, 400)?, estimate).map_err(|_refused| Fail::new(
        "out of memory",
    ))
}

/// A connection that is not writable, of which nothing is flushed.
fn stopped(alloc: Global) -> Result<Outbound, Fail> {
    let outbound = opened(alloc)?;
    if write(&outbound, &[7; 304]) && write(&outbound, b"four") {
        Ok(outbound)
    } else {
        Err(Fail::new("a write was refused"))
    }
}

fn write(outbound: &Outbound, bytes: &'static [u8]) -> bool {
    let message = Message::Block(Bytes::from_static(bytes));
    outbound
        .lock()
        .is_some_and(|mut connection| connection.write(message).is_ok())
}

fn flush(outbound: &Outbound) -> bool {
    outbound
        .lock()
        .is_some_and(|mut connection| connection.flush().is_ok())
}

fn take_sent(outbound: &Outbound, n: u64) -> bool {
    outbound
        .lock()
        .is_some_and(|mut connection| connection.take_sent(n).is_ok())
}

/// Writes four bytes, flushes them and takes away *n* bytes, with one wake.
fn write_and_send(outbound: &Outbound, n: u64) -> bool {
    outbound.lock().is_some_and(|mut connection| {
        connection.write_copy(b"four").is_ok()
            && connection.together(|connection| {
                connection.flush().is_ok() && connection.take_sent(n).is_ok()
            })
    })
}

fn give_up(outbound: &Outbound) -> bool {
    outbound
        .lock()
        .is_some_and(|mut connection| connection.give_up(Cause(7)).is_ok())
}

#[test]
fn each_waits_for_its_own_and_is_woken_by_it(rt: HostRuntime) -> Result<(), Fail> {
    let outbound = stopped(rt.alloc())?;
    let (writer, sender) = (MockTask::new(&rt)?, MockTask::new(&rt)?);
    let (mut writable, mut has_work) = (outbound.writable(), outbound.has_work());
    let first = (writer.poll(&mut writable), sender.poll(&mut has_work));
    assert!(rt; matches!(first, (Poll::Pending, Poll::Pending)));
    let mut woken = [(writer.is_woken(), sender.is_woken()); 4];
    let flushed = flush(&outbound);
    woken[1] = (writer.is_woken(), sender.is_woken());
    let taken = take_sent(&outbound, 4);
    woken[2] = (writer.is_woken(), sender.is_woken());
    let taken_all = take_sent(&outbound, 304);
    woken[3] = (writer.is_woken(), sender.is_woken());
    assert!(rt; flushed && taken && taken_all);
    let wanted = [(false, false), (false, true), (false, true), (true, true)];
    assert!(rt; woken == wanted);
    assert!(rt; matches!(writer.poll(&mut writable), Poll::Ready(Ok(Moment::Ready))));
    Ok(())
}

#[test]
fn a_connection_that_is_given_up_wakes_all(rt: HostRuntime) -> Result<(), Fail> {
    let outbound = stopped(rt.alloc())?;
    let tasks = [
        MockTask::new(&rt)?,
        MockTask::new(&rt)?,
        MockTask::new(&rt)?,
    ];
    let (mut first, mut second) = (outbound.writable(), outbound.writable());
    let mut has_work = outbound.has_work();
    let waits = (
        tasks[0].poll(&mut first),
        tasks[1].poll(&mut second),
        tasks[2].poll(&mut has_work),
    );
    assert!(rt; matches!(waits, (Poll::Pending, Poll::Pending, Poll::Pending)));
    assert!(rt; give_up(&outbound));
    assert!(rt; tasks.iter().all(|task| task.is_woken()));
    assert!(rt; matches!(tasks[0].poll(&mut first), Poll::Ready(Ok(Moment::Closed))));
    assert!(rt; matches!(tasks[2].poll(&mut has_work), Poll::Ready(Moment::Closed)));
    Ok(())
}

#[test]
fn one_that_is_dropped_leaves_the_queue_to_the_others(rt: HostRuntime) -> Result<(), Fail> {
    let outbound = stopped(rt.alloc())?;
    let tasks = [MockTask::new(&rt)?, MockTask::new(&rt)?];
    let (mut first, mut second) = (outbound.writable(), outbound.writable());
    let waits = (tasks[0].poll(&mut first), tasks[1].poll(&mut second));
    assert!(rt; matches!(waits, (Poll::Pending, Poll::Pending)));
    drop(first);
    assert!(rt; flush(&outbound) && take_sent(&outbound, 308));
    assert!(rt; tasks[1].is_woken());
    Ok(())
}

#[test]
fn a_second_sender_wakes_the_first(rt: HostRuntime) -> Result<(), Fail> {
    let outbound = opened(rt.alloc())?;
    let tasks = [MockTask::new(&rt)?, MockTask::new(&rt)?];
    let (mut first, mut second) = (outbound.has_work(), outbound.has_work());
    let waits = (tasks[0].poll(&mut first), tasks[1].poll(&mut second));
    assert!(rt; matches!(waits, (Poll::Pending, Poll::Pending)));
    assert!(rt; tasks[0].is_woken() && !tasks[1].is_woken());
    assert!(rt; write(&outbound, b"four") && flush(&outbound) && tasks[1].is_woken());
    Ok(())
}

#[test]
fn a_sender_is_woken_only_by_what_is_left(rt: HostRuntime) -> Result<(), Fail> {
    let outbound = opened(rt.alloc())?;
    let task = MockTask::new(&rt)?;
    let mut has_work = outbound.has_work();
    let waits = matches!(task.poll(&mut has_work), Poll::Pending);
    let all = write_and_send(&outbound, 4) && !task.is_woken();
    let left = write_and_send(&outbound, 3) && task.is_woken();
    assert!(rt; (waits, all, left) == (true, true, true));
    Ok(())
}

/// How many messages go through, each of which has its writer wait for room and the sender for work.
const TURNS: u32 = 20_000;

/// Writes messages that fill the connection, each once there is room, and returns whether all went well.
fn writes_all<R: Wait + RandomSource + AllocGlobal>(rt: &R, outbound: &Arc<Outbound>) -> bool {
    (0..TURNS).all(|_turn| {
        let Ok(waiting) = Arc::try_clone(outbound) else {
            return false;
        };
        let room = block_on(rt, Outbound::writable_owned(waiting));
        matches!(room, Ok(Ok(Moment::Ready))) && write(outbound, &[7; 400]) && flush(outbound)
    })
}

/// Takes as many away, each once it is there, and returns whether all went well.
fn sends_all<R: Wait + RandomSource + AllocGlobal>(rt: &R, outbound: &Arc<Outbound>) -> bool {
    (0..TURNS).all(|_turn| {
        let Ok(waiting) = Arc::try_clone(outbound) else {
            return false;
        };
        let work = block_on(rt, Outbound::has_work_owned(waiting));
        matches!(work, Ok(Moment::Ready)) && take_sent(outbound, 400)
    })
}

#[test]
fn no_turn_is_missed_by_threads_that_cross(rt: HostRuntime) -> Result<(), Fail> {
    let Ok(outbound) = Arc::new(rt.alloc(), opened(rt.alloc())?) else {
        return Err(Fail::new("out of memory"));
    };
    let (outbound, rt) = (&outbound, &rt);
    let (written, sent) = thread::join(
        rt,
        move || writes_all(rt, outbound),
        move || sends_all(rt, outbound),
    );
    assert!(rt; written && sent);
    Ok(())
}
