//! Handles in threads of their own. Whoever waits here ends only because another thread goes on meanwhile.

use crate::tests::sending::{Slow, drains};
use crate::tests::{flushed, four, opened, watch};
use bytes::Bytes;
use ob_shared_connection::{Handle, Moment, Transport, looks};
use ob_types::Cause;
use std::alloc::AllocError;
use std::process::Abort;
use std::sync::Wait;
use std::sync::atomic::{AtomicU64, Ordering};
use std::test::Fail;
use std::thread::{Parker, Threads, map_vec};
use std::time::{Clock, Duration, Instant};

/// How many messages a writer writes.
const MESSAGES: u32 = 2000;

/// How often a handle takes the lock.
const LOCKS: u32 = 500;

/// What one thread does, and what is left of it.
#[derive(Drop)]
enum Part {
    /// Writes all its messages, each once the connection is writable, and flushes each.
    Writes(Handle),
    /// Takes away what it gathered once there is work, until it has taken this many bytes.
    Sends(Transport, u64),
    /// Sends to a slow socket, until that has taken this many bytes.
    Drips(Transport, Slow, usize),
    /// Takes the lock time and again, and has waited for it this long at most.
    Locks(Handle, Duration),
    /// Waits until it may write.
    WaitsToWrite(Handle),
    /// Waits for work.
    WaitsForWork(Transport),
    /// Waits for what does not come, for a while.
    WaitsOut(Transport, Handle),
    /// Naps, and then closes the connection.
    Closes(Handle),
    /// Naps, and then gives the connection up.
    GivesUp(Transport),
    /// Naps, and then takes all away that was flushed.
    Drains(Transport),
    /// It has found this.
    Found(Moment),
    /// Ends all if *n* have not ended in time.
    Watches(u64),
}

fn writes<R: Wait + Abort>(rt: &R, mut handle: Handle) -> Handle {
    let mut left = MESSAGES;
    for _ in rt.forever() {
        if left == 0 {
            return handle;
        }
        let (mut guard, moment) = handle.wait_writable(rt);
        assert!(rt; moment == Moment::Ready && guard.ask(looks::IsWritable));
        let written = guard.write(four()).is_ok();
        let flushed = guard.flush().is_ok();
        assert!(rt; written && flushed);
        handle = guard.unlock();
        left -= 1;
    }
    unreachable!()
}

fn sends<R: Wait + Abort>(rt: &R, mut transport: Transport, bytes: u64) -> Transport {
    let mut taken = 0;
    for _ in rt.forever() {
        if taken >= bytes {
            return transport;
        }
        assert!(rt; transport.wait_for_work(rt) == Moment::Ready);
        let Ok(blocks) = transport.gather(rt, 16, 1000) else {
            continue;
        };
        let sent = blocks.iter().fold(
            0_u64,
            |sum, block: &Bytes| sum.saturating_add(block.len() as u64),
        );
        // the lock is free here, as it is while a socket is written to
        assert!(rt; sent != 0 && transport.take_sent(rt, sent).is_ok());
        taken = sent.saturating_add(taken);
    }
    unreachable!()
}

/// Lets the others sleep first.
fn naps<R: Wait>(rt: &R) {
    Parker::new().park_timeout(rt, Duration::from_millis(30));
}

/// Takes the lock time and again, and measures the longest wait for it.
fn locks<R: Wait + Abort + Clock>(rt: &R, mut handle: Handle) -> (Handle, Duration) {
    let mut longest = Duration::ZERO;
    for _ in 0..LOCKS {
        let Ok(before) = Instant::now(rt) else {
            panic!(rt; "the clock cannot be read")
        };
        let mut guard = handle.lock(rt);
        let Ok(after) = Instant::now(rt) else {
            panic!(rt; "the clock cannot be read")
        };
        longest = longest.max(after.saturating_duration_since(before));
        assert!(rt; guard.user_bit(1, false).is_ok());
        handle = guard.unlock();
    }
    (handle, longest)
}

/// Waits for writability, for work that is there, and for work that is not. Each wait ends by then, and the last by its
/// time.
fn waits_out<R: Wait + Clock>(rt: &R, mut transport: Transport, writer: Handle) -> bool {
    let limit = Duration::from_millis(2);
    let (guard, waited) = writer.wait_writable_within(rt, limit);
    drop(guard);
    let work = transport.wait_for_work_within(rt, limit);
    let _taken = transport.fail_flushed(rt, Cause(3), true);
    let none = transport.wait_for_work_within(rt, limit);
    (waited, work, none) == (Moment::NotYet, Moment::Ready, Moment::NotYet)
}

fn plays<R: Wait + Abort + Clock>(rt: &R, part: Part) -> Part {
    match part {
        Part::Writes(handle) => Part::Writes(writes(rt, handle)),
        Part::Sends(transport, bytes) => Part::Sends(sends(rt, transport, bytes), bytes),
        Part::Drips(transport, mut socket, bytes) => {
            let transport = drains(rt, transport, &mut socket, bytes);
            Part::Drips(transport, socket, bytes)
        }
        Part::Locks(handle, _) => {
            let (handle, longest) = locks(rt, handle);
            Part::Locks(handle, longest)
        }
        Part::WaitsToWrite(handle) => Part::Found(handle.wait_writable(rt).1),
        Part::WaitsForWork(mut transport) => Part::Found(transport.wait_for_work(rt)),
        Part::WaitsOut(transport, writer) => {
            assert!(rt; waits_out(rt, transport, writer));
            Part::Found(Moment::NotYet)
        }
        Part::Closes(mut handle) => {
            naps(rt);
            assert!(rt; handle.close(rt, Cause(1)).is_ok());
            Part::Closes(handle)
        }
        Part::GivesUp(mut transport) => {
            naps(rt);
            assert!(rt; transport.give_up(rt, Cause(2)).is_ok());
            Part::GivesUp(transport)
        }
        Part::Drains(mut transport) => {
            naps(rt);
            assert!(rt; transport.fail_flushed(rt, Cause(3), true).is_ok());
            Part::Drains(transport)
        }
        other => other,
    }
}

/// Plays a part, and counts it once it ended.
fn counted<R: Wait + Abort + Clock>(rt: &R, count: &AtomicU64, part: Part) -> Part {
    if let Part::Watches(all) = part {
        watch(rt, count, all);
        return Part::Watches(all);
    }
    let part = plays(rt, part);
    count.fetch_add(1, Ordering::SeqCst);
    part
}

/// Plays each part in a thread of its own.
fn played<R: Threads + Wait + Abort + Clock + Sync>(
    rt: &R,
    mut parts: Vec<Part>,
) -> Result<Vec<Part>, AllocError> {
    let all = parts.len() as u64;
    parts.push(Part::Watches(all))?;
    let count = AtomicU64::new(0);
    let mut parts = map_vec(rt, parts, &|part| counted(rt, &count, part))?;
    let _watch = parts.pop();
    Ok(parts)
}

/// How many found that they are ready, and a hundred times as many that it is closed.
fn found(parts: &Vec<Part>) -> u32 {
    let mut ready = 0_u32;
    for part in parts.iter() {
        match part {
            Part::Found(Moment::Ready) => ready = ready.saturating_add(1),
            Part::Found(Moment::Closed) => ready = ready.saturating_add(100),
            _ => {}
        }
    }
    ready
}

#[test]
fn what_writers_flush_the_transport_takes_away(rt: HostRuntime) -> Result<(), Fail> {
    let mut transport = opened(rt.alloc())?.into_transport();
    let mut parts = Vec::new(rt.alloc());
    for _ in 0..4 {
        parts.push(Part::Writes(transport.another()?))?;
    }
    let last = transport.another()?;
    parts.push(Part::Sends(transport, u64::from(MESSAGES) * 16))?;
    drop(played(&rt, parts)?);
    let Ok(ended) = last.finish() else {
        panic!(rt; "a handle is left")
    };
    let look = ended.connection.look();
    assert!(rt; ended.is_left && ended.handles == 6 && (look.total, look.size) == (0, 0));
    Ok(())
}

#[test]
fn all_writers_wake_once_it_is_writable(rt: HostRuntime) -> Result<(), Fail> {
    let (transport, mut writer) = flushed(&rt, rt.alloc(), 5)?;
    let mut parts = Vec::new(rt.alloc());
    parts.push(Part::WaitsToWrite(writer.another()?))?;
    parts.push(Part::WaitsToWrite(writer))?;
    parts.push(Part::Drains(transport))?;
    let parts = played(&rt, parts)?;
    assert!(rt; found(&parts) == 2);
    Ok(())
}

#[test]
fn all_writers_wake_once_it_is_given_up(rt: HostRuntime) -> Result<(), Fail> {
    let (transport, mut writer) = flushed(&rt, rt.alloc(), 5)?;
    let mut parts = Vec::new(rt.alloc());
    parts.push(Part::WaitsToWrite(writer.another()?))?;
    parts.push(Part::WaitsToWrite(writer))?;
    parts.push(Part::GivesUp(transport))?;
    let parts = played(&rt, parts)?;
    assert!(rt; found(&parts) == 200);
    Ok(())
}

#[test]
fn the_transport_wakes_once_it_is_closed(rt: HostRuntime) -> Result<(), Fail> {
    let (transport, writer) = flushed(&rt, rt.alloc(), 0)?;
    let mut parts = Vec::new(rt.alloc());
    parts.push(Part::WaitsForWork(transport))?;
    parts.push(Part::Closes(writer))?;
    let parts = played(&rt, parts)?;
    assert!(rt; found(&parts) == 100);
    Ok(())
}

#[test]
fn a_wait_ends_by_its_time(rt: HostRuntime) -> Result<(), Fail> {
    let (transport, writer) = flushed(&rt, rt.alloc(), 5)?;
    let mut parts = Vec::new(rt.alloc());
    parts.push(Part::WaitsOut(transport, writer))?;
    drop(played(&rt, parts)?);
    Ok(())
}

#[test]
fn a_slow_socket_gets_each_byte_in_order(rt: HostRuntime) -> Result<(), Fail> {
    let mut transport = opened(rt.alloc())?.into_transport();
    let mut parts = Vec::new(rt.alloc());
    for _ in 0..2 {
        parts.push(Part::Writes(transport.another()?))?;
    }
    let bytes = 2 * 4 * MESSAGES as usize;
    let socket = Slow::new(rt.alloc(), usize::MAX, false);
    parts.push(Part::Drips(transport, socket, bytes))?;
    let parts = played(&rt, parts)?;
    let Some(Part::Drips(_, socket, _)) = parts.last() else {
        panic!(rt; "the last one sends")
    };
    let log = socket.log.as_slice();
    assert!(rt; log.len() == bytes && log.chunks(4).all(|message| message == b"four".as_slice()));
    Ok(())
}

#[test]
fn each_of_many_threads_has_the_lock_in_time(rt: HostRuntime) -> Result<(), Fail> {
    let mut first = opened(rt.alloc())?;
    let mut parts = Vec::new(rt.alloc());
    for _ in 0..64 {
        parts.push(Part::Locks(first.another()?, Duration::ZERO))?;
    }
    let parts = played(&rt, parts)?;
    let mut longest = Duration::ZERO;
    for part in parts.iter() {
        if let Part::Locks(_, waited) = part {
            longest = longest.max(*waited);
        }
    }
    assert!(rt; longest < Duration::from_secs(5));
    Ok(())
}
