//! Who sleeps uses no processor, and is woken. No clause says so: a body that spins, or that wakes nobody, is proved.

use crate::tests::{flushed, four, opened, told as whom, watch};
use ob_shared_connection::commands::{Flush, Write};
use ob_shared_connection::{Handle, Moment, Transport, looks};
use ob_types::Cause;
use std::alloc::Alloc;
use std::fs::{Files, read_to_string};
use std::process::Abort;
use std::sync::Wait;
use std::sync::atomic::{AtomicU64, Ordering};
use std::test::Fail;
use std::thread::{map_vec, sleep};
use std::time::{Clock, Duration, Instant};

/// How many milliseconds others sleep before they are woken.
const LATER: u64 = 300;

/// How many nanoseconds of a processor who sleeps that long may use. Who spins uses as many as it gets.
const IDLE: u64 = 30_000_000;

/// How often two threads hand the lock over, the second one asleep meanwhile.
const ROUNDS: u32 = 25;

/// What one thread does, and what is left of it.
#[derive(Drop)]
enum Sleeper {
    /// Waits until it may write.
    Writes(Handle),
    /// The same, for ten seconds at most.
    WritesWithin(Handle),
    /// Waits until there is work.
    Sends(Transport),
    /// The same, for ten seconds at most.
    SendsWithin(Transport),
    /// Waits for the lock.
    Locks(Handle),
    /// Has the lock, and lets it go later.
    Holds(Handle),
    /// Takes all away that was flushed, later.
    Drains(Transport),
    /// Flushes a message, later.
    Flushes(Handle),
    /// Flushes a message, later, by calls that try the lock, and wakes whom these tell.
    Tries(Handle),
    /// Holds the lock for a while each round, and goes on once the other one had it.
    Leads(Handle),
    /// Asks for the lock each round while the other one holds it.
    Follows(Handle),
    /// Ends all if the others have not ended in time.
    Watches(u64),
    /// It ended, as it should.
    Ended,
    /// It ended, and something was wrong.
    Failed,
}

/// How many nanoseconds of a processor this thread used until now, as Linux counts them: 0 elsewhere.
fn used<R: Files + Alloc>(rt: &R) -> u64 {
    let Ok(text) = read_to_string(rt, "/proc/thread-self/schedstat") else {
        return 0;
    };
    match text.as_str().split_whitespace().next() {
        Some(number) => number.parse().unwrap_or(0),
        None => 0,
    }
}

/// It is as it should be, and the thread slept meanwhile.
fn ended<R: Files + Alloc>(rt: &R, before: u64, is_right: bool) -> Sleeper {
    if is_right && used(rt).saturating_sub(before) < IDLE {
        Sleeper::Ended
    } else {
        Sleeper::Failed
    }
}

/// Whatever it is, it ended well.
fn told(is_right: bool) -> Sleeper {
    if is_right {
        Sleeper::Ended
    } else {
        Sleeper::Failed
    }
}

/// Who sleeps until another thread goes on.
fn sleeps<R: Wait + Clock + Files + Alloc>(rt: &R, sleeper: Sleeper) -> Sleeper {
    let before = used(rt);
    let limit = Duration::from_secs(10);
    match sleeper {
        Sleeper::Writes(handle) => {
            let (_guard, moment) = handle.wait_writable(rt);
            ended(rt, before, moment == Moment::Ready)
        }
        Sleeper::WritesWithin(handle) => {
            let (_guard, moment) = handle.wait_writable_within(rt, limit);
            ended(rt, before, moment == Moment::Ready)
        }
        Sleeper::Sends(mut transport) => {
            let moment = transport.wait_for_work(rt);
            ended(rt, before, moment == Moment::Ready)
        }
        Sleeper::SendsWithin(mut transport) => {
            let moment = transport.wait_for_work_within(rt, limit);
            ended(rt, before, moment == Moment::Ready)
        }
        Sleeper::Locks(handle) => {
            sleep(rt, Duration::from_millis(30));
            let mut guard = handle.lock(rt);
            let total = guard.ask(looks::Look).total;
            ended(rt, before, total == 100)
        }
        other => other,
    }
}

/// Who lets others sleep first.
fn wakes<R: Wait + Clock>(rt: &R, sleeper: Sleeper) -> Sleeper {
    match sleeper {
        Sleeper::Holds(handle) => {
            let mut guard = handle.lock(rt);
            sleep(rt, Duration::from_millis(LATER));
            told(guard.write(four()).is_ok())
        }
        Sleeper::Drains(mut transport) => {
            sleep(rt, Duration::from_millis(LATER));
            told(transport.fail_flushed(rt, Cause(3), true).is_ok())
        }
        Sleeper::Flushes(mut handle) => {
            sleep(rt, Duration::from_millis(LATER));
            told(handle.write(rt, four()).is_ok() && handle.flush(rt).is_ok())
        }
        Sleeper::Tries(handle) => {
            sleep(rt, Duration::from_millis(LATER));
            told(tries(handle))
        }
        Sleeper::Leads(handle) => leads(rt, handle),
        Sleeper::Follows(handle) => follows(rt, handle),
        other => other,
    }
}

/// Nobody has the lock, and the transport waits for what is flushed, and not for what is written.
fn tries(mut handle: Handle) -> bool {
    let Ok((written, wakes)) = handle.try_act(Write(four())) else {
        return false;
    };
    let is_work = wakes.work;
    handle.wake(wakes);
    let Ok((flushed, wakes)) = handle.try_act(Flush) else {
        return false;
    };
    let is_right = wakes.work && !is_work && written.is_ok() && flushed.is_ok();
    handle.wake(wakes);
    is_right
}

/// Waits until the total is this at least. A glance takes no lock, so it wakes nobody.
fn comes_to<R: Wait + Clock>(rt: &R, mut handle: Handle, total: u32) -> Handle {
    for _ in rt.forever() {
        if handle.glance().total >= total {
            return handle;
        }
        sleep(rt, Duration::from_micros(200));
    }
    unreachable!()
}

fn leads<R: Wait + Clock>(rt: &R, mut handle: Handle) -> Sleeper {
    let mut total = 0_u32;
    for _ in 0..ROUNDS {
        let mut guard = handle.lock(rt);
        sleep(rt, Duration::from_millis(15));
        if guard.write(four()).is_err() {
            return Sleeper::Failed;
        }
        total = total.saturating_add(200);
        // nobody else takes the lock meanwhile, so nobody wakes the other one but this
        handle = comes_to(rt, guard.unlock(), total);
    }
    Sleeper::Ended
}

fn follows<R: Wait + Clock>(rt: &R, mut handle: Handle) -> Sleeper {
    for _ in 0..ROUNDS {
        sleep(rt, Duration::from_millis(3));
        if handle.write(rt, four()).is_err() {
            return Sleeper::Failed;
        }
    }
    Sleeper::Ended
}

/// Plays one, and counts it once it ended.
fn plays<R: Wait + Abort + Clock + Files + Alloc>(
    rt: &R,
    count: &AtomicU64,
    sleeper: Sleeper,
) -> Sleeper {
    if let Sleeper::Watches(all) = sleeper {
        watch(rt, count, all);
        return Sleeper::Ended;
    }
    let sleeper = wakes(rt, sleeps(rt, sleeper));
    count.fetch_add(1, Ordering::SeqCst);
    sleeper
}

/// Whether each ended as it should.
fn all_ended(sleepers: &Vec<Sleeper>) -> bool {
    sleepers
        .iter()
        .all(|sleeper| matches!(sleeper, Sleeper::Ended))
}

#[test]
fn who_sleeps_uses_no_processor(rt: HostRuntime) -> Result<(), Fail> {
    let (full, mut writer) = flushed(&rt, rt.alloc(), 5)?;
    let (empty, flusher) = flushed(&rt, rt.alloc(), 0)?;
    let (other, other_flusher) = flushed(&rt, rt.alloc(), 0)?;
    let (third, trier) = flushed(&rt, rt.alloc(), 0)?;
    let mut holder = opened(rt.alloc())?;
    let mut sleepers = Vec::new(rt.alloc());
    sleepers.push(Sleeper::Locks(holder.another()?))?;
    sleepers.push(Sleeper::Holds(holder))?;
    sleepers.push(Sleeper::Writes(writer.another()?))?;
    sleepers.push(Sleeper::WritesWithin(writer))?;
    sleepers.push(Sleeper::Drains(full))?;
    sleepers.push(Sleeper::Sends(empty))?;
    sleepers.push(Sleeper::Flushes(flusher))?;
    sleepers.push(Sleeper::SendsWithin(other))?;
    sleepers.push(Sleeper::Flushes(other_flusher))?;
    sleepers.push(Sleeper::Sends(third))?;
    sleepers.push(Sleeper::Tries(trier))?;
    sleepers.push(Sleeper::Watches(11))?;
    let count = AtomicU64::new(0);
    let sleepers = map_vec(&rt, sleepers, &|sleeper| plays(&rt, &count, sleeper))?;
    assert!(rt; all_ended(&sleepers));
    Ok(())
}

#[test]
fn who_sleeps_for_the_lock_is_woken(rt: HostRuntime) -> Result<(), Fail> {
    let mut leader = opened(rt.alloc())?;
    let mut sleepers = Vec::new(rt.alloc());
    sleepers.push(Sleeper::Follows(leader.another()?))?;
    sleepers.push(Sleeper::Leads(leader))?;
    sleepers.push(Sleeper::Watches(2))?;
    let count = AtomicU64::new(0);
    let sleepers = map_vec(&rt, sleepers, &|sleeper| plays(&rt, &count, sleeper))?;
    assert!(rt; all_ended(&sleepers));
    Ok(())
}

/// How often each of two calls is made in a row, and how often these are timed: the least counts.
const CALLS: u32 = 1000;

const TIMES: u32 = 20;

/// The nanoseconds of as many flushes, each of which wakes whom it has to.
fn of_flushes<R: Wait + Clock>(rt: &R, handle: &mut Handle) -> Option<u128> {
    let start = Instant::now(rt).ok()?;
    for _ in 0..CALLS {
        let _flushed = handle.flush(rt).ok()?;
    }
    Some(start.elapsed(rt).ok()?.as_nanos())
}

/// The same, but for the waking.
fn of_tries<R: Clock>(rt: &R, handle: &mut Handle) -> Option<u128> {
    let start = Instant::now(rt).ok()?;
    for _ in 0..CALLS {
        let (_flushed, wakes) = handle.try_act(Flush).ok()?;
        let _told = whom(wakes);
    }
    Some(start.elapsed(rt).ok()?.as_nanos())
}

#[test]
fn who_lets_the_lock_go_asks_the_system_to_wake_nobody(rt: HostRuntime) -> Result<(), Fail> {
    let mut handle = opened(rt.alloc())?;
    let _written = handle.write(&rt, four())?;
    let mut flushes = u128::MAX;
    let mut tries = u128::MAX;
    for _ in 0..TIMES {
        flushes = flushes.min(of_flushes(&rt, &mut handle).unwrap_or(u128::MAX));
        tries = tries.min(of_tries(&rt, &mut handle).unwrap_or(u128::MAX));
    }
    // to ask it once takes ten times as long as a flush
    assert!(rt; flushes < tries.saturating_mul(3));
    Ok(())
}
