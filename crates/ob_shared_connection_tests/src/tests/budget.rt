//! Connections within one budget of 1000 bytes, with marks of 200 and 800. A block of four bytes counts 100.
ghost use Rattle.std.specs.Prelude.{◌≡◌, true, IfOk};

use crate::tests::{four, told, tried, watch};
use ob_budget::{Bounds, Pressure, RaiseFault};
use ob_covered::{Cover, Told};
use ob_shared_connection::commands::{Remove, Write};
use ob_shared_connection::writes::WriteAndFlush;
use ob_shared_connection::{
    Ended, Handle, NotOpened, OverBudget, Transport, Wakes, WriteFault, looks,
};
use ob_types::{Estimate, Refusal, WaterMark};
use std::alloc::Global;
use std::process::Abort;
use std::sync::Wait;
use std::sync::atomic::{AtomicU64, Ordering};
use std::test::Fail;
use std::thread::{Threads, map_vec, yield_now};
use std::time::Clock;

/// How many messages a writer writes.
const MESSAGES: u32 = 1000;

/// The cover that the budget was opened with.
fn budget(alloc: Global, quantum: u64) -> Result<Cover, Fail> {
    Ok(Cover::open(alloc, Bounds::new(1000, 200, 800)?, quantum)?)
}

/// A connection under a cover that is cut off this one.
fn within(alloc: Global, cover: &mut Cover) -> Result<Handle, Fail>
    ensures { IfOk result (λ handle. handle.sends ≡ true) }
{
    let estimate = Estimate {
        overhead: 96,
        unknown: 8,
    };
    let cover = cover.split()?;
    match Handle::open_within(alloc, WaterMark::new(5000, 9000)?, estimate, cover) {
        Ok(handle) => Ok(handle),
        Err(NotOpened { why, cover: _ }) => Err(why.into()),
    }
}

/// Writes a block, and says which turn of pressure that made, or why the budget refused it.
fn write<R: Wait + Abort>(rt: &R, handle: &mut Handle) -> Result<Option<Pressure>, RaiseFault> {
    let Told { answer, pressure } = handle.act_within(rt, Write(four()));
    match answer {
        Ok(written) => {
            assert!(rt; written.is_ok());
            Ok(pressure)
        }
        Err(OverBudget { fault, act }) => {
            assert!(rt; act.0 == four() && pressure.is_none());
            Err(fault)
        }
    }
}

/// What comes back of an opening under this cover, if there is no memory for it.
fn not_opened(alloc: Global, marks: WaterMark, cover: Cover) -> Option<NotOpened> {
    let estimate = Estimate {
        overhead: 96,
        unknown: 8,
    };
    match Handle::open_within(alloc, marks, estimate, cover) {
        Ok(_handle) => None,
        Err(refused) => Some(refused),
    }
}

#[test]
fn the_cover_comes_back_if_there_is_no_memory(rt: HostRuntime) -> Result<(), Fail> {
    let mut cover = budget(rt.alloc(), 0)?;
    let mut own = cover.split()?;
    assert!(rt; own.take(300) == Ok(None));
    let refused = not_opened(rt.alloc(), WaterMark::new(5000, 9000)?, own);
    if let Some(
        NotOpened {
            why,
            cover: mut back,
        },
    ) = refused
    {
        assert!(rt; why == Refusal::NoMemory && back.held() == 300);
        assert!(rt; back.keep(0).is_none() && cover.look().total == 0);
    }
    Ok(())
}

#[test]
fn pressure_comes_and_goes_and_the_room_ends(rt: HostRuntime) -> Result<(), Fail> {
    let mut cover = budget(rt.alloc(), 0)?;
    let mut first = within(rt.alloc(), &mut cover)?;
    let mut second = within(rt.alloc(), &mut cover)?;
    for count in 1..=8u32 {
        assert!(rt; write(&rt, &mut first) == Ok(None), "write {count}");
    }
    assert!(rt; write(&rt, &mut second) == Ok(Some(Pressure::Began)));
    assert!(rt; write(&rt, &mut first) == Ok(None));
    assert!(rt; write(&rt, &mut second) == Err(RaiseFault::Full));
    assert!(rt; cover.look().total == 1000);
    Ok(())
}

#[test]
fn what_is_taken_away_another_connection_may_write(rt: HostRuntime) -> Result<(), Fail> {
    let mut cover = budget(rt.alloc(), 0)?;
    let mut first = within(rt.alloc(), &mut cover)?.into_transport();
    let mut writer = first.another()?;
    let mut second = within(rt.alloc(), &mut cover)?;
    for _ in 0..10u32 {
        assert!(rt; write(&rt, &mut writer).is_ok());
    }
    assert!(rt; write(&rt, &mut second) == Err(RaiseFault::Full));
    assert!(rt; writer.flush(&rt).is_ok());
    assert!(rt; first.act_within(&rt, Remove).answer.is_ok());
    assert!(rt; write(&rt, &mut second) == Ok(None));
    for _ in 0..9u32 {
        assert!(rt; first.remove(&rt).is_ok());
    }
    // these calls left the seat as it was
    assert!(rt; cover.look().total == 1000);
    assert!(rt; first.settle(&rt) == Some(Pressure::Ended) && cover.look().total == 100);
    Ok(())
}

#[test]
fn a_plain_write_takes_no_more_than_the_seat_holds(rt: HostRuntime) -> Result<(), Fail> {
    let mut cover = budget(rt.alloc(), 0)?;
    let mut handle = within(rt.alloc(), &mut cover)?;
    let Err(refused) = handle.write(&rt, four()) else {
        panic!(rt; "the seat holds nothing")
    };
    assert!(rt; refused.why == WriteFault::Uncovered && refused.message == four());
    let mut guard = handle.lock(&rt);
    assert!(rt; guard.act_within(Write(four())).answer.is_ok());
    assert!(rt; guard.ask(looks::Look).total == 100 && guard.settle().is_none());
    assert!(rt; guard.write_copy(b"four") == Err(WriteFault::Uncovered));
    Ok(())
}

#[test]
fn a_plain_write_may_use_all_that_the_seat_holds(rt: HostRuntime) -> Result<(), Fail> {
    let mut cover = budget(rt.alloc(), 300)?;
    let mut handle = within(rt.alloc(), &mut cover)?;
    assert!(rt; write(&rt, &mut handle) == Ok(None) && cover.look().total == 300);
    for _ in 0..2u32 {
        assert!(rt; handle.write_copy(&rt, b"four").is_ok());
    }
    assert!(rt; handle.write_copy(&rt, b"") == Err(WriteFault::Uncovered));
    Ok(())
}

#[test]
fn an_idle_connection_gives_back_its_quantum(rt: HostRuntime) -> Result<(), Fail> {
    let mut cover = budget(rt.alloc(), 300)?;
    let mut transport = within(rt.alloc(), &mut cover)?.into_transport();
    let mut writer = transport.another()?;
    let told = tried(writer.try_act_within(Write(four())));
    assert!(rt; told.is_ok() && cover.look().total == 300);
    assert!(rt; transport.settle(&rt).is_none() && cover.look().total == 300);
    assert!(rt; transport.rest(&rt).is_none() && cover.look().total == 100);
    let mut guard = writer.lock(&rt);
    assert!(rt; guard.act_within(Write(four())).answer.is_ok() && cover.look().total == 400);
    assert!(rt; guard.rest().is_none() && cover.look().total == 200);
    let mut writer = guard.unlock();
    assert!(rt; writer.rest(&rt).is_none() && cover.look().total == 200);
    Ok(())
}

#[test]
fn what_is_tried_gives_back_too_if_the_lock_is_free(rt: HostRuntime) -> Result<(), Fail> {
    let mut cover = budget(rt.alloc(), 300)?;
    let mut transport = within(rt.alloc(), &mut cover)?.into_transport();
    let mut writer = transport.another()?;
    assert!(rt; write(&rt, &mut writer) == Ok(None) && writer.flush(&rt).is_ok());
    let guard = transport.another()?.lock(&rt);
    assert!(rt; given(writer.try_rest()).is_none() && given(transport.try_rest()).is_none());
    assert!(rt; given(writer.try_settle()).is_none() && given(transport.try_settle()).is_none());
    assert!(rt; tried(transport.try_act_within(Remove)).is_err() && cover.look().total == 300);
    drop(guard);
    // one quantum is no more than two
    assert!(rt; given(writer.try_settle()) == Some(None) && cover.look().total == 300);
    assert!(rt; given(writer.try_rest()) == Some(None) && cover.look().total == 100);
    assert!(rt; tried(transport.try_act_within(Remove)).is_ok() && cover.look().total == 100);
    assert!(rt; given(transport.try_settle()) == Some(None) && cover.look().total == 100);
    assert!(rt; given(transport.try_rest()) == Some(None) && cover.look().total == 0);
    Ok(())
}

/// What a call that tried the lock returned, if that was free.
fn given<T>(gave: Option<(Option<T>, Wakes)>) -> Option<Option<T>> {
    match gave {
        Some((answer, wakes)) => {
            let _whom = told(wakes);
            Some(answer)
        }
        None => None,
    }
}

#[test]
fn what_the_seat_holds_can_be_seen(rt: HostRuntime) -> Result<(), Fail> {
    let mut cover = budget(rt.alloc(), 300)?;
    let mut handle = within(rt.alloc(), &mut cover)?;
    assert!(rt; handle.held(&rt) == Some(0) && write(&rt, &mut handle) == Ok(None));
    assert!(rt; given(handle.try_held()) == Some(Some(300)));
    let mut guard = handle.another()?.lock(&rt);
    assert!(rt; given(handle.try_held()).is_none() && guard.rest().is_none());
    assert!(rt; guard.held() == Some(100));
    Ok(())
}

#[test]
fn a_connection_within_none_is_never_refused_for_one(rt: HostRuntime) -> Result<(), Fail> {
    let estimate = Estimate {
        overhead: 96,
        unknown: 8,
    };
    let mut handle = Handle::open(rt.alloc(), WaterMark::new(200, 400)?, estimate)?;
    for _ in 0..20u32 {
        assert!(rt; write(&rt, &mut handle) == Ok(None));
    }
    assert!(rt; handle.settle(&rt).is_none() && handle.held(&rt).is_none());
    Ok(())
}

#[test]
fn the_last_handle_gets_the_cover_back(rt: HostRuntime) -> Result<(), Fail> {
    let mut cover = budget(rt.alloc(), 0)?;
    let mut handle = within(rt.alloc(), &mut cover)?;
    assert!(rt; write(&rt, &mut handle) == Ok(None));
    let Ok(ended) = handle.finish() else {
        panic!(rt; "a handle is left")
    };
    let Ended {
        connection: _,
        cover: kept,
        handles: _,
        is_left: _,
    } = ended;
    let Some(mut last) = kept else {
        panic!(rt; "the connection had a cover")
    };
    assert!(rt; last.held() == 100 && last.keep(0).is_none() && cover.look().total == 0);
    Ok(())
}

/// What one thread does, and how often it was told that pressure began and that it ended.
#[derive(Drop)]
enum Part {
    /// Writes and flushes all its messages, each as often as it takes until the budget covers it.
    Writes(Handle, u64, u64),
    /// Takes away what is flushed, until it has taken this many messages.
    Takes(Transport, u64, u64, u64),
    /// Looks at the budget, until this many threads have ended.
    Looks(Cover, u64),
    /// Ends all if *n* have not ended in time.
    Watches(u64),
}

/// How often one turn tells that pressure began, and that it ended.
fn turns(told: Option<Pressure>) -> (u64, u64) {
    match told {
        None => (0, 0),
        Some(Pressure::Began) => (1, 0),
        Some(Pressure::Ended) => (0, 1),
    }
}

fn writes<R: Wait + Abort>(rt: &R, mut handle: Handle) -> Part {
    let (mut began, mut ended) = (0_u64, 0_u64);
    let mut left = MESSAGES;
    for _ in rt.forever() {
        if left == 0 {
            return Part::Writes(handle, began, ended);
        }
        let told = handle.act_within(rt, WriteAndFlush(four()));
        let (one, other) = turns(told.pressure);
        began = began.saturating_add(one);
        ended = ended.saturating_add(other);
        match told.answer {
            Ok(written) => {
                assert!(rt; written.is_ok());
                left -= 1;
            }
            Err(_over) => yield_now(),
        }
    }
    unreachable!()
}

fn takes<R: Wait + Abort>(rt: &R, mut transport: Transport, all: u64) -> Part {
    let (mut began, mut ended) = (0_u64, 0_u64);
    let mut taken = 0_u64;
    for _ in rt.forever() {
        if taken >= all {
            return Part::Takes(transport, all, began, ended);
        }
        let _moment = transport.wait_for_work(rt);
        let told = transport.act_within(rt, Remove);
        let (one, other) = turns(told.pressure);
        began = began.saturating_add(one);
        ended = ended.saturating_add(other);
        assert!(rt; told.answer.is_ok());
        taken = taken.saturating_add(1);
    }
    unreachable!()
}

fn looks_on<R: Wait + Abort>(rt: &R, mut cover: Cover, ended: &AtomicU64, all: u64) -> Part {
    for _ in rt.forever() {
        assert!(rt; cover.look().total <= 1000);
        if ended.load(Ordering::SeqCst) >= all {
            return Part::Looks(cover, all);
        }
        yield_now();
    }
    unreachable!()
}

/// Plays a part, and counts it once it ended.
fn played<R: Wait + Abort + Clock>(rt: &R, ended: &AtomicU64, part: Part) -> Part {
    let part = match part {
        Part::Writes(handle, _, _) => writes(rt, handle),
        Part::Takes(transport, all, _, _) => takes(rt, transport, all),
        Part::Looks(cover, all) => return looks_on(rt, cover, ended, all),
        Part::Watches(all) => {
            watch(rt, ended, all);
            return Part::Watches(all);
        }
    };
    ended.fetch_add(1, Ordering::SeqCst);
    part
}

#[test]
fn threads_of_many_connections_stay_within_one_room(rt: HostRuntime) -> Result<(), Fail> {
    let mut cover = budget(rt.alloc(), 0)?;
    let mut parts = Vec::new(rt.alloc());
    for _ in 0..2u32 {
        let mut transport = within(rt.alloc(), &mut cover)?.into_transport();
        for _ in 0..2u32 {
            parts.push(Part::Writes(transport.another()?, 0, 0))?;
        }
        parts.push(Part::Takes(transport, u64::from(MESSAGES) * 2, 0, 0))?;
    }
    parts.push(Part::Looks(cover.split()?, 6))?;
    parts.push(Part::Watches(6))?;
    let ended = AtomicU64::new(0);
    let parts = map_vec(&rt, parts, &|part| played(&rt, &ended, part))?;
    let (mut began, mut over) = (0_u64, 0_u64);
    for part in parts.iter() {
        if let Part::Writes(_, more, others) | Part::Takes(_, _, more, others) = part {
            began = began.saturating_add(*more);
            over = over.saturating_add(*others);
        }
    }
    // nothing is pending any more, so no pressure stands
    assert!(rt; began == over && cover.look().total == 0);
    Ok(())
}
