ghost use Rattle.std.specs.Prelude.{◌≡◌, true, IfOk};

mod budget;
mod calls;
mod roles;
mod rows;
mod sending;
mod threads;
mod wakes;
mod writes;

use bytes::Bytes;
use ob_shared_connection::{Handle, Transport, Wakes};
use ob_types::{Estimate, Message, WaterMark};
use std::alloc::Global;
use std::process::Abort;
use std::sync::Wait;
use std::sync::atomic::{AtomicU64, Ordering};
use std::test::Fail;
use std::thread::sleep;
use std::time::{Clock, Duration};

/// The first handle of a connection with marks of 200 and 400 bytes, that counts 96 bytes with each message.
fn opened(alloc: Global) -> Result<Handle, Fail>
    ensures { IfOk result (λ handle. handle.sends ≡ true) }
{
    let estimate = Estimate {
        overhead: 96,
        unknown: 8,
    };
    Ok(Handle::open(alloc, WaterMark::new(200, 400)?, estimate)?)
}

/// Its transport, and a writer that has written and flushed this many blocks of four bytes, which count 100 each.
fn flushed<R: Wait>(rt: &R, alloc: Global, count: u32) -> Result<(Transport, Handle), Fail> {
    let mut transport = opened(alloc)?.into_transport();
    let mut writer = transport.another()?;
    for _ in 0..count {
        let _written = writer.write(rt, four())?;
    }
    let _flushed = writer.flush(rt)?;
    Ok((transport, writer))
}

/// A block of four bytes.
fn four() -> Message {
    Message::Block(Bytes::from_static(b"four"))
}

/// Takes what is told of whom to wake apart: the one who sleeps for the lock, writers, and the transport.
fn told(wakes: Wakes) -> (bool, bool, bool) {
    let Wakes {
        next,
        writers,
        work,
    } = wakes;
    (next, writers, work)
}

/// What a try returned, or what it gives back. Nobody waits, so it wakes nobody.
fn tried<T, E>(told_of: Result<(T, Wakes), E>) -> Result<T, E> {
    match told_of {
        Ok((answer, wakes)) => {
            let _whom = told(wakes);
            Ok(answer)
        }
        Err(again) => Err(again),
    }
}

/// Returns once *n* threads have ended. If they have not in ten seconds, one sleeps that nobody wakes, and this ends
/// the process: a test that fails must not hang.
fn watch<R: Abort + Clock>(rt: &R, ended: &AtomicU64, all: u64) {
    for _ in 0..10_000u32 {
        if ended.load(Ordering::SeqCst) >= all {
            return;
        }
        sleep(rt, Duration::from_millis(1));
    }
    panic!(rt; "a thread sleeps that nobody wakes")
}
