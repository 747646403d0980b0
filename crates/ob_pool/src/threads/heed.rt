//! Writers that heed the marks.

ghost use Rattle.std.specs.Prelude.{◌≡◌};
ghost use Rattle.ob_pool.specs.Threads.{HasRead};

use crate::threads::context::Context;
use ob_history::Booked;
use ob_seq::Buffer;
use ob_shared::{Named, Share};
use ob_types::Command;
use std::sync::Wait;
use std::sync::atomic::Ordering;
use std::thread::Parker;
use std::time::Duration;

/// How many milliseconds a nap takes.
const NAP: u64 = 1;

/// How many naps the writers take at most until the transport has begun.
const NAPS: u32 = 10000;

/// Reads whether the buffer is writable, as a writer of a server does before it writes. If the drive's writers heed that,
/// a write waits for it. Else the plan is carried out whatever is read.
#[inline(always)]
pub fn heed<L: Named, R: Wait>(
    rt: &R,
    context: &Context<L>,
    share: Share<L>,
    command: &Command,
) -> Share<L>
    ensures maker { result.maker ≡ share.maker }
    ensures read { HasRead result }
{
    let mut share = share;
    let glance = share.read(&context.shared);
    if context.heed && glance.word != 0 && matches!(command, Command::Write(_)) {
        share = wait_for_room(rt, context, share);
        let _after = share.read(&context.shared);
    }
    share
}

/// Waits while writers are stopped and something is flushed that the transport may still send.
#[cold]
#[inline(never)]
fn wait_for_room<L: Named, R: Wait>(rt: &R, context: &Context<L>, share: Share<L>) -> Share<L>
    ensures { result.maker ≡ share.maker }
{
    // nobody else has this one, so nothing but time ends a nap
    let parker = Parker::new();
    let mut share = share;
    'naps: for _ in 0..u64::MAX {
        if context.stopped.load(Ordering::SeqCst) {
            return share;
        }
        let desk = context.shared.desk(rt, share);
        let holds = holds_writers(desk.buffer());
        share = desk.leave();
        if !holds {
            return share;
        }
        parker.park_timeout(rt, Duration::from_millis(NAP));
    }
    share
}

/// Whether writers are stopped until something that is flushed is sent.
fn holds_writers(buffer: &Buffer) -> bool {
    !buffer.is_writable() && !buffer.is_empty() && !buffer.is_closed()
}

/// Waits until the transport has begun, for ten seconds at most. If no thread could be made for it, it begins after the
/// writers have ended, and so nobody waits for it.
pub fn wait_for_transport<L: Named, R: Wait>(rt: &R, context: &Context<L>) {
    let parker = Parker::new();
    for _ in 0..NAPS {
        if context.begun.load(Ordering::SeqCst) {
            return;
        }
        parker.park_timeout(rt, Duration::from_millis(NAP));
    }
    context.stopped.store(true, Ordering::SeqCst);
}
