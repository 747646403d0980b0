//! Four writers and a transport over one shared buffer, each in a thread of its own, to which
//! `docs/calls.md` points.
#![tactic(auto)]

ghost use Rattle.std.specs.Prelude.{◌≡◌};
ghost use Rattle.ob_shared.specs.Calls.{IsNameOf};
ghost use Rattle.ob_transport.specs.Pass.{standing};
ghost use Rattle.ob_shared_callers.specs.SendsOn.{SendsNext, SendsOn};

use bytes::Bytes;
use ob_history::{Booked, Recorded};
use ob_shared::{Done, Named, Opening, Share, SharedBuffer};
use ob_transport::{Limits, PassFault, Sink, SinkFault, book, drain};
use ob_types::{Answer, Cause, Command, Estimate, Message, PromiseId, Refusal, WaterMark};
use std::alloc::{AllocError, Global};
use std::marker::Brand;
use std::sync::Wait;
use std::thread::{Threads, join, map_vec, sleep};
use std::time::{Clock, Duration};

/// How many writers there are, and how many writes each makes.
const WRITERS: u32 = 4;

const WRITES: u32 = 10;

/// Opens a buffer with Netty's marks and sizes for the writers and the transport, runs them, and gives its whole history.
pub fn serve<R: Threads + Wait + Clock + Sync, S: Sink + Send>(
    rt: &R,
    alloc: Global,
    sink: &mut S,
) -> Result<Recorded, Refusal> {
    let marks = WaterMark::new(32768, 65536)?;
    let estimate = Estimate {
        overhead: 96,
        unknown: 8,
    };
    let opening = Opening::new(alloc, marks, estimate, 1000, WRITERS + 1)?;
    // the name of this one buffer, which its shares carry: what it stands for is said in `proofs/serve`
    run::<Brand, _, _>(rt, alloc, opening, sink)
}

/// Runs the callers of the buffer that is opened.
fn run<L: Named + Send + Sync, R: Threads + Wait + Clock + Sync, S: Sink + Send>(
    rt: &R,
    alloc: Global,
    opening: Opening,
    sink: &mut S,
) -> Result<Recorded, Refusal>
    requires { IsNameOf opening L.opened L.name L.parts }
{
    let (buffer, shares) = opening.begin::<L>()?;
    let dones = in_threads(rt, alloc, &buffer, shares, sink)?;
    match buffer.finish(dones) {
        Ok(finished) => Ok(finished.recorded),
        Err(unfinished) => {
            drop(unfinished);
            Err(Refusal::NoMemory)
        }
    }
}

/// Runs the transport and the writers, each in a thread of its own, and gives what all of them hand in.
fn in_threads<L: Named + Send + Sync, R: Threads + Wait + Clock + Sync, S: Sink + Send>(
    rt: &R,
    alloc: Global,
    buffer: &SharedBuffer<L>,
    shares: Vec<Share<L>>,
    sink: &mut S,
) -> Result<Vec<Done<L>>, AllocError> {
    let mut shares = shares;
    let last = shares.pop().ok_or(AllocError)?;
    // if no second thread can be had, the first of the two runs last, so no writer waits for the transport
    let ((transport, is_sent), writers) = join(
        rt,
        move || send(rt, alloc, buffer, last, sink),
        move || map_vec(rt, shares, &|share| write(rt, alloc, buffer, share)),
    );
    let Ok(mut dones) = told(rt, buffer, writers, is_sent) else {
        drop(transport);
        return Err(AllocError);
    };
    dones.push(transport)?;
    Ok(dones)
}

/// If all is sent, the last of the writers waits until its first write is.
fn told<L: Named, R: Wait>(
    rt: &R,
    buffer: &SharedBuffer<L>,
    writers: Result<Vec<Done<L>>, AllocError>,
    is_sent: bool,
) -> Result<Vec<Done<L>>, AllocError> {
    let mut writers = writers?;
    if is_sent {
        if let Some(writer) = writers.pop() {
            writers.push(is_told(rt, buffer, writer))?;
        }
    }
    Ok(writers)
}

/// A writer writes its messages, and flushes.
fn write<L: Named, R: Wait>(
    rt: &R,
    alloc: Global,
    buffer: &SharedBuffer<L>,
    share: Share<L>,
) -> Done<L> {
    let mut caller = Done::new(alloc, share);
    for _ in 0..WRITES {
        let Ok(message) = Bytes::copy_from_slice(alloc, b"ten bytes.") else {
            break;
        };
        let (same, written) = buffer.call(rt, caller, Command::Write(Message::Block(message)));
        caller = same;
        if written.is_err() {
            break;
        }
    }
    buffer.call(rt, caller, Command::Flush).0
}

/// The promise of the first write of a caller, by its receipts. It shows how a writer finds what to wait for; no clause
/// holds it.
fn first_promise<L: Named>(caller: &Done<L>) -> Option<PromiseId> {
    match &caller.receipts.first()?.reply {
        Ok(reply) => match reply.answer {
            Answer::Id(id) => Some(id),
            _ => None,
        },
        Err(_) => None,
    }
}

/// Waits until the first write of a caller is sent or given up, and keeps the receipt of what settled it.
fn is_told<L: Named, R: Wait>(rt: &R, buffer: &SharedBuffer<L>, caller: Done<L>) -> Done<L> {
    let Some(id) = first_promise(&caller) else {
        return caller;
    };
    let (desk, told) = buffer.wait_settled(rt, caller.share, id);
    let share = desk.leave();
    let mut caller = Done { share, ..caller };
    if let Ok(receipt) = told {
        let _ = caller.told.push(receipt);
    }
    caller
}

/// How much the sink is offered at once.
const LIMITS: Limits = Limits {
    max_count: 64,
    max_bytes: 65536,
};

/// Hands what is flushed to a sink in up to 16 passes, and returns how many bytes the sink took that are not booked,
/// since memory was refused for that. Hand that number in at the next call: they are booked before anything else is
/// sent, or the sink would get them twice. If the sink fails, what is flushed fails too.
pub fn send_on<B: Booked, S: Sink>(booked: &mut B, sink: &mut S, unbooked: u64) -> u64
    ensures sends { SendsOn (B.caller booked.old) unbooked (standing (B.history booked.old) (S.content sink.old))
        result (standing (B.history booked.new) (S.content sink.new)) }
    ensures caller { B.caller booked.new ≡ B.caller booked.old }
{
    if unbooked == 0 {
        return send_next(booked, sink);
    }
    match book(booked, unbooked) {
        Ok(_receipt) => send_next(booked, sink),
        Err(_) => unbooked,
    }
}

/// The same, once all that the sink took is booked.
fn send_next<B: Booked, S: Sink>(booked: &mut B, sink: &mut S) -> u64
    ensures sends { SendsNext (B.caller booked.old) (standing (B.history booked.old) (S.content sink.old)) result
        (standing (B.history booked.new) (S.content sink.new)) }
    ensures caller { B.caller booked.new ≡ B.caller booked.old }
{
    match drain(booked, sink, LIMITS, 16) {
        Err(PassFault::Unbooked { taken }) => taken,
        Err(PassFault::Sink(SinkFault(number))) => {
            let _ = booked.record(Command::FailFlushed(Cause(number), true));
            0
        }
        _ => 0,
    }
}

/// The transport hands what is flushed to a sink until all is written and nothing is left: whether that came.
fn send<L: Named, R: Wait + Clock, S: Sink>(
    rt: &R,
    alloc: Global,
    buffer: &SharedBuffer<L>,
    share: Share<L>,
    sink: &mut S,
) -> (Done<L>, bool) {
    let mut share = share;
    let (mut is_sent, mut unbooked) = (false, 0);
    for _ in 0..10_000u32 {
        let mut desk = buffer.desk(rt, share);
        unbooked = send_on(&mut desk, sink, unbooked);
        let look = desk.look().look;
        let written = 1048576u32.saturating_sub(desk.buffer().writes_left());
        share = desk.leave();
        is_sent = look.size == 0 && look.total == 0 && written == WRITERS * WRITES;
        if is_sent {
            break;
        }
        sleep(rt, Duration::from_millis(1));
    }
    // its receipts were let go inside the passes, and are had again
    let desk = buffer.desk(rt, share);
    let receipts = desk.receipts_since(0).unwrap_or(Vec::new(alloc));
    let share = desk.leave();
    let done = Done {
        receipts,
        ..Done::new(alloc, share)
    };
    (done, is_sent)
}
