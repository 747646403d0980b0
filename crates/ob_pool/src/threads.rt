//! The threads of a drive: writers, and beside them the transport.

mod context;
mod heed;
mod job;
mod jobs;
mod transport;

ghost use Rattle.std.specs.Prelude.{◌≡◌, ℕ, Ok, IfErr, IfOk, IfSome, IsSome, IsSomeAnd};
ghost use Rattle.std.specs.Thread.{IsSync};
ghost use Rattle.ob_transport.specs.Pass.{MayOffer};
ghost use Rattle.ob_pool.specs.Drive.{ComesOfWork};
ghost use Rattle.ob_pool.specs.Inside.{AreCounted};
ghost use Rattle.ob_pool.specs.Threads.{AreDone, IsBack, JobsHaveEnded, MayBegin, HasTransported};

use crate::fault::DriveFault;
use crate::gate::Gate;
use crate::report::Counts;
pub use context::Context;
use heed::wait_for_transport;
pub use job::Job;
pub use jobs::Writers;
use jobs::{WritersEnd, run_all};
use ob_lanes::Lane;
use ob_shared::{Done, Named, Share};
use ob_transport::Sink;
use std::sync::Wait;
use std::sync::atomic::Ordering;
use std::thread::{Threads, join_mut};
use std::time::Clock;
use transport::transport;

/// What the threads of a drive begin with: its writers, and the share of the transport.
#[derive(Drop)]
pub struct Start<L: Named> {
    pub writers: Writers<L>,
    pub share: Share<L>,
}

/// What they come to: the lane of the writers with all its room, what these hand in, with the counts of their receipts, and
/// what the transport does.
#[derive(Drop)]
pub struct Ended<L: Named> {
    pub lane: Lane,
    pub dones: Vec<Done<L>>,
    pub done: Done<L>,
    pub counts: Counts,
}

/// Lets all writers work, and the transport beside them, until all have ended. The fault is the first of the writers', or
/// else the transport's.
pub fn run<
    L: Named + Send + Sync,
    R: Threads + Wait + Clock + Sync,
    G: Gate + Sync,
    S: Sink + Send,
>(
    rt: &R,
    gate: &G,
    context: &Context<L>,
    start: Start<L>,
    sink: &mut S,
) -> Result<Ended<L>, DriveFault>
    requires ready { MayBegin context.now.words context.now.estimate context.now.task context.now.writers
        start.writers.lane start.writers.jobs.items }
    requires offers { MayOffer context.now.limits }
    ensures lane { IfOk result (λ ended. IsBack start.writers.lane ended.lane) }
    ensures done { IfOk result (λ ended. AreDone start.writers.jobs.items ended.dones.items) }
    ensures counted { IfOk result (λ ended. AreCounted context.now.writers ended.dones.items ended.counts) }
    ensures transported { IfOk result (λ ended.
        HasTransported L.opened.settings start.share.maker (S.content sink.old) (S.content sink.new) ended.done) }
    ensures fault { IfErr result (ComesOfWork context.now.writers) }
{
    let Start { writers, share } = start;
    let mut waiting = Some(writers);
    let mut side = TransportSide {
        context,
        share: Some(share),
    };
    let mut writers = move || -> WritersEnd<L>
        requires row { IsSync R.row }
        requires ready { IsSomeAnd waiting (λ writers. MayBegin context.now.words context.now.estimate context.now.task
            context.now.writers writers.lane writers.jobs.items) }
        ensures { IfSome waiting.entry (λ writers.
            JobsHaveEnded context.entry.now.writers writers.jobs.items writers.lane result.lane result.dones
            result.counts) }
    { writers_side(rt, gate, context, waiting.take()) };
    let mut transport = || transport_side(rt, &mut side, sink);
    let (done, writers_end) = join_mut(rt, &mut transport, &mut writers);
    end_together(writers_end, done)
}

/// What writers and the transport came to together, or the fault of the first of them.
fn end_together<L: Named>(
    writers: WritersEnd<L>,
    done: Result<Done<L>, DriveFault>,
) -> Result<Ended<L>, DriveFault>
    ensures lane { IfOk result (λ ended. ended.lane ≡ writers.lane) }
    ensures dones { IfOk result (λ ended. writers.dones ≡ Ok ended.dones) }
    ensures counts { IfOk result (λ ended. ended.counts ≡ writers.counts) }
    ensures done { IfOk result (λ ended. done ≡ Ok ended.done) }
    ensures fault { (count : ℕ) → IfErr writers.dones (ComesOfWork count) → IfErr done (ComesOfWork count)
        → IfErr result (ComesOfWork count) }
{
    let WritersEnd {
        lane,
        dones,
        counts,
    } = writers;
    Ok(Ended {
        lane,
        dones: dones?,
        done: done?,
        counts,
    })
}

/// The transport's side of a drive: what it uses with the writers, and its share until it begins.
#[derive(Drop)]
struct TransportSide<'d, L: Named> {
    context: &'d Context<L>,
    share: Option<Share<L>>,
}

/// Lets the transport work with the share that was made ready for it.
fn transport_side<L: Named, R: Wait + Clock, S: Sink>(
    rt: &R,
    side: &mut TransportSide<'_, L>,
    sink: &mut S,
) -> Result<Done<L>, DriveFault>
    requires share { IsSome side.old.share }
    requires offers { MayOffer side.old.context.now.limits }
    ensures transported { IfSome side.old.share (λ share.
        IfOk result (HasTransported L.opened.settings share.maker (S.content sink.old) (S.content sink.new))) }
    ensures fault { IfErr result (ComesOfWork 0) }
{
    let Some(share) = side.share.take() else {
        // a join lets each side begin once
        unreachable!()
    };
    let context = side.context;
    context.begun.store(true, Ordering::SeqCst);
    let done = transport(rt, context, share, sink);
    context.stopped.store(true, Ordering::SeqCst);
    done
}

/// Lets all writers work, if they were made ready, and tells when they have ended.
fn writers_side<L: Named + Send + Sync, R: Threads + Wait + Clock + Sync, G: Gate + Sync>(
    rt: &R,
    gate: &G,
    context: &Context<L>,
    start: Option<Writers<L>>,
) -> WritersEnd<L>
    requires { IsSomeAnd start (λ writers. MayBegin context.now.words context.now.estimate context.now.task
        context.now.writers writers.lane writers.jobs.items) }
    ensures { IfSome start (λ writers.
        JobsHaveEnded context.now.writers writers.jobs.items writers.lane result.lane result.dones result.counts) }
{
    let Some(writers) = start else {
        // a join lets each side begin once
        unreachable!()
    };
    if context.heed {
        wait_for_transport(rt, context);
    }
    let ended = run_all(rt, gate, context, writers);
    context.ended.store(true, Ordering::SeqCst);
    context.rested.unpark();
    ended
}
