//! All writers, in threads of their own.

ghost use Rattle.std.specs.Prelude.{◌≡◌, ◌+◌, ◌<◌, ◌≤◌, ◌^◌, ◌++◌, ℕ, IfErr, IfOk, IsOkAnd, vec_len};
ghost use Rattle.std.specs.Thread.{IsSync};
ghost use Rattle.ob_pool.specs.Drive.{ComesOfWork};
ghost use Rattle.ob_pool.specs.Inside.{AreCounted};
ghost use Rattle.ob_pool.specs.Threads.{AreDone, JobsHaveEnded, MayBegin, room_for};

use crate::fault::DriveFault;
use crate::gate::Gate;
use crate::report::Counts;
use crate::threads::context::Context;
use crate::threads::job::{Job, JobEnd};
use ob_lanes::Lane;
use ob_shared::{Done, Named};
use std::sync::Wait;
use std::thread::{Threads, join};
use std::time::Clock;

/// Writers that have not begun, with one lane that has room for all.
#[derive(Drop)]
pub struct Writers<L: Named> {
    pub lane: Lane,
    pub jobs: Vec<Job<L>>,
}

/// What writers come to: their lane, with all its room, and what they hand in, with the counts of their receipts, or the
/// fault of the first of them.
#[derive(Drop)]
pub struct WritersEnd<L: Named> {
    pub lane: Lane,
    pub dones: Result<Vec<Done<L>>, DriveFault>,
    pub counts: Counts,
}

/// Lets writers work, each in a thread of its own if one can be made. The list is halved down to one writer, with
/// the lane split before and joined after.
#[cycle(run)]
pub fn run_all<L: Named + Send + Sync, R: Threads + Wait + Clock + Sync, G: Gate + Sync>(
    rt: &R,
    gate: &G,
    context: &Context<L>,
    writers: Writers<L>,
) -> WritersEnd<L>
    requires { MayBegin context.now.words context.now.estimate context.now.task context.now.writers
        writers.lane writers.jobs.items }
    ensures { JobsHaveEnded context.now.writers writers.jobs.items writers.lane result.lane result.dones result.counts }
{
    if writers.jobs.len() < 2 {
        return one_alone(rt, gate, context, writers);
    }
    let Writers { lane, mut jobs } = writers;
    let Ok(others) = jobs.split_off(jobs.len() / 2) else {
        return WritersEnd {
            lane,
            dones: Err(DriveFault::NoMemory),
            counts: Counts::zero(),
        };
    };
    // A room is a word of 32 bits.
    let _most = lane.room();
    match lane.split(&context.words, room_for(&others), 0) {
        Ok((lane, other)) => {
            let front = Writers { lane, jobs };
            let back = Writers {
                lane: other,
                jobs: others,
            };
            both_halves(rt, gate, context, front, back)
        }
        // a lane with room for all writers can be split
        Err(_) => unreachable!(),
    }
}

/// Lets two lists of writers work at the same time.
#[cycle(run)]
fn both_halves<L: Named + Send + Sync, R: Threads + Wait + Clock + Sync, G: Gate + Sync>(
    rt: &R,
    gate: &G,
    context: &Context<L>,
    front: Writers<L>,
    back: Writers<L>,
) -> WritersEnd<L>
    requires some { 0 < vec_len front.jobs }
    requires some_other { 0 < vec_len back.jobs }
    requires ready { MayBegin context.now.words context.now.estimate context.now.task context.now.writers
        front.lane front.jobs.items }
    requires other_ready { MayBegin context.now.words context.now.estimate context.now.task context.now.writers
        back.lane back.jobs.items }
    requires whole { front.lane.lane.room + back.lane.lane.room ≤ front.lane.words.grant.room }
    ensures words { result.lane.words ≡ front.lane.words }
    ensures room { result.lane.lane.room ≡ front.lane.lane.room + back.lane.lane.room }
    ensures done { IfOk result.dones (λ dones. AreDone (front.jobs.items ++ back.jobs.items) dones.items) }
    ensures counted { IfOk result.dones (λ dones. AreCounted context.now.writers dones.items result.counts) }
    ensures fault { IfErr result.dones (ComesOfWork context.now.writers) }
{
    let first = move || -> WritersEnd<L>
        requires row { IsSync R.row }
        requires ready { MayBegin context.now.words context.now.estimate context.now.task context.now.writers
            front.lane front.jobs.items }
        ensures { JobsHaveEnded context.entry.now.writers front.jobs.items front.lane result.lane result.dones
            result.counts }
    { run_all(rt, gate, context, front) };
    let second = move || -> WritersEnd<L>
        requires row { IsSync R.row }
        requires ready { MayBegin context.now.words context.now.estimate context.now.task context.now.writers
            back.lane back.jobs.items }
        ensures { JobsHaveEnded context.entry.now.writers back.jobs.items back.lane result.lane result.dones
            result.counts }
    { run_all(rt, gate, context, back) };
    let (ended, more) = join(rt, first, second);
    let mut counts = ended.counts;
    counts.add_all(&more.counts);
    WritersEnd {
        lane: ended.lane.join(&context.words, more.lane),
        dones: both_handed(ended.dones, more.dones),
        counts,
    }
}

/// What two lists of writers hand in together.
fn both_handed<L: Named>(
    dones: Result<Vec<Done<L>>, DriveFault>,
    more: Result<Vec<Done<L>>, DriveFault>,
) -> Result<Vec<Done<L>>, DriveFault>
    ensures first { IfOk result (λ all. IsOkAnd dones (λ one. IsOkAnd more (λ other.
        all.items ≡ one.items ++ other.items))) }
    ensures fault { (writers : ℕ) → IfErr dones (ComesOfWork writers) → IfErr more (ComesOfWork writers)
        → IfErr result (ComesOfWork writers) }
{
    let mut dones = dones?;
    let mut more = more?;
    match dones.append(&mut more) {
        Ok(()) => Ok(dones),
        Err(_) => Err(DriveFault::NoMemory),
    }
}

/// Lets one writer work, if there is one.
fn one_alone<L: Named, R: Wait + Clock, G: Gate>(
    rt: &R,
    gate: &G,
    context: &Context<L>,
    writers: Writers<L>,
) -> WritersEnd<L>
    requires few { vec_len writers.jobs < 2 }
    requires ready { MayBegin context.now.words context.now.estimate context.now.task context.now.writers
        writers.lane writers.jobs.items }
    ensures { JobsHaveEnded context.now.writers writers.jobs.items writers.lane result.lane result.dones result.counts }
{
    let Writers { lane, mut jobs } = writers;
    let last = jobs.pop();
    let Some(job) = last else {
        return WritersEnd {
            lane,
            dones: Ok(Vec::new(context.alloc)),
            counts: Counts::zero(),
        };
    };
    let mut dones = Vec::new(context.alloc);
    if dones.reserve(1).is_err() {
        return WritersEnd {
            lane,
            dones: Err(DriveFault::NoMemory),
            counts: Counts::zero(),
        };
    }
    let JobEnd { lane, done, counts } = job.run(rt, gate, context, lane);
    match done {
        Ok(done) => {
            dones.push_reserved(done);
            WritersEnd {
                lane,
                dones: Ok(dones),
                counts,
            }
        }
        Err(fault) => WritersEnd {
            lane,
            dones: Err(fault),
            counts: Counts::zero(),
        },
    }
}

/// The room that writers need together.
fn room_for<L: Named>(jobs: &[Job<L>]) -> u32
    requires { room_for jobs.now < 2 ^ 32 }
    ensures { result ≡ room_for jobs.now }
{
    let mut room = 0;
    for job in jobs {
        room += job.room;
    }
    room
}
