//! The job of one writer, who carries its plan out, command by command.

ghost use Rattle.std.specs.Prelude.{◌≡◌, ◌+◌, ◌<◌, ◌≤◌, ◌++◌, List, [], ◌∷◌, IfOk, IfErr, vec_capacity, vec_len};
ghost use Rattle.ob_history.specs.declared.receipt.Receipt.{Receipt};
ghost use Rattle.ob_pool.specs.Drive.{ComesOfWork, charge_for};
ghost use Rattle.ob_pool.specs.Inside.{AreTrueIfFit, KeepCounting, counts_in};
ghost use Rattle.ob_pool.specs.Threads.{HasRead, IsBack, IsNumbered, IsOneCall, IsRoomy, asked, done_by};

use crate::fault::DriveFault;
use crate::gate::{Gate, Stuck};
use crate::plan::Plan;
use crate::planning::charge_for;
use crate::report::Counts;
use crate::threads::context::Context;
use crate::threads::heed::heed;
use ob_history::Receipt;
use ob_lanes::Lane;
use ob_shared::{Done, Named, Share};
use ob_types::{Command, Refusal};
use std::marker::Model;
use std::sync::Wait;
use std::time::Clock;

/// A writer's job, which has not begun: its share, its plan, and the room that it needs.
#[derive(Drop)]
pub struct Job<L: Named> {
    pub share: Share<L>,
    pub plan: Plan,
    pub room: u32,
}

impl<L: Named> Model for Job<L> {
    ghost use Rattle.ob_pool.specs.Threads.{Job};

    ghost Value = { Job };

    ghost view = { λ job. record { maker = job.share.maker; plan = job.plan; room = job.room } };
}

/// What a job comes to: its lane, with all its room, and what its writer hands in, with the counts of its receipts, or the
/// fault that ended it.
#[derive(Drop)]
pub struct JobEnd<L: Named> {
    pub lane: Lane,
    pub done: Result<Done<L>, DriveFault>,
    pub counts: Counts,
}

/// What a writer has at work: its share, and the receipts of its calls, with a place for each that is still to come.
#[derive(Drop)]
struct SoFar<L: Named> {
    share: Share<L>,
    receipts: Vec<Receipt>,
}

/// What a step of a writer begins with: its lane, and what it has so far.
#[derive(Drop)]
struct Step<L: Named> {
    lane: Lane,
    so_far: SoFar<L>,
}

/// What a step of a writer comes to: its lane, with all its room, and what it has then, or the fault that ended it.
#[derive(Drop)]
struct StepEnd<L: Named> {
    lane: Lane,
    so_far: Result<SoFar<L>, DriveFault>,
}

impl<L: Named> Job<L> {
    /// Carries the plan out with a lane that has room for it, and gives the lane back. What it hands in has a receipt
    /// of each command, in order. Before each command it reads whether the buffer is writable, and asks its gate, by which
    /// a test holds it there, and tells the gate when it is made; if the drive's writers heed that, a write waits for it.
    pub fn run<R: Wait + Clock, G: Gate>(
        self,
        rt: &R,
        gate: &G,
        context: &Context<L>,
        lane: Lane,
    ) -> JobEnd<L>
        requires words { lane.words ≡ context.now.words }
        requires roomy { IsRoomy context.now.estimate context.now.task self }
        requires numbered { IsNumbered context.now.writers self }
        requires room { self.room ≤ lane.lane.room }
        ensures lane { IsBack lane result.lane }
        ensures done { IfOk result.done (λ done. done_by done ≡ asked self) }
        ensures counted { IfOk result.done (λ done.
            AreTrueIfFit (counts_in context.now.writers done.receipts) result.counts) }
        ensures fault { IfErr result.done (ComesOfWork context.now.writers) }
    {
        let Job {
            share,
            plan,
            room: _,
        } = self;
        let mut receipts = Vec::new(context.alloc);
        let steps = plan.len();
        if receipts.reserve(steps).is_err() {
            return JobEnd {
                lane,
                done: Err(DriveFault::NoMemory),
                counts: Counts::zero(),
            };
        }
        let writer = share.caller();
        let mut lane = lane;
        let mut counts = Counts::zero();
        let mut so_far = SoFar { share, receipts };
        let mut rest = plan.begin();
        'steps: for step in 0..steps {
            let command = rest.command();
            let SoFar { share, receipts } = so_far;
            let share = heed(rt, context, share, command);
            if gate.before(rt, writer, step).is_err() {
                return JobEnd {
                    lane,
                    done: Err(DriveFault::Stuck { writer }),
                    counts: Counts::zero(),
                };
            }
            let begin = Step {
                lane,
                so_far: SoFar { share, receipts },
            };
            let StepEnd {
                lane: same,
                so_far: end,
            } = one_step(rt, gate, context, begin, command, &mut counts);
            rest.advance();
            lane = same;
            match end {
                Ok(after) => so_far = after,
                Err(fault) => {
                    return JobEnd {
                        lane,
                        done: Err(fault),
                        counts: Counts::zero(),
                    };
                }
            }
            gate.after(rt, writer, step);
        }
        let SoFar { share, receipts } = so_far;
        let done = Done {
            share,
            receipts,
            told: Vec::new(context.alloc),
            seen: Vec::new(context.alloc),
        };
        JobEnd {
            lane,
            done: Ok(done),
            counts,
        }
    }
}

/// One step of a writer that has read: one call of the shared buffer, of a write with its charge in the lane meanwhile.
/// The receipt goes behind the others, and is counted.
// in one piece with the loop, so that what a step begins with and comes to is not moved through memory
#[inline(always)]
fn one_step<L: Named, R: Wait + Clock, G: Gate>(
    rt: &R,
    gate: &G,
    context: &Context<L>,
    begin: Step<L>,
    command: &Command,
    counts: &mut Counts,
) -> StepEnd<L>
    requires words { begin.lane.words ≡ context.now.words }
    requires room { charge_for context.now.estimate context.now.task command.now ≤ begin.lane.lane.room }
    requires numbered { begin.so_far.share.maker.caller < context.now.writers }
    requires read { HasRead begin.so_far.share }
    requires place { vec_len begin.so_far.receipts < vec_capacity begin.so_far.receipts }
    ensures lane { IsBack begin.lane result.lane }
    ensures call { IfOk result.so_far (λ after. IsOneCall begin.so_far.share command.now
        begin.so_far.receipts.items after.receipts.items after.share) }
    ensures count { IfOk result.so_far (λ after. vec_len after.receipts ≡ vec_len begin.so_far.receipts + 1) }
    ensures places { IfOk result.so_far (λ after. vec_capacity after.receipts ≡ vec_capacity begin.so_far.receipts) }
    ensures counted { IfOk result.so_far (λ after. KeepCounting context.now.writers
        begin.so_far.receipts.items counts.old after.receipts.items counts.new) }
    ensures fault { IfErr result.so_far (ComesOfWork context.now.writers) }
{
    let Step { lane, so_far } = begin;
    if !matches!(command, Command::Write(_)) {
        return StepEnd {
            lane,
            so_far: one_call(rt, context, so_far, command, counts),
        };
    }
    let writer = so_far.share.caller();
    let step = so_far.receipts.len();
    let charge = charge_for(context.estimate, context.task, command) as u32;
    let mut charged = match lane.charge(rt, &context.words, charge) {
        Ok((charged, _change)) => charged,
        // a lane with room for its plan that owes nothing can be charged with each of its writes
        Err(_) => unreachable!(),
    };
    let total = charged.total(&context.words);
    let so_far = match gate.during(rt, writer, step, total) {
        Ok(()) => one_call(rt, context, so_far, command, counts),
        Err(Stuck) => { Err(DriveFault::Stuck { writer }) }
    };
    let (lane, _change) = charged.discharge(rt, &context.words);
    StepEnd { lane, so_far }
}

/// One call of the shared buffer, from a desk of its own. The receipt goes behind the others, and is counted.
#[inline(always)]
fn one_call<L: Named, R: Wait>(
    rt: &R,
    context: &Context<L>,
    so_far: SoFar<L>,
    command: &Command,
    counts: &mut Counts,
) -> Result<SoFar<L>, DriveFault>
    requires numbered { so_far.share.maker.caller < context.now.writers }
    requires place { vec_len so_far.receipts < vec_capacity so_far.receipts }
    ensures call { IfOk result (λ after.
        IsOneCall so_far.share command.now so_far.receipts.items after.receipts.items after.share) }
    ensures count { IfOk result (λ after. vec_len after.receipts ≡ vec_len so_far.receipts + 1) }
    ensures places { IfOk result (λ after. vec_capacity after.receipts ≡ vec_capacity so_far.receipts) }
    ensures counted { IfOk result (λ after. KeepCounting context.now.writers
        so_far.receipts.items counts.old after.receipts.items counts.new) }
    ensures fault { IfErr result (ComesOfWork context.now.writers) }
{
    let SoFar {
        share,
        mut receipts,
    } = so_far;
    let writer = share.caller();
    let Ok(command) = command.copy() else {
        return Err(DriveFault::NoMemory);
    };
    let mut desk = context.shared.desk(rt, share);
    let answer = desk.keep(command, &mut receipts);
    let share = desk.leave();
    match answer {
        Ok(()) => {
            count_last(&receipts, context.writers, counts);
            Ok(SoFar { share, receipts })
        }
        Err(Refusal::NoMemory) => { Err(DriveFault::NoMemory) }
        Err(refusal) => { Err(DriveFault::Refused { writer, refusal }) }
    }
}

/// Counts the last of receipts, while it is still near.
#[inline(always)]
fn count_last(receipts: &[Receipt], writers: u32, counts: &mut Counts)
    ensures { (before : List Receipt) (one : Receipt) → receipts.now ≡ before ++ one ∷ []
        → KeepCounting writers before counts.old receipts.now counts.new }
{
    match receipts.last() {
        Some(last) => counts.add(last, writers),
        None => {}
    }
}
