//! A drive from its plans to its report.

ghost use Rattle.std.specs.Prelude.{◌≡◌, ◌<◌, ◌+◌, ℕ, None, length};
ghost use Rattle.std.specs.Prelude.{IfErr, IfOk, IfSome, IsErrOf, IsSome};
ghost use Rattle.ob_types.specs.declared.refusal.Refusal.{Refusal};
ghost use Rattle.ob_types.specs.declared.refusal.Refusal.TheVariants.{HistoryFull};
ghost use Rattle.ob_shared.specs.Calls.{IsNameOf};
ghost use Rattle.ob_pool.specs.Drive.{AreWithin, first_history, ComesOfWork, NamesOneOf, number_of, plans_fault};
ghost use Rattle.ob_pool.specs.Inside.{AreChecked};
ghost use Rattle.ob_pool.specs.Report.{TellsOf, TellsOfSink};
ghost use Rattle.ob_pool.specs.declared.fault.DriveFault.TheVariants.{Refused};

use crate::config::Config;
use crate::fault::DriveFault;
use crate::gate::Gate;
use crate::opening::{Opened, open};
use crate::plan::Plan;
use crate::planning::{CheckedPlans, check};
use crate::report::{Report, into_report};
use crate::threads::{Context, Start, Writers, run};
use ob_lanes::lanes;
use ob_shared::{Named, Opening};
use ob_transport::Sink;
use std::marker::Brand;
use std::sync::Wait;
use std::sync::atomic::AtomicBool;
use std::thread::{Parker, Threads};
use std::time::Clock;

/// Carries plans out, each by a writer in a thread of its own, and beside them lets a sink take what is flushed. It
/// answers when all threads have ended.
///
/// Writer w is caller w of one shared buffer, and the transport is the last caller. A write charges its writer's lane
/// with the estimate of the message and the bytes of a hand-off, calls the buffer, and discharges. A command that the
/// buffer refuses is recorded, and no fault. The transport makes one pass at a desk. If the sink fails, it fails all
/// that is flushed, for the fault's number, and goes on. It ends when all writers have ended and nothing is flushed or
/// the sink takes nothing, or after `turns` passes. With nothing to do it sleeps a millisecond, but not past the end of
/// the last writer. With `heed` a writer waits for it, by naps of a millisecond, while the buffer is unwritable; how long
/// is not promised.
///
/// `BadCount` comes if there is no plan, or more than 64; then `BadPlan` names the first step that is no write, flush,
/// cancellation, user bit or change of the marks; then `TooMuchRoom` comes if the greatest charges of all plans add up
/// to more than 4294967295 bytes. These three come before a thread starts. `NoMemory` comes if the allocator refused, or
/// a block has more owners than can be counted; `Stuck` if the gate held a writer too long; `Refused` if the history
/// was full; `Transport` if a pass came to no end; `Finish` if the buffer could not be finished. The least writer's
/// fault comes first, and writers' before the transport's. What the sink took before a fault stands; with one of the
/// first three it was not asked.
pub fn drive<R: AllocGlobal + Threads + Wait + Clock + Sync, G: Gate + Sync, S: Sink + Send>(
    rt: &R,
    gate: &G,
    plans: Vec<Plan>,
    sink: &mut S,
    config: Config,
) -> Result<Report, DriveFault>
    requires { AreWithin config }
    ensures refused { IfSome (plans_fault config.estimate config.task plans.items) (λ fault. IsErrOf result fault) }
    ensures planned { plans_fault config.estimate config.task plans.items ≡ None
        → IfErr result (λ fault. 3 < number_of fault) }
    ensures full { (writer : ℕ) (refusal : Refusal) → IsErrOf result (Refused writer refusal)
        → refusal ≡ HistoryFull }
    ensures writers { IfErr result (NamesOneOf (length plans.items)) }

    // If the plans have a fault, the sink is not asked, and is as it was.
    ensures unasked { IsSome (plans_fault config.estimate config.task plans.items) → sink.new ≡ sink.old }

    // The report tells of the plans, and of the sink.
    ensures report { IfOk result (TellsOf (first_history config) plans.items) }
    ensures sink { IfOk result (TellsOfSink (S.content sink.old) (S.content sink.new)) }
{
    let checked = match check(config.estimate, config.task, plans) {
        Ok(checked) => checked,
        Err(fault) => return Err(fault),
    };
    let callers = checked.plans.len() as u32 + 1;
    match Opening::new(
        rt.alloc(),
        config.marks,
        config.estimate,
        config.limit,
        callers,
    ) {
        Ok(opening) => {
            let ready = Ready {
                checked,
                opening,
                config,
            };
            drive_open::<Brand, R, G, S>(rt, gate, ready, sink)
        }
        Err(_) => Err(DriveFault::NoMemory),
    }
}

/// A drive that is ready to begin: its plans, the shared buffer that they need, and what else it is given.
#[derive(Drop)]
struct Ready {
    checked: CheckedPlans,
    opening: Opening,
    config: Config,
}

/// A drive over a shared buffer of this name.
fn drive_open<
    L: Named + Send + Sync,
    R: AllocGlobal + Threads + Wait + Clock + Sync,
    G: Gate + Sync,
    S: Sink + Send,
>(rt: &R, gate: &G, ready: Ready, sink: &mut S) -> Result<Report, DriveFault>
    requires name { IsNameOf ready.opening L.opened L.name L.parts }
    requires config { AreWithin ready.config }
    requires checked { AreChecked ready.checked }
    requires settings { ready.opening.settings ≡ (first_history ready.config).settings }
    requires limit { ready.opening.limit ≡ ready.config.limit }
    requires callers { ready.opening.callers ≡ length ready.checked.plans + 1 }
    ensures planned { IfErr result (ComesOfWork (length ready.checked.plans)) }
    ensures report { IfOk result (TellsOf (first_history ready.config) ready.checked.plans) }
    ensures sink { IfOk result (TellsOfSink (S.content sink.old) (S.content sink.new)) }
{
    let Ready {
        checked,
        opening,
        config,
    } = ready;
    let alloc = rt.alloc();
    let writers = checked.plans.len() as u32;
    let (estimate, task, room) = (checked.estimate, checked.task, checked.room);
    let opened = open::<L>(alloc, checked, opening)?;
    let Ok((words, lane)) = lanes(alloc, config.marks, room, 0) else {
        return Err(DriveFault::NoMemory);
    };
    let Opened {
        shared,
        jobs,
        share,
    } = opened;
    let context = Context {
        alloc,
        shared,
        words,
        estimate,
        task,
        heed: config.heed,
        limits: config.limits,
        turns: config.turns,
        writers,
        begun: AtomicBool::new(false),
        stopped: AtomicBool::new(false),
        ended: AtomicBool::new(false),
        rested: Parker::new(),
    };
    let start = Start {
        writers: Writers { lane, jobs },
        share,
    };
    match run(rt, gate, &context, start, sink) {
        Ok(ended) => into_report(context, ended),
        Err(fault) => Err(fault)
    }
}
