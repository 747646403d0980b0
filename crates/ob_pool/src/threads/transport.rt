//! The transport, which takes the desk for one pass at a time.

ghost use Rattle.std.specs.Prelude.{◌≡◌, ◌+◌, ◌++◌, Ok, IfErr, IfOk, IsOkAnd};
ghost use Rattle.ob_shared.specs.Calls.{IsAsOpened};
ghost use Rattle.ob_transport.specs.Pass.{GrowAlike, MayOffer, standing};
ghost use Rattle.ob_transport.specs.Sent.{Content};
ghost use Rattle.ob_pool.specs.Drive.{ComesOfWork};
ghost use Rattle.ob_pool.specs.Report.{failings_of};
ghost use Rattle.ob_pool.specs.Threads.{GrowsBy, HasTakenOf, HasTransported, failings_in};

use crate::fault::DriveFault;
use crate::threads::context::Context;
use ob_history::{Booked, Receipt};
use ob_shared::{Desk, Done, Named, Share};
use ob_transport::{Limits, Pass, PassFault, Sink, pass};
use ob_types::{Cause, Command, Refusal};
use std::sync::Wait;
use std::sync::atomic::Ordering;
use std::time::{Clock, Duration};

/// How many milliseconds the transport sleeps at most if there is nothing to do and a writer still runs.
const NAP: u64 = 1;

/// What comes after a pass.
#[derive(Clone, Copy, Debug, PartialEq, Eq)]
pub enum AfterPass {
    /// There may be more to send.
    More,
    /// Nothing is flushed, or the sink takes nothing now.
    Rest,
}

/// Lets a sink take what is flushed, pass by pass, until all writers have ended and nothing more is taken, or the turns
/// are used. It hands in the receipts of its calls.
pub fn transport<L: Named, S: Sink, R: Wait + Clock>(
    rt: &R,
    context: &Context<L>,
    share: Share<L>,
    sink: &mut S,
) -> Result<Done<L>, DriveFault>
    requires offers { MayOffer context.now.limits }
    ensures transported { IfOk result
        (HasTransported L.opened.settings share.maker (S.content sink.old) (S.content sink.new)) }
    ensures fault { IfErr result (ComesOfWork 0) }
{
    let mut share = share;
    let mut receipts = Vec::new(context.alloc);
    'passes: for _ in 0..context.turns {
        // Asked before the pass: what was flushed before all writers ended is then found by it.
        let last = context.ended.load(Ordering::SeqCst);
        let desk = context.shared.desk(rt, share);
        let end = one_pass(desk, &mut receipts, sink, context.limits);
        share = end.share;
        let next = match end.next {
            Ok(next) => next,
            Err(fault) => {
                return Err(fault);
            }
        };
        if next == AfterPass::Rest {
            if last {
                break;
            }
            context.rested.park_timeout(rt, Duration::from_millis(NAP));
        }
    }
    Ok(Done {
        share,
        receipts,
        told: Vec::new(context.alloc),
        seen: Vec::new(context.alloc),
    })
}

/// What a pass comes to: the share of its desk, and what comes next.
#[derive(Drop)]
struct PassEnd<L: Named> {
    share: Share<L>,
    next: Result<AfterPass, DriveFault>,
}

/// One pass at a desk. The receipts of its calls go behind the others.
fn one_pass<L: Named, S: Sink>(
    desk: Desk<'_, L>,
    receipts: &mut Vec<Receipt>,
    sink: &mut S,
    limits: Limits,
) -> PassEnd<L>
    requires opened { IsAsOpened L.opened desk.history }
    requires offers { MayOffer limits }
    ensures caller { result.share.maker.caller ≡ desk.entry.maker.caller }
    ensures taken { IfOk result.next (λ next. (start : Content) →
        HasTakenOf L.opened.settings desk.entry.history.records receipts.old.items start (S.content sink.old)
        → HasTakenOf L.opened.settings result.share.sight.seen receipts.new.items start (S.content sink.new)) }
    ensures failings { IfOk result.next (λ next.
        failings_in receipts.new.items + (S.content sink.old).failures
        ≡ failings_in receipts.old.items + (S.content sink.new).failures) }
    ensures fault { IfErr result.next (ComesOfWork 0) }
{
    let mut desk = desk;
    let begun = desk.look().place;
    let next = pass_or_fail(&mut desk, sink, limits);
    let own = desk.receipts_since(begun);
    let share = desk.leave();
    PassEnd {
        share,
        next: keep(next, own, receipts),
    }
}

/// Keeps the receipts of a pass behind the others, if memory allows.
fn keep(
    next: Result<AfterPass, DriveFault>,
    own: Result<Vec<Receipt>, Refusal>,
    receipts: &mut Vec<Receipt>,
) -> Result<AfterPass, DriveFault>
    ensures next { IfOk result (λ then. next ≡ Ok then) }
    ensures kept { IfOk result (λ then. IsOkAnd own (λ own. receipts.new.items ≡ receipts.old.items ++ own.items)) }
    ensures fault { IfErr next (ComesOfWork 0) → IfErr result (ComesOfWork 0) }
{
    let next = next?;
    let Ok(mut own) = own else {
        return Err(DriveFault::NoMemory);
    };
    match receipts.append(&mut own) {
        Ok(()) => Ok(next),
        Err(_) => Err(DriveFault::NoMemory),
    }
}

/// One pass. If the sink fails, all that is flushed fails with its number as the cause, and with notice.
fn pass_or_fail<B: Booked, S: Sink>(
    booked: &mut B,
    sink: &mut S,
    limits: Limits,
) -> Result<AfterPass, DriveFault>
    requires offers { MayOffer limits }
    ensures caller { B.caller booked.new ≡ B.caller booked.old }
    ensures own { GrowsBy (B.caller booked.old) (B.history booked.old).records (B.history booked.new).records }
    ensures alike { IfOk result (λ next. GrowAlike
        (standing (B.history booked.old) (S.content sink.old))
        (standing (B.history booked.new) (S.content sink.new))) }
    ensures failings { IfOk result (λ next.
        failings_of (B.history booked.new).records + (S.content sink.old).failures
        ≡ failings_of (B.history booked.old).records + (S.content sink.new).failures) }
    ensures fault { IfErr result (ComesOfWork 0) }
{
    match pass(booked, sink, limits) {
        Ok(Pass::Idle | Pass::Stalled) => Ok(AfterPass::Rest),
        Ok(Pass::Cleared | Pass::Took(_)) => Ok(AfterPass::More),
        Err(PassFault::Sink(fault)) => {
            match booked.record(Command::FailFlushed(Cause(fault.0), true)) {
                Ok(()) => Ok(AfterPass::More),
                Err(refusal) => Err(DriveFault::Transport(PassFault::from(refusal))),
            }
        }
        Err(fault) => Err(DriveFault::Transport(fault)),
    }
}
