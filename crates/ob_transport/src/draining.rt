ghost use Rattle.std.specs.Prelude.{◌≡◌, None, IfOk};
ghost use Rattle.ob_transport.specs.Pass.{Drains, IsAccounted, MayOffer, standing};
ghost use Rattle.ob_transport.specs.Sent.{current_in};

use crate::fault::{Pass, PassFault};
use crate::limits::Limits;
use crate::sending::pass;
use crate::sink::Sink;
use ob_history::Booked;

/// Why passes came to an end.
#[derive(Clone, Copy, Debug, PartialEq, Eq)]
pub enum Stop {
    /// Nothing is flushed.
    Idle,
    /// The sink took nothing.
    Stalled,
    /// As many passes were made as were asked for, and there may be more to do.
    TurnsUsed,
}

/// What several passes came to.
#[derive(Clone, Copy, Debug, PartialEq, Eq)]
pub struct Drained {
    /// How many passes were made, the last one too.
    pub turns_used: u64,
    /// Why they ended.
    pub stop: Stop,
}

/// Makes up to `turns` passes, one after another, until one of them is idle or stalled, which counts as a turn too.
/// With 0 turns it makes none. Each pass offers the sink at most what `limits` says, and that has to be something.
///
/// A fault is that of the last pass. What earlier passes did stands.
pub fn drain<B: Booked, S: Sink>(
    booked: &mut B,
    sink: &mut S,
    limits: Limits,
    turns: u64,
) -> Result<Drained, PassFault>
    requires offers { MayOffer limits }
    ensures passes { Drains limits (B.caller booked.old) turns
        (standing (B.history booked.old) (S.content sink.old)) result
        (standing (B.history booked.new) (S.content sink.new)) }
    ensures caller { B.caller booked.new ≡ B.caller booked.old }
    ensures idle { IfOk result (λ drained. drained.stop ≡ Stop.Idle → current_in (B.history booked.new) ≡ None) }
    ensures accounted { IsAccounted
        (standing (B.history booked.old) (S.content sink.old)) result
        (standing (B.history booked.new) (S.content sink.new)) }
{
    for turn in 0..turns {
        match pass(booked, sink, limits)? {
            Pass::Idle => {
                return Ok(Drained {
                    turns_used: turn + 1,
                    stop: Stop::Idle,
                });
            }
            Pass::Stalled => {
                return Ok(Drained {
                    turns_used: turn + 1,
                    stop: Stop::Stalled,
                });
            }
            Pass::Cleared | Pass::Took(_) => {}
        }
    }
    Ok(Drained {
        turns_used: turns,
        stop: Stop::TurnsUsed,
    })
}
