ghost use Rattle.std.specs.List.{concat};
ghost use Rattle.std.specs.Prelude.{◌≡◌, None, Ok};
ghost use Rattle.ob_transport.specs.Inside.{Ends, IsOffered, offer_of};
ghost use Rattle.ob_transport.specs.Pass.{IsAccounted, IsPass, MayOffer, Clears, SendsBytes, SendsUnits, standing};
ghost use Rattle.ob_transport.specs.Sent.{current_in, IsAskedOnce, OfBytes, OfUnits, StandsInFront, answer_told};
ghost use Rattle.ob_transport.specs.Sent.{Content};
ghost use Rattle.ob_transport.specs.declared.fault.Pass.TheVariants.{Idle};

use crate::booking::{give, make_ready};
use crate::fault::{Pass, PassFault};
use crate::limits::Limits;
use crate::next::{Next, next_of};
use crate::sink::Sink;
use bytes::Bytes;
use ob_history::Booked;
use ob_types::Command;

/// Lets a sink take once of what stands in front, and books what it took; or takes the front away if nothing of it is
/// left to be sent. At least one block and one byte may be offered at once.
///
/// With nothing flushed it is `Idle`, and does nothing. A block in front is offered with those behind it, as
/// `Buffer::gather`; if none of them holds a byte, they are removed, and it is `Cleared`. Of a region the rest is
/// offered, which is its length less its progress; if there is no rest, it is removed, and it is `Cleared`. Any
/// other message is given up with cause 1, and it is `Cleared`. If the sink takes nothing it is `Stalled`. If it takes
/// something it is `Took`, and what it took is recorded: the removal of as many bytes, or the progress of the region,
/// and its removal with the last unit.
///
/// Two calls are reserved just before a sink is asked, and only then: `HistoryFull` comes if fewer places are left, or
/// none for the record that clears the front. `Sink` comes if the sink failed, and `NoMemory` if memory was refused;
/// then nothing was taken, and all records are as before. `Unbooked` comes if memory ran out for the removal of taken
/// bytes, which it can for more than four promises alone; `book` makes it later.
pub fn pass<B: Booked, S: Sink>(
    booked: &mut B,
    sink: &mut S,
    limits: Limits,
) -> Result<Pass, PassFault>
    requires offers { MayOffer limits }
    ensures by_front { IsPass limits (B.caller booked.old)
        (standing (B.history booked.old) (S.content sink.old)) result
        (standing (B.history booked.new) (S.content sink.new)) }
    ensures caller { B.caller booked.new ≡ B.caller booked.old }
    ensures asks { IsAskedOnce S.does (StandsInFront limits (B.history booked.old))
        sink.old (answer_told result) sink.new }
    ensures idle { result ≡ Ok Idle → current_in (B.history booked.new) ≡ None }
    ensures accounted { IsAccounted
        (standing (B.history booked.old) (S.content sink.old)) result
        (standing (B.history booked.new) (S.content sink.new)) }
{
    let next = next_of(booked.buffer(), limits)?;
    act(booked, sink, next)
}

/// Takes the front away by a command, with nothing offered to a sink.
fn clear<B: Booked>(booked: &mut B, command: Command) -> Result<Pass, PassFault>
    ensures clears { (sink : Content) → Clears (B.caller booked.old) command
        (standing (B.history booked.old) sink) result (standing (B.history booked.new) sink) }
    ensures caller { B.caller booked.new ≡ B.caller booked.old }
{
    give(booked, command)?;
    Ok(Pass::Cleared)
}

/// Offers blocks to a sink, and books what it took.
fn send_blocks<B: Booked, S: Sink>(
    booked: &mut B,
    sink: &mut S,
    blocks: &[Bytes],
) -> Result<Pass, PassFault>
    ensures sends { SendsBytes (B.caller booked.old) (concat blocks.now)
        (standing (B.history booked.old) (S.content sink.old)) result
        (standing (B.history booked.new) (S.content sink.new)) }
    ensures asks { IsAskedOnce S.does (λ asked. asked ≡ OfBytes (concat blocks.now))
        sink.old (answer_told result) sink.new }
    ensures caller { B.caller booked.new ≡ B.caller booked.old }
{
    make_ready(booked)?;
    let taken = sink.take(blocks)? as u64;
    if taken == 0 {
        return Ok(Pass::Stalled);
    }
    match give(booked, Command::RemoveBytes(taken)) {
        Ok(()) => Ok(Pass::Took(taken)),
        Err(_) => Err(PassFault::Unbooked { taken }),
    }
}

/// Offers the rest of the region in front to a sink, and books what it took.
fn send_region<B: Booked, S: Sink>(
    booked: &mut B,
    sink: &mut S,
    rest: u64,
) -> Result<Pass, PassFault>
    ensures sends { SendsUnits (B.caller booked.old) rest
        (standing (B.history booked.old) (S.content sink.old)) result
        (standing (B.history booked.new) (S.content sink.new)) }
    ensures asks { IsAskedOnce S.does (λ asked. asked ≡ OfUnits rest) sink.old (answer_told result) sink.new }
    ensures caller { B.caller booked.new ≡ B.caller booked.old }
{
    make_ready(booked)?;
    let taken = sink.take_region(rest)?;
    if taken == 0 {
        return Ok(Pass::Stalled);
    }
    give(booked, Command::Progress(taken))?;
    if taken == rest {
        give(booked, Command::Remove)?;
    }
    Ok(Pass::Took(taken))
}

/// Does what there is to do next.
fn act<B: Booked, S: Sink>(booked: &mut B, sink: &mut S, next: Next) -> Result<Pass, PassFault>
    ensures ends { Ends (B.caller booked.old) (offer_of next)
        (standing (B.history booked.old) (S.content sink.old)) result
        (standing (B.history booked.new) (S.content sink.new)) }
    ensures asks { IsAskedOnce S.does (IsOffered (offer_of next)) sink.old (answer_told result) sink.new }
    ensures caller { B.caller booked.new ≡ B.caller booked.old }
{
    match next {
        Next::Nothing => Ok(Pass::Idle),
        Next::Clear(command) => clear(booked, command),
        Next::Blocks(blocks) => send_blocks(booked, sink, blocks.as_slice()),
        Next::Region(rest) => send_region(booked, sink, rest),
    }
}
