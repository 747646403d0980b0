//! A sink that fails at one of its calls.

use ob_history::{As, Booked};
use ob_players::buffers::Options;
use ob_players::commands::block;
use ob_players::words::NoAnswer;
use ob_transport::{Limits, Pass, PassFault, ScriptSink, SinkFault, SinkStep, pass};
use ob_types::{Command, Refusal};
use std::alloc::{AllocError, Global};
use std::test::Fail;

/// Of twenty blocks of 10 bytes two are offered at once, since three have more than 25 bytes.
const LIMITS: Limits = Limits {
    max_count: 3,
    max_bytes: 25,
};

const CALLS: u64 = 10;

/// Whichever call of the sink fails, its pass tells the number and leaves all as it was, and the next pass goes on: the
/// bytes join without a gap.
#[test]
fn a_sink_fails_at_each_of_its_calls(rt: HostRuntime) -> Result<(), Fail> {
    for failing in 0..CALLS {
        let sent = sends(rt.alloc(), failing)?;
        assert_eq!(rt; sent, (CALLS, 1, true), "call {failing} fails");
    }
    Ok(())
}

/// Makes a pass for each call and one more, and answers how many took two blocks, how many told the failure and changed
/// nothing, and whether the sink then has all bytes in order.
fn sends(alloc: Global, failing: u64) -> Result<(u64, u64, bool), NoAnswer> {
    let steps = steps(alloc, failing)?;
    let mut booked = flushed(alloc)?;
    let mut sink = ScriptSink::new(steps, u64::MAX);
    let (took, failed) = passes(&mut booked, &mut sink, failing);
    let is_in_order = counts_up(sink.taken());
    drop((booked, sink));
    Ok((took, failed, is_in_order))
}

fn passes(booked: &mut As, sink: &mut ScriptSink, failing: u64) -> (u64, u64) {
    let (mut took, mut failed) = (0u64, 0u64);
    for turn in 0..CALLS + 1 {
        let before = (booked.recorded.look(), sink.taken().len());
        let passed = pass(booked, sink, LIMITS);
        let is_same = (booked.recorded.look(), sink.taken().len()) == before;
        match passed {
            Ok(Pass::Took(20)) if turn != failing => took = took.saturating_add(1),
            Err(PassFault::Sink(SinkFault(9))) if is_same && turn == failing => {
                failed = failed.saturating_add(1);
            }
            _ => {}
        }
    }
    (took, failed)
}

/// Twenty blocks of 10 bytes, which count up from one to the next, are flushed.
fn flushed(alloc: Global) -> Result<As, NoAnswer> {
    let recorded = Options::of("")?.recorded(alloc)?;
    let mut booked = As {
        recorded,
        caller: 0,
    };
    match writes(alloc, &mut booked) {
        Ok(()) => Ok(booked),
        Err(told) => {
            drop(booked);
            Err(told)
        }
    }
}

fn writes(alloc: Global, booked: &mut As) -> Result<(), NoAnswer> {
    for number in 0..20u8 {
        let block = block(alloc, number.wrapping_mul(10), 10)?;
        calls(booked, Command::Write(block))?;
    }
    Ok(calls(booked, Command::Flush)?)
}

fn calls(booked: &mut As, command: Command) -> Result<(), Refusal> {
    drop(booked.call(command)?);
    Ok(())
}

/// A sink that takes all it is offered in *n* calls, and then fails once.
fn steps(alloc: Global, before: u64) -> Result<Vec<SinkStep>, AllocError> {
    let mut steps = Vec::new(alloc);
    for _ in 0..before {
        steps.push(SinkStep::Take(u64::MAX))?;
    }
    steps.push(SinkStep::Fail(9))?;
    Ok(steps)
}

/// Whether these are the bytes from 0 to 199.
fn counts_up(bytes: &[u8]) -> bool {
    let mut wanted = 0u8;
    for byte in bytes {
        if *byte != wanted {
            return false;
        }
        wanted = wanted.wrapping_add(1);
    }
    bytes.len() == 200
}
