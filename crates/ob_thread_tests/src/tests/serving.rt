//! The writers and the transport that `docs/calls.md` shows.

use crate::tests::host::Host;
use crate::tests::keeping_buffers::Scarce;
use bytes::Bytes;
use ob_history::{As, Booked, Receipt, Recorded};
use ob_shared_callers::{send_on, serve};
use ob_transport::ScriptSink;
use ob_types::{Command, Estimate, Message, Refusal, WaterMark};
use std::alloc::Global;
use std::test::Fail;

/// How many bytes the sink took and how often it failed, and the total, the size and the writes that are left.
type Left = (usize, u64, u32, u32, u32);

fn served(rt: &impl Host) -> Result<Left, Refusal> {
    let mut sink = ScriptSink::new(Vec::new(rt.alloc()), 7);
    let served = serve(rt, rt.alloc(), &mut sink);
    let taken = (sink.taken().len(), sink.failures());
    drop(sink);
    Ok(left(taken, served?))
}

fn left((taken, failures): (usize, u64), recorded: Recorded) -> Left {
    let (look, writes_left) = (recorded.look().look, recorded.buffer().writes_left());
    drop(recorded);
    (taken, failures, look.total, look.size, writes_left)
}

#[test]
fn writers_and_a_transport(rt: HostRuntime) -> Result<(), Fail> {
    assert_eq!(rt; served(&rt)?, (400, 0, 0, 0, 1048536));
    Ok(())
}

/// A buffer of one thread with six flushed messages of a byte each, whose removal allocates.
fn scarce(alloc: Global) -> Result<Scarce, Refusal> {
    let estimate = Estimate {
        overhead: 96,
        unknown: 8,
    };
    let mut booked = As {
        recorded: Recorded::new(alloc, WaterMark::new(200, 400)?, estimate, 100),
        caller: 7,
    };
    for _ in 0..6 {
        booked.record(Command::Write(Message::Block(Bytes::from_static(b"s"))))?;
    }
    booked.record(Command::Flush)?;
    Ok(Scarce {
        booked,
        is_ready: false,
    })
}

#[test]
fn what_the_sink_took_is_booked_and_not_offered_again(rt: HostRuntime) -> Result<(), Fail> {
    let mut booked = scarce(rt.alloc())?;
    let mut sink = ScriptSink::new(Vec::new(rt.alloc()), 100);
    let first = send_on(&mut booked, &mut sink, 0);
    let taken = sink.taken().len();
    let second = send_on(&mut booked, &mut sink, first);
    let left = booked.buffer().look().total;
    assert_eq!(rt;
        (first, taken, second, sink.taken().len(), left),
        (6, 6, 0, 6, 0)
    );
    drop((booked, sink));
    Ok(())
}

/// A history of at most one call, and the receipts that its caller kept: which call each is of.
fn kept_of_one(alloc: Global) -> Result<(Vec<Receipt>, Result<(), Refusal>), Refusal> {
    let estimate = Estimate {
        overhead: 96,
        unknown: 8,
    };
    let mut recorded = Recorded::new(alloc, WaterMark::new(200, 400)?, estimate, 1);
    let mut receipts = Vec::with_capacity(alloc, 2)?;
    recorded.keep(7, Command::Flush, &mut receipts)?;
    let mut full = Ok(());
    if receipts.len() < receipts.capacity() {
        full = recorded.keep(7, Command::Flush, &mut receipts);
    }
    drop(recorded);
    Ok((receipts, full))
}

#[test]
fn a_receipt_is_kept_of_a_call_and_of_none_that_is_refused(rt: HostRuntime) -> Result<(), Fail> {
    let (receipts, full) = kept_of_one(rt.alloc())?;
    let first = receipts
        .first()
        .map(|receipt| (receipt.place, receipt.caller));
    let count = receipts.len();
    drop(receipts);
    assert_eq!(rt;
        (first, count, full),
        (Some((0, 7)), 1, Err(Refusal::HistoryFull))
    );
    Ok(())
}
