//! A sink that is held in its calls, with the desk in its hands, and the writers that meet it there.

ghost use Rattle.ob_transport.specs.Sent.{Plays};

use crate::tests::drives::Driven;
use crate::tests::gates::wait_for;
use crate::tests::moments::{GateOf, GoesOn, Moment, Moments};
use bytes::Bytes;
use ob_players::story::Story;
use ob_pool::OpenGate;
use ob_transport::{ScriptSink, Sink, SinkFault};
use std::sync::Wait;
use std::sync::atomic::{AtomicU64, Ordering};
use std::test::Fail;
use std::thread::{Threads, sleep};
use std::time::{Clock, Duration};

/// How far writers and the sink have come, from 1 on: the first call of the sink has begun, meanwhile writer 0 has
/// charged its third step, and then writer 1 its first; that is answered; the second call of the sink has begun, and
/// meanwhile writer 0 ends.
#[derive(Default, Drop)]
struct Order {
    stage: AtomicU64,
    /// What is handed off when writer 1 has charged.
    total: AtomicU64,
}

impl Order {
    fn reach(&self, stage: u64) {
        self.stage.store(stage, Ordering::SeqCst);
    }
}

impl Moments for Order {
    fn at<R: Wait + Clock>(&self, rt: &R, moment: Moment) -> GoesOn {
        match moment {
            Moment::Before(0, 2) => wait_for(rt, &self.stage, 1)?,
            Moment::Before(0, 3) => wait_for(rt, &self.stage, 4)?,
            Moment::Before(1, 0) => {
                wait_for(rt, &self.stage, 2)?;
                // by then writer 0 waits for the desk
                sleep(rt, Duration::from_millis(20));
            }
            Moment::During(0, 2, _) => self.reach(2),
            Moment::During(1, 0, total) => {
                self.total.store(total, Ordering::SeqCst);
                self.reach(3);
            }
            Moment::After(1, 0) => self.reach(4),
            Moment::After(0, 3) => {
                let _ = wait_for(rt, &self.stage, 5);
                self.reach(6);
            }
            _ => {}
        }
        Ok(())
    }
}

/// A sink of a script, whose first two calls meet the writers.
#[derive(Drop)]
struct Held<'r, R> {
    rt: &'r R,
    order: &'r Order,
    calls: u64,
    script: ScriptSink,
}

impl<'r, R: Clock> Sink for Held<'r, R> {
    ghost content = { λ held. held.script.content };

    ghost does = { λ before asked answer after. Plays before.script asked answer after.script };

    fn take(&mut self, blocks: &[Bytes]) -> Result<usize, SinkFault> {
        self.calls = self.calls.saturating_add(1);
        if self.calls == 1 {
            self.order.reach(1);
            let _ = wait_for(self.rt, &self.order.stage, 3);
        }
        if self.calls == 2 {
            self.order.reach(5);
            let _ = wait_for(self.rt, &self.order.stage, 6);
            // by then all writers have ended
            sleep(self.rt, Duration::from_millis(50));
        }
        self.script.take(blocks)
    }

    fn take_region(&mut self, units: u64) -> Result<u64, SinkFault> {
        self.script.take_region(units)
    }
}

/// The second call of the sink takes nothing, when the writers have ended meanwhile: what they left is still taken.
const MET: &str = "writers meet the sink
$ drive
b 0 1 1
f 0
b 0 1 1
f 0
b 1 1 1
take 1
take 0
/ writes 3, flushes 2, cancels 0, bits 0, refused 0, taken 3, success 3, failed 0, cancelled 0, left 0, hand 0 00000000
";

fn meets<R: AllocGlobal + Threads + Wait + Clock + Sync>(
    rt: &R,
    gate: &GateOf<Order>,
    story: Story,
) -> Result<(), Fail> {
    let mut driven = Driven::of(rt.alloc(), story)?;
    let mut sink = Held {
        rt,
        order: &gate.0,
        calls: 0,
        script: driven.script(),
    };
    let told = driven.run(rt, gate, &mut sink);
    drop(sink);
    let told = driven.plays(told, story);
    drop(driven);
    told
}

#[test]
fn writers_meet_the_sink(rt: HostRuntime) -> Result<(), Fail> {
    let gate = GateOf(Order::default());
    meets(&rt, &gate, Story::of(MET))?;
    // the charge of writer 0 stands as long as its call waits for the desk
    let total = gate.0.total.load(Ordering::SeqCst);
    assert_eq!(rt; total, 66);
    Ok(())
}

/// A sink of a script that counts its calls.
#[derive(Drop)]
struct Counting {
    calls: u64,
    script: ScriptSink,
}

impl Sink for Counting {
    ghost content = { λ counting. counting.script.content };

    ghost does = { λ before asked answer after. Plays before.script asked answer after.script };

    fn take(&mut self, blocks: &[Bytes]) -> Result<usize, SinkFault> {
        self.calls = self.calls.saturating_add(1);
        self.script.take(blocks)
    }

    fn take_region(&mut self, units: u64) -> Result<u64, SinkFault> {
        self.calls = self.calls.saturating_add(1);
        self.script.take_region(units)
    }
}

/// A sink that takes a byte a call, of which nine are flushed.
const TWO_TURNS: &str = "a transport has two turns
$ drive
turns 2
then 1
b 0 1 9
f 0
";

#[test]
fn a_transport_keeps_to_its_turns(rt: HostRuntime) -> Result<(), Fail> {
    let mut driven = Driven::of(rt.alloc(), Story::of(TWO_TURNS))?;
    let mut sink = Counting {
        calls: 0,
        script: driven.script(),
    };
    let told = driven.run(&rt, &OpenGate, &mut sink);
    let calls = sink.calls;
    drop(sink);
    drop(driven);
    told?;
    assert!(rt; calls <= 2);
    Ok(())
}
