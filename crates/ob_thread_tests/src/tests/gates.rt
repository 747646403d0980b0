//! Writers that are held at gates.

use crate::tests::drives::drives;
use crate::tests::moments::{GateOf, GoesOn, Moment, Moments};
use ob_players::meeting;
use ob_players::story::Story;
use ob_pool::Stuck;
use std::sync::atomic::{AtomicU64, Ordering};
use std::sync::{Mutex, Wait};
use std::test::Fail;
use std::time::Clock;

/// Waits for a number that is not less.
pub fn wait_for<R: Clock>(rt: &R, number: &AtomicU64, least: u64) -> GoesOn {
    meeting::wait_for(rt, number, least).map_err(|_late| Stuck)
}

/// Where two writers meet. A total is 0 as long as its writer has not come.
#[derive(Default, Drop)]
struct Crossing {
    first: AtomicU64,
    second: AtomicU64,
    answered: AtomicU64,
}

impl Moments for Crossing {
    fn at<R: Wait + Clock>(&self, rt: &R, moment: Moment) -> GoesOn {
        match moment {
            Moment::Before(0, 2) => wait_for(rt, &self.answered, 1),
            Moment::During(0, 1, total) => {
                self.first.store(total, Ordering::SeqCst);
                wait_for(rt, &self.second, 1)
            }
            Moment::During(_, 1, total) => {
                self.second.store(total, Ordering::SeqCst);
                wait_for(rt, &self.first, 1)
            }
            Moment::After(1, 2) => {
                self.answered.store(1, Ordering::SeqCst);
                Ok(())
            }
            _ => Ok(()),
        }
    }
}

/// Two writers of three blocks of a byte, who cross.
const CROSSED: &str = "gate crosses
$ drive
each 2 b 1 3
then 1
/ writes 6, flushes 0, cancels 0, bits 0, refused 0, taken 0, success 0, failed 0, cancelled 0, left 6, hand 0 00000000
";

#[test]
fn gate_crosses(rt: HostRuntime) -> Result<(), Fail> {
    let gate = GateOf(Crossing::default());
    drives(&rt, &gate, Story::of(CROSSED))?;
    let (first, second) = (&gate.0.first, &gate.0.second);
    assert_eq!(rt;
        first
            .load(Ordering::SeqCst)
            .max(second.load(Ordering::SeqCst)),
        66
    );
    Ok(())
}

/// Where writers wait before their second write until eight first ones have an answer.
#[derive(Default, Drop)]
struct Barrier {
    answered: AtomicU64,
}

impl Moments for Barrier {
    fn at<R: Wait + Clock>(&self, rt: &R, moment: Moment) -> GoesOn {
        match moment {
            Moment::Before(_, 1) => return wait_for(rt, &self.answered, 8),
            Moment::After(_, 0) => {
                self.answered.fetch_add(1, Ordering::SeqCst);
            }
            _ => {}
        }
        Ok(())
    }
}

/// Of the sixteen writes of eight writers the first eight are one of each writer.
const IN_STEP: &str = "no second write begins before every first was answered
$ drive
each 8 b 1 2
/ writes 16, flushes 0, cancels 0, bits 0, refused 0, taken 0, success 0, failed 0, cancelled 0, left 16, hand 0 00000000
among 8 / 8 callers
";

#[test]
fn gate_barrier(rt: HostRuntime) -> Result<(), Fail> {
    drives(&rt, &GateOf(Barrier::default()), Story::of(IN_STEP))
}

/// Holds all writers but the first for ever, once their second write is charged.
struct Closed;

impl Moments for Closed {
    fn at<R: Wait + Clock>(&self, _rt: &R, moment: Moment) -> GoesOn {
        match moment {
            Moment::During(writer, 1, _) if writer > 0 => Err(Stuck),
            _ => Ok(()),
        }
    }
}

/// Two of three writers are held.
const HELD: &str = "the least stuck writer is named
$ drive
each 3 b 1 2
then 1
/ drive: fault 5
why / writer 1 is stuck
";

#[test]
fn the_least_stuck_writer_is_named(rt: HostRuntime) -> Result<(), Fail> {
    drives(&rt, &GateOf(Closed), Story::of(HELD))
}

/// Holds writer 1 for ever before its first command.
struct Shut;

impl Moments for Shut {
    fn at<R: Wait + Clock>(&self, _rt: &R, moment: Moment) -> GoesOn {
        match moment {
            Moment::Before(1, 0) => Err(Stuck),
            _ => Ok(()),
        }
    }
}

/// The sink takes what writer 0 wrote, and nothing else.
const SHUT: &str = "a writer that is stuck before a command does not make it
$ drive
b 0 1 1
f 0
b 1 1 1
f 1
/ drive: fault 5
why / writer 1 is stuck
sink / 1 bytes, 0 failures
";

#[test]
fn a_writer_is_stuck_before_its_command(rt: HostRuntime) -> Result<(), Fail> {
    drives(&rt, &GateOf(Shut), Story::of(SHUT))
}

/// Writes down what its gate is asked.
#[derive(Drop)]
struct Log(Mutex<String>);

impl Moments for Log {
    fn at<R: Wait + Clock>(&self, rt: &R, moment: Moment) -> GoesOn {
        let mut log = self.0.lock(rt);
        let _ = match moment {
            Moment::Before(writer, step) => write!(log, "before {writer}.{step}, "),
            Moment::During(writer, step, total) => write!(log, "during {writer}.{step}: {total}, "),
            Moment::After(writer, step) => write!(log, "after {writer}.{step}, "),
        };
        Ok(())
    }
}

/// A writer alone, and what its gate is asked. A block is charged its bytes, a region none, and another message what is
/// unknown, and each the bytes of its hand-off.
static ALONE: [(&str, &str); 2] = [
    (
        "what a gate is asked\n$ drive --unknown 5\nb 1 8 1\nr 1 9\nf 1\no 1 7",
        "before 1.0, during 1.0: 40, after 1.0, before 1.1, during 1.1: 32, after 1.1, \
        before 1.2, after 1.2, before 1.3, during 1.3: 37, after 1.3, ",
    ),
    (
        "without a task\n$ drive --task 0\nb 0 8 1\nr 0 9\no 0 7",
        "before 0.0, during 0.0: 8, after 0.0, before 0.1, during 0.1: 0, after 0.1, \
        before 0.2, during 0.2: 8, after 0.2, ",
    ),
];

#[test]
fn a_gate_is_asked_at_each_step(rt: HostRuntime) -> Result<(), Fail> {
    for &(story, wanted) in &ALONE {
        let gate = GateOf(Log(Mutex::new(String::new(rt.alloc()))));
        drives(&rt, &gate, Story::of(story))?;
        let log = gate.0.0.into_inner();
        assert_eq!(rt; log.as_str(), wanted);
    }
    Ok(())
}
