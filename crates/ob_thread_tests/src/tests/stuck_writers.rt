//! Writers that end before their plans do, while the others go on.

use crate::tests::drives::drives;
use crate::tests::gates::wait_for;
use crate::tests::moments::{GateOf, GoesOn, Moment, Moments};
use ob_players::story::Story;
use ob_pool::Stuck;
use std::sync::Wait;
use std::sync::atomic::{AtomicU64, Ordering};
use std::test::Fail;
use std::thread::sleep;
use std::time::{Clock, Duration};

/// Writer 0 writes its last blocks when writer 1 has ended, and the sink takes all that was flushed.
const STUCK: &str = "a stuck writer is named
$ drive
b 0 1 1000
f 0
b 1 1 1
f 1
/ drive: fault 5
why / writer 1 is stuck
sink / 1000 bytes, 0 failures
";

/// Gives writer 1 up at its first write, which it never lets go. A total is 0 as long as writer 0 has handed nothing over.
#[derive(Default, Drop)]
struct GivesUp {
    held: AtomicU64,
    /// The total that the first write of writer 0 finds.
    first: AtomicU64,
    given_up: AtomicU64,
    /// The total that its last write finds.
    last: AtomicU64,
    answered: AtomicU64,
}

impl Moments for GivesUp {
    fn at<R: Wait + Clock>(&self, rt: &R, moment: Moment) -> GoesOn {
        match moment {
            Moment::Before(0, 0) => return wait_for(rt, &self.held, 1),
            Moment::Before(0, _) => {
                wait_for(rt, &self.given_up, 1)?;
                // as long as the charge of writer 1 is seen
                if self.last.load(Ordering::SeqCst) > 33 {
                    sleep(rt, Duration::from_millis(1));
                }
            }
            Moment::Before(_, _) => {}
            Moment::During(1, _, _) => return self.give_up(rt),
            Moment::During(_, 0, total) => self.first.store(total, Ordering::SeqCst),
            Moment::During(_, _, total) => self.last.store(total, Ordering::SeqCst),
            Moment::After(_, _) => {
                self.answered.fetch_add(1, Ordering::SeqCst);
            }
        }
        Ok(())
    }
}

impl GivesUp {
    /// Is held until the first write of writer 0, and for a while.
    fn give_up<R: Clock>(&self, rt: &R) -> GoesOn {
        self.held.store(1, Ordering::SeqCst);
        wait_for(rt, &self.first, 1)?;
        for _ in 0..10u32 {
            sleep(rt, Duration::from_millis(1));
        }
        self.given_up.store(1, Ordering::SeqCst);
        Err(Stuck)
    }
}

/// The charge of the stuck writer stands while it is held, and is discharged when it has ended. The drive answers when
/// the other writer and the transport have done all.
#[test]
fn a_stuck_writer_is_named(rt: HostRuntime) -> Result<(), Fail> {
    let gate = GateOf(GivesUp::default());
    drives(&rt, &gate, Story::of(STUCK))?;
    let first = gate.0.first.load(Ordering::SeqCst);
    let last = gate.0.last.load(Ordering::SeqCst);
    let answered = gate.0.answered.load(Ordering::SeqCst);
    assert_eq!(rt; (first, last, answered), (66, 33, 1001));
    Ok(())
}

/// The sink takes a byte of each writer, and nine more of each that goes on.
const THREE: &str = "three of eight writers end early
$ drive
each 8 b 1 1
each 8 f
each 8 b 1 9
each 8 f
/ drive: fault 5
why / writer 1 is stuck
sink / 53 bytes, 0 failures
";

/// Holds three of eight writers for ever at their third command, and the others until these three are held.
#[derive(Default, Drop)]
struct HoldsThree {
    held: AtomicU64,
    answered: AtomicU64,
}

impl Moments for HoldsThree {
    fn at<R: Wait + Clock>(&self, rt: &R, moment: Moment) -> GoesOn {
        match moment {
            Moment::Before(writer, 2) if !is_of_three(writer) => wait_for(rt, &self.held, 3),
            Moment::During(writer, 2, _) if is_of_three(writer) => {
                self.held.fetch_add(1, Ordering::SeqCst);
                Err(Stuck)
            }
            Moment::After(_, _) => {
                self.answered.fetch_add(1, Ordering::SeqCst);
                Ok(())
            }
            _ => Ok(()),
        }
    }
}

/// Whether a writer is one of three of eight.
fn is_of_three(writer: u32) -> bool {
    matches!(writer, 1 | 4 | 6)
}

/// Each writer has the answers to its first two commands, and those that go on to ten more.
#[test]
fn three_stuck_writers_leave_the_others_going(rt: HostRuntime) -> Result<(), Fail> {
    let gate = GateOf(HoldsThree::default());
    drives(&rt, &gate, Story::of(THREE))?;
    assert_eq!(rt; gate.0.answered.load(Ordering::SeqCst), 66);
    Ok(())
}
