//! Running lanes, over one word with marks of 50 and 100.

mod bits;
mod carrying_sight;
mod crossing_threads;
mod meeting;
mod splitting;

ghost use Rattle.std.specs.Prelude.{◌≡◌, false, IfOk};
ghost use Rattle.ob_core.specs.World.{is_set};

use ob_lanes::{Lane, NoRoom, Words, lanes};
use ob_types::WaterMark;
use std::alloc::Global;
use std::fmt::Display;
use std::process::Abort;
use std::sync::Wait;
use std::test::Fail;

/// Words with marks of 50 and 100, and the lane that has all of it.
fn open(alloc: Global, room: u32, bits: u32) -> Result<(Words, Lane), Fail>
    requires { is_set bits 0 ≡ false }
    ensures { IfOk result (λ ok. ok.1.words ≡ ok.0) }
{
    let marks = WaterMark::new(50, 100)?;
    Ok(lanes(alloc, marks, room, bits)?)
}

/// The two lanes of a split that is not refused.
fn split(words: &Words, lane: Lane, room: u32, bits: u32) -> Result<(Lane, Lane), Fail>
    requires { lane.words ≡ words.now }
    ensures { IfOk result (λ ok. (ok.0.words ≡ words.now) × (ok.1.words ≡ words.now)) }
{
    accepted(lane.split(words, room, bits))
}

/// What a lane answers that does not refuse.
fn accepted<T: Drop, F: Display + Drop>(answer: Result<T, (Lane, F)>) -> Result<T, Fail>
    ensures { IfOk result (λ value. answer ≡ Ok value) }
{
    match answer {
        Ok(value) => Ok(value),
        Err((_lane, fault)) => Err(Fail::new(fault)),
    }
}

/// A charge that is refused gives the lane back.
fn not_charged<R: Abort + Wait>(
    rt: &R,
    words: &Words,
    lane: Lane,
    amount: u32,
) -> Result<Lane, Fail>
    requires { lane.words ≡ words.now }
    ensures { IfOk result (λ lane. lane.words ≡ words.now) }
{
    let room = lane.room();
    match lane.charge(rt, words, amount) {
        Ok(_charged) => Err(Fail::new("the charge is above the room")),
        Err((lane, fault)) => {
            assert_eq!(rt; (fault, lane.room()), (NoRoom, room));
            Ok(lane)
        }
    }
}

/// Two lanes that have the whole room end with nothing owed and no bit set.
fn join_and_finish(rt: &impl Abort, words: Words, first: Lane, second: Lane)
    requires { (first.words ≡ words) × (second.words ≡ words) }
{
    let whole = first.join(&words, second);
    assert_eq!(rt; whole.finish(words).ok(), Some((0, 0)));
}
