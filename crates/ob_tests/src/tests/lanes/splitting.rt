//! A lane that is split, charged, joined and finished.

ghost use Rattle.std.specs.Prelude.{◌≡◌, IfOk};

use super::{accepted, join_and_finish, not_charged, open, split};
use ob_lanes::{Charged, Lane, RoomOut, Words};
use ob_types::Change;
use ob_types::Change::{Unwritable, Writable};
use std::alloc::Global;
use std::process::Abort;
use std::sync::Wait;
use std::test::Fail;

/// A charge that is not refused.
fn charge<R: Wait>(
    rt: &R,
    words: &Words,
    lane: Lane,
    amount: u32,
) -> Result<(Charged, Option<Change>), Fail>
    requires { lane.words ≡ words.now }
    ensures { IfOk result (λ ok. ok.0.words ≡ words.now) }
{
    accepted(lane.charge(rt, words, amount))
}

/// B charges 100, and A 1 more, which passes the high mark.
fn both_charge<R: Abort + Wait>(
    rt: &R,
    words: &Words,
    a: Lane,
    b: Lane,
) -> Result<(Charged, Charged), Fail>
    requires { (a.words ≡ words.now) × (b.words ≡ words.now) }
    ensures { IfOk result (λ ok. (ok.0.words ≡ words.now) × (ok.1.words ≡ words.now)) }
{
    let mut a = a;
    let (b, of_b) = charge(rt, words, b, 100)?;
    let total = a.total(words);
    let (a, of_a) = charge(rt, words, a, 1)?;
    let owed = (a.owed(), b.owed());
    assert_eq!(rt;
        (of_b, total, of_a, owed),
        (None, 100, Some(Unwritable), (1, 100))
    );
    Ok((a, b))
}

/// B discharges first, which leaves what A owes.
fn both_discharge<R: Abort + Wait>(rt: &R, words: &Words, a: Charged, b: Charged) -> (Lane, Lane)
    requires { (a.words ≡ words.now) × (b.words ≡ words.now) }
    ensures first { result.0.words ≡ words.now }
    ensures second { result.1.words ≡ words.now }
{
    let mut a = a;
    let (b, of_b) = b.discharge(rt, words);
    let total = a.total(words);
    let (a, of_a) = a.discharge(rt, words);
    assert_eq!(rt; (of_b, total, of_a), (Some(Writable), 1, None));
    (a, b)
}

/// Half of the room does not end the words.
fn not_ended(rt: &impl Abort, words: Words, half: Lane) -> Result<(Words, Lane), Fail>
    requires { half.words ≡ words }
    ensures { IfOk result (λ ok. (ok.0 ≡ words) × (ok.1.words ≡ words)) }
{
    match half.finish(words) {
        Ok(_ended) => Err(Fail::new("half of the room is out")),
        Err((words, half, fault)) => {
            assert_eq!(rt; fault, RoomOut);
            Ok((words, half))
        }
    }
}

#[test]
fn lanes_split_charge_and_join(rt: HostRuntime) -> Result<(), Fail> {
    let (words, lane) = open(rt.alloc(), 200, 0)?;
    let (a, b) = split(&words, lane, 100, 0)?;
    let a = not_charged(&rt, &words, a, 101)?;
    let (a, b) = both_charge(&rt, &words, a, b)?;
    let (a, b) = both_discharge(&rt, &words, a, b);
    let (words, b) = not_ended(&rt, words, b)?;
    join_and_finish(&rt, words, a, b);
    Ok(())
}

/// A room of each size is had: each bit alone, and each digit at each of ten places.
#[test]
fn rooms_of_all_sizes(rt: HostRuntime) -> Result<(), Fail> {
    for bit in 0..32u32 {
        has_room(&rt, rt.alloc(), 1u32.wrapping_shl(bit))?;
    }
    for digit in 1..10u64 {
        let mut room = digit;
        for _ in 0..10u32 {
            has_room(&rt, rt.alloc(), u32::try_from(room).unwrap_or(0))?;
            room = room.saturating_mul(10);
        }
    }
    Ok(())
}

fn has_room(rt: &impl Abort, alloc: Global, room: u32) -> Result<(), Fail> {
    let (words, lane) = open(alloc, room, 0)?;
    assert_eq!(rt; lane.room(), room);
    assert_eq!(rt; lane.finish(words).ok(), Some((0, 0)));
    Ok(())
}

/// All of the greatest room is charged.
#[test]
fn the_greatest_room(rt: HostRuntime) -> Result<(), Fail> {
    let (words, lane) = open(rt.alloc(), u32::MAX, 0)?;
    let (mut all, change) = charge(&rt, &words, lane, u32::MAX)?;
    let total = all.total(&words);
    let (lane, back) = all.discharge(&rt, &words);
    assert_eq!(rt;
        (change, total, back, lane.finish(words).ok()),
        (Some(Unwritable), 4294967295, Some(Writable), Some((0, 0)))
    );
    Ok(())
}
