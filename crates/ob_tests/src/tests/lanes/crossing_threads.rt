//! A charge that is discharged in another thread.

ghost use Rattle.std.specs.Prelude.{◌≡◌, IfSome};

use super::{join_and_finish, open, split};
use ob_lanes::{Charged, Lane, Words};
use ob_players::meeting::wait_for;
use std::sync::Wait;
use std::sync::atomic::{AtomicU64, Ordering};
use std::test::Fail;
use std::thread::{Threads, join};
use std::time::Clock;

/// The charge of a lane that is handed on.
fn charge_sixty<R: Wait>(rt: &R, words: &Words, lane: Lane) -> Option<Charged>
    requires { lane.words ≡ words.now }
    ensures { IfSome result (λ charged. charged.words ≡ words.now) }
{
    match lane.charge(rt, words, 60) {
        Ok((charged, _change)) => Some(charged),
        Err(_refused) => None,
    }
}

/// Charges 100 and discharges it a thousand times, and halfway waits until the other thread has discharged. None if that
/// is not seen in ten seconds, or a charge is refused.
fn come_and_go<R: Clock + Wait>(
    rt: &R,
    words: &Words,
    mut lane: Lane,
    halfway: &AtomicU64,
    discharged: &AtomicU64,
) -> Option<Lane>
    requires { lane.words ≡ words.now }
    ensures { IfSome result (λ lane. lane.words ≡ words.now) }
{
    'rounds: for round in 0..1000u32 {
        if round == 500 {
            halfway.store(1, Ordering::SeqCst);
            wait_for(rt, discharged, 1).ok()?;
        }
        let Ok((charged, _change)) = lane.charge(rt, words, 100) else {
            return None;
        };
        lane = charged.discharge(rt, words).0;
    }
    Some(lane)
}

/// Discharges once the other thread is halfway through. None if it does not come there in ten seconds.
fn discharge_between<R: Clock + Wait>(
    rt: &R,
    words: &Words,
    charged: Charged,
    halfway: &AtomicU64,
    discharged: &AtomicU64,
) -> Option<Lane>
    requires { charged.words ≡ words.now }
    ensures { IfSome result (λ lane. lane.words ≡ words.now) }
{
    wait_for(rt, halfway, 1).ok()?;
    let (lane, _change) = charged.discharge(rt, words);
    discharged.store(1, Ordering::SeqCst);
    Some(lane)
}

/// One thread charges.
fn charge_in_thread<R: Threads + Wait + Sync>(rt: &R, words: &Words, lane: Lane) -> Option<Charged>
    requires { lane.words ≡ words.now }
    ensures { IfSome result (λ charged. charged.words ≡ words.now) }
{
    let charge = move || -> Option<Charged>
        requires { lane.words ≡ words.now }
        ensures { IfSome result (λ charged. charged.words ≡ words.entry.now) }
    { charge_sixty(rt, words, lane) };
    join(rt, charge, || ()).0
}

/// A second thread discharges what the first charged, while a third charges and discharges: each waits for the other
/// once.
fn discharge_in_thread<R: Threads + Clock + Wait + Sync>(
    rt: &R,
    words: &Words,
    charged: Charged,
    lane: Lane,
) -> (Option<Lane>, Option<Lane>)
    requires { (charged.words ≡ words.now) × (lane.words ≡ words.now) }
    ensures first { IfSome result.0 (λ lane. lane.words ≡ words.now) }
    ensures second { IfSome result.1 (λ lane. lane.words ≡ words.now) }
{
    let (half, all) = (AtomicU64::new(0), AtomicU64::new(0));
    let (halfway, discharged) = (&half, &all);
    join(
        rt,
        move || -> Option<Lane>
            requires { charged.words ≡ words.now }
            ensures { IfSome result (λ lane. lane.words ≡ words.entry.now) }
        { discharge_between(rt, words, charged, halfway, discharged) },
        move || -> Option<Lane>
            requires { lane.words ≡ words.now }
            ensures { IfSome result (λ lane. lane.words ≡ words.entry.now) }
        { come_and_go(rt, words, lane, halfway, discharged) },
    )
}

#[test]
fn charged_crosses(rt: HostRuntime) -> Result<(), Fail> {
    let (words, lane) = open(rt.alloc(), 200, 0)?;
    let (a, b) = split(&words, lane, 100, 0)?;
    let Some(charged) = charge_in_thread(&rt, &words, a) else {
        return Err(Fail::new("the charge has room"));
    };
    let (first, second) = discharge_in_thread(&rt, &words, charged, b);
    let (Some(a), Some(b)) = (first, second) else {
        return Err(Fail::new("each charge has room, and the two threads meet"));
    };
    join_and_finish(&rt, words, a, b);
    Ok(())
}
