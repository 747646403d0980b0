//! Two threads that see the charges of each other.

ghost use Rattle.std.specs.Prelude.{◌≡◌, IfOk, IfSome};

use super::{join_and_finish, open, split};
use ob_lanes::{Charged, Lane, Words};
use ob_types::Change;
use ob_types::Change::{Unwritable, Writable};
use std::process::Abort;
use std::sync::Wait;
use std::test::Fail;
use std::thread::{Threads, join, sleep};
use std::time::{Clock, Duration};

type Met = Option<(Charged, Option<Change>)>;

/// Charges 60, and then reads the total until it is 120. None if that is not seen in ten seconds.
fn meet<R: Clock + Wait>(rt: &R, words: &Words, lane: Lane) -> Met
    requires { lane.words ≡ words.now }
    ensures { IfSome result (λ met. met.0.words ≡ words.now) }
{
    let Ok((mut charged, change)) = lane.charge(rt, words, 60) else {
        return None;
    };
    'asks: for _ in 0..10_000u32 {
        if charged.total(words) == 120 {
            return Some((charged, change));
        }
        sleep(rt, Duration::from_millis(1));
    }
    None
}

/// Two threads that each see the charge of the other give their charges back.
fn meet_in_threads<R: Threads + Clock + Wait + Sync>(
    rt: &R,
    words: &Words,
    a: Lane,
    b: Lane,
) -> (Met, Met)
    requires { (a.words ≡ words.now) × (b.words ≡ words.now) }
    ensures first { IfSome result.0 (λ met. met.0.words ≡ words.now) }
    ensures second { IfSome result.1 (λ met. met.0.words ≡ words.now) }
{
    join(
        rt,
        move || -> Met
            requires { a.words ≡ words.now }
            ensures { IfSome result (λ met. met.0.words ≡ words.entry.now) }
        { meet(rt, words, a) },
        move || -> Met
            requires { b.words ≡ words.now }
            ensures { IfSome result (λ met. met.0.words ≡ words.entry.now) }
        { meet(rt, words, b) },
    )
}

/// The first discharge leaves 60, which is not below the low mark, and the second leaves nothing.
fn part<R: Abort + Wait>(rt: &R, words: Words, mut first: Charged, second: Charged)
    requires { (first.words ≡ words) × (second.words ≡ words) }
{
    let word = first.word(&words);
    let (first, of_first) = first.discharge(rt, &words);
    let (second, of_second) = second.discharge(rt, &words);
    assert_eq!(rt; (word, of_first, of_second), (1, None, Some(Writable)));
    join_and_finish(rt, words, first, second);
}

#[test]
fn lanes_meet(rt: HostRuntime) -> Result<(), Fail> {
    let (words, lane) = open(rt.alloc(), 120, 0)?;
    let (a, b) = split(&words, lane, 60, 0)?;
    let (first, second) = meet_in_threads(&rt, &words, a, b);
    let (Some((first, one)), Some((second, other))) = (first, second) else {
        return Err(Fail::new("the two threads never met"));
    };
    assert!(rt;
        (one, other) == (Some(Unwritable), None) || (one, other) == (None, Some(Unwritable))
    );
    part(&rt, words, first, second);
    Ok(())
}
