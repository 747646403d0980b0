//! Callers that settle what others wait for.

use crate::tests::callers::{Told, keep_again};
use crate::tests::host::Hosted;
use ob_history::Booked;
use ob_players::words::NoAnswer;
use ob_shared::{Desk, Done, Named, Share};
use ob_types::{Command, Message, PromiseId};
use std::hint::spin_loop;
use std::sync::Wait;
use std::sync::atomic::{AtomicU64, Ordering};

/// Flushes and removes at one desk, and then `leaves` it, or `goes-on` with a call that settles nothing, or `drops` it,
/// and its share with it.
pub fn at_one_desk<L: Named, R: Wait>(
    hosted: &Hosted<L, R>,
    done: Done<L>,
    then: &str,
    text: &mut String,
) -> Told<L> {
    let mut desk = hosted.buffer.desk(hosted.rt, done.share);
    sends(&mut desk);
    if then == "drops" {
        drop((desk, done.receipts, done.told, done.seen));
        return (None, Ok(()));
    }
    if then == "goes-on" {
        let _ = is_made(&mut desk, Command::Flush);
    }
    let receipts = desk.receipts_since(0);
    let share = desk.leave();
    let mut done = Done { share, ..done };
    let told = keep_again(&mut done.receipts, receipts, text);
    (Some(done), told)
}

/// Flushes and removes what one write left. Each call is made again if memory was refused, since others wait for it.
fn sends<L: Named>(desk: &mut Desk<'_, L>) {
    for _ in 0..9u32 {
        if desk.look().look.size == 0 {
            let _ = is_made(desk, Command::Flush);
        } else if is_made(desk, Command::Remove) {
            break;
        }
    }
}

/// Makes a call at a desk: whether it was made. Its receipt is had again later.
fn is_made<L: Named>(desk: &mut Desk<'_, L>, command: Command) -> bool {
    let answer = desk.call(command);
    let is_made = answer.is_ok();
    drop(answer);
    is_made
}

/// Waits for one promise after another, each of which is settled when the wait for it begins.
pub fn waits_for_each<L: Named, R: Wait>(
    hosted: &Hosted<L, R>,
    asked: &AtomicU64,
    done: Done<L>,
    rounds: Result<u32, NoAnswer>,
    text: &mut String,
) -> Told<L> {
    let mut share = done.share;
    let mut told = 0u32;
    for id in 0..rounds.unwrap_or(0) {
        until(asked, u64::from(id) * 2 + 1);
        asked.store(u64::from(id) * 2 + 2, Ordering::SeqCst);
        let (same, is_told) = is_told(hosted, share, PromiseId(id));
        share = same;
        told = told.saturating_add(u32::from(is_told));
    }
    let told = write!(text, "{told} told").map_err(NoAnswer::from);
    (Some(Done { share, ..done }), told)
}

/// Waits for a promise: whether its settlement is told.
fn is_told<L: Named, R: Wait>(
    hosted: &Hosted<L, R>,
    share: Share<L>,
    id: PromiseId,
) -> (Share<L>, bool) {
    let (desk, answer) = hosted.buffer.wait_settled(hosted.rt, share, id);
    let is_told = answer.is_ok();
    drop(answer);
    (desk.leave(), is_told)
}

/// Writes, flushes and removes one message after another, each removal when another begins to wait for it.
pub fn settles_each<L: Named, R: Wait>(
    hosted: &Hosted<L, R>,
    asked: &AtomicU64,
    done: Done<L>,
    rounds: Result<u32, NoAnswer>,
) -> Told<L> {
    let Hosted { rt, buffer } = *hosted;
    let mut caller = done;
    for id in 0..rounds.unwrap_or(0) {
        let region = Command::Write(Message::Region(1));
        let (same, _written) = buffer.call(rt, caller, region);
        let (same, _flushed) = buffer.call(rt, same, Command::Flush);
        asked.store(u64::from(id) * 2 + 1, Ordering::SeqCst);
        until(asked, u64::from(id) * 2 + 2);
        let (same, _removed) = buffer.call(rt, same, Command::Remove);
        caller = same;
    }
    (Some(caller), Ok(()))
}

/// Asks again and again whether a number has come that is not less.
fn until(number: &AtomicU64, least: u64) {
    for _ in 0..1_000_000_000u32 {
        if number.load(Ordering::SeqCst) >= least {
            return;
        }
        spin_loop();
    }
}
