//! A caller of a shared buffer, who plays lines: in turn with others, or in a thread of its own.

use crate::tests::chance::calls_by;
use crate::tests::host::Hosted;
use crate::tests::settling::{at_one_desk, settles_each, waits_for_each};
use ob_history::{Receipt, Seen};
use ob_players::commands::wanted;
use ob_players::meeting::wait_for;
use ob_players::story::Player;
use ob_players::trace::{push_answer, push_glance, push_look, push_refusal, push_settled};
use ob_players::words::{NoAnswer, Words};
use ob_seq::Look;
use ob_shared::{Done, Named};
use ob_types::{Command, PromiseId, Refusal};
use std::alloc::AllocError;
use std::sync::Wait;
use std::sync::atomic::{AtomicU64, Ordering};
use std::thread::sleep;
use std::time::{Clock, Duration};

/// A caller that plays lines, and keeps all that it hands in.
#[derive(Drop)]
pub struct Caller<'b, L: Named, R> {
    pub hosted: &'b Hosted<'b, L, R>,
    /// How often one of those who play has said that it comes.
    pub come: &'b AtomicU64,
    /// What it hands in, until it has dropped that.
    pub done: Option<Done<L>>,
}

/// What a caller hands in after a line, and whether that was answered.
pub type Told<L> = (Option<Done<L>>, Result<(), NoAnswer>);

impl<'b, L: Named, R: AllocGlobal + Wait + Clock> Player for Caller<'b, L, R> {
    fn answer(&mut self, asked: &str, text: &mut String) -> Result<(), NoAnswer> {
        let (hosted, come) = (self.hosted, self.come);
        let mut words = Words::of(asked);
        let word = words.word();
        if matches!(word, "come" | "until" | "pause") {
            return meets(hosted.rt, come, word, &mut words);
        }
        if word == "sees" {
            return sees(hosted, self.done.as_mut(), words.small());
        }
        let Some(done) = self.done.take() else {
            return Err(NoAnswer::Unread);
        };
        let (done, told) = match word {
            "waits" | "settles" | "desk" => crosses(hosted, come, done, (word, &mut words), text),
            "calls" => calls_by(hosted, done, asked, text),
            _ => in_turn(hosted, done, asked, text),
        };
        // one call; an assignment follows the fields of what it drops
        drop(std::mem::replace(&mut self.done, done));
        told
    }
}

/// Says that it comes, waits until *n* have come, or pauses for milliseconds.
fn meets<R: Clock>(
    rt: &R,
    come: &AtomicU64,
    word: &str,
    words: &mut Words,
) -> Result<(), NoAnswer> {
    match word {
        "until" => wait_for(rt, come, words.number()?).map_err(|_late| NoAnswer::Unread),
        "pause" => {
            sleep(rt, Duration::from_millis(words.number()?));
            Ok(())
        }
        _ => {
            come.fetch_add(1, Ordering::SeqCst);
            Ok(())
        }
    }
}

/// A command, `?` for a look, `wait` and a promise, `again` for all its receipts anew, or `read` for a glance without the
/// lock.
fn in_turn<L: Named, R: AllocGlobal + Wait>(
    hosted: &Hosted<L, R>,
    done: Done<L>,
    asked: &str,
    text: &mut String,
) -> Told<L> {
    let mut words = Words::of(asked);
    match words.word() {
        "?" => looks(hosted, done, text),
        "wait" => waits(hosted, done, words.small(), text),
        "again" => has_again(hosted, done, text),
        "read" => reads(hosted, done, text),
        _ => {
            let command = wanted(hosted.rt.alloc(), &mut Words::of(asked));
            calls(hosted, done, command, text)
        }
    }
}

/// `waits` for *n* promises, one after another, which another caller `settles`; or `desk`, which sends what is
/// written at one desk.
fn crosses<L: Named, R: Wait>(
    hosted: &Hosted<L, R>,
    come: &AtomicU64,
    done: Done<L>,
    (word, words): (&str, &mut Words),
    text: &mut String,
) -> Told<L> {
    match word {
        "waits" => waits_for_each(hosted, come, done, words.small(), text),
        "settles" => settles_each(hosted, come, done, words.small()),
        _ => at_one_desk(hosted, done, words.word(), text),
    }
}

/// Reads each millisecond, ten thousand times, until it sees this total, without the lock.
fn sees<L: Named, R: Clock>(
    hosted: &Hosted<L, R>,
    done: Option<&mut Done<L>>,
    total: Result<u32, NoAnswer>,
) -> Result<(), NoAnswer> {
    let Some(done) = done else {
        return Err(NoAnswer::Unread);
    };
    for _ in 0..10_000u32 {
        if Ok(done.share.read(hosted.buffer).total) == total {
            return Ok(());
        }
        sleep(hosted.rt, Duration::from_millis(1));
    }
    Err(NoAnswer::Unread)
}

/// Makes a call, and looks at what is pending then.
fn calls<L: Named, R: Wait>(
    hosted: &Hosted<L, R>,
    done: Done<L>,
    command: Result<Command, NoAnswer>,
    text: &mut String,
) -> Told<L> {
    let command = match command {
        Ok(command) => command,
        Err(told) => return (Some(done), Err(told)),
    };
    let (done, answer) = hosted.buffer.call(hosted.rt, done, command);
    let (done, seen) = seen_by(hosted, done);
    let told = push_call(text, done.receipts.last(), answer, seen.look);
    (Some(done), told)
}

/// Adds what a call came to, by its receipt and the look after it.
fn push_call(
    text: &mut String,
    receipt: Option<&Receipt>,
    answer: Result<(), Refusal>,
    look: Look,
) -> Result<(), NoAnswer> {
    match (answer, receipt) {
        (Ok(()), Some(receipt)) => {
            write!(text, "place {}: ", receipt.place)?;
            Ok(push_answer(text, &receipt.reply, look)?)
        }
        (Err(refusal), _) => push_refusal(text, refusal),
        _ => Err(NoAnswer::Unread),
    }
}

/// What a caller sees at a desk.
fn seen_by<L: Named, R: Wait>(hosted: &Hosted<L, R>, done: Done<L>) -> (Done<L>, Seen) {
    let desk = hosted.buffer.desk(hosted.rt, done.share);
    let seen = desk.look();
    let share = desk.leave();
    (Done { share, ..done }, seen)
}

fn looks<L: Named, R: Wait>(hosted: &Hosted<L, R>, done: Done<L>, text: &mut String) -> Told<L> {
    let (done, seen) = seen_by(hosted, done);
    let mut done = done;
    let told = keep_seen(&mut done.seen, seen, text);
    (Some(done), told)
}

fn keep_seen(kept: &mut Vec<Seen>, seen: Seen, text: &mut String) -> Result<(), NoAnswer> {
    kept.push(seen)?;
    Ok(push_seen(text, seen)?)
}

/// Adds a look and its place.
pub fn push_seen(text: &mut String, seen: Seen) -> Result<(), AllocError> {
    write!(text, "place {}: ", seen.place)?;
    push_look(text, seen.look)
}

/// Lets all receipts go, and has them again from a desk.
fn has_again<L: Named, R: Wait>(
    hosted: &Hosted<L, R>,
    done: Done<L>,
    text: &mut String,
) -> Told<L> {
    let desk = hosted.buffer.desk(hosted.rt, done.share);
    let receipts = desk.receipts_since(0);
    let share = desk.leave();
    let mut done = Done { share, ..done };
    let told = keep_again(&mut done.receipts, receipts, text);
    (Some(done), told)
}

/// Keeps receipts in place of others, and adds how many they are.
pub fn keep_again(
    kept: &mut Vec<Receipt>,
    receipts: Result<Vec<Receipt>, Refusal>,
    text: &mut String,
) -> Result<(), NoAnswer> {
    match receipts {
        Ok(receipts) => {
            *kept = receipts;
            Ok(write!(text, "{} receipts", kept.len())?)
        }
        Err(refusal) => push_refusal(text, refusal),
    }
}

/// Reads without the lock.
fn reads<L: Named, R>(hosted: &Hosted<L, R>, done: Done<L>, text: &mut String) -> Told<L> {
    let mut done = done;
    let told = push_glance(text, done.share.read(hosted.buffer)).map_err(NoAnswer::from);
    (Some(done), told)
}

fn waits<L: Named, R: Wait>(
    hosted: &Hosted<L, R>,
    done: Done<L>,
    id: Result<u32, NoAnswer>,
    text: &mut String,
) -> Told<L> {
    let Ok(id) = id else {
        return (Some(done), Err(NoAnswer::Unread));
    };
    let (desk, answer) = hosted
        .buffer
        .wait_settled(hosted.rt, done.share, PromiseId(id));
    let share = desk.leave();
    let mut done = Done { share, ..done };
    let told = keep_told(&mut done.told, answer, text);
    (Some(done), told)
}

/// Keeps the receipt that a caller was told of, and adds what it tells.
fn keep_told(
    kept: &mut Vec<Receipt>,
    answer: Result<Receipt, Refusal>,
    text: &mut String,
) -> Result<(), NoAnswer> {
    match answer {
        Ok(receipt) => {
            kept.push(receipt)?;
            push_told(text, kept.last())
        }
        Err(refusal) => push_refusal(text, refusal),
    }
}

fn push_told(text: &mut String, receipt: Option<&Receipt>) -> Result<(), NoAnswer> {
    let receipt = receipt.ok_or(NoAnswer::Unread)?;
    let (place, caller) = (receipt.place, receipt.caller);
    write!(text, "place {place} of caller {caller}:")?;
    Ok(push_settled(text, receipt)?)
}
