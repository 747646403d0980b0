//! What callers lay aside, exchange or falsify of what they hand in.

use crate::tests::members::{Member, done_of};
use ob_history::{Receipt, Seen};
use ob_players::words::NoAnswer;
use ob_shared::{Done, Named};
use ob_types::Command;
use std::alloc::Global;

/// What lines have laid aside, until they put it back.
#[derive(Drop)]
pub struct Aside<L: Named> {
    pub done: Option<Done<L>>,
    pub receipt: Option<Receipt>,
    /// The command that stands in no receipt, at first a flush.
    pub command: Command,
}

/// Changes what a caller hands in, or changes it back.
pub fn changes<L: Named>(
    alloc: Global,
    members: &mut [Member<L>],
    aside: &mut Aside<L>,
    word: &str,
    (caller, other): (usize, usize),
) -> Result<(), NoAnswer> {
    match word {
        "without" => without(members, &mut aside.done, caller),
        "exchange" => {
            let given = put_receipts(members, caller, Vec::new(alloc));
            let taken = put_receipts(members, other, given);
            drop(put_receipts(members, caller, taken));
            Ok(())
        }
        _ => match done_of(members, caller) {
            Some(done) => changes_one(done, &mut aside.receipt, &mut aside.command, word, other),
            None => Err(NoAnswer::Unread),
        },
    }
}

/// Exchanges what a caller hands in for what is aside.
fn without<L: Named>(
    members: &mut [Member<L>],
    aside: &mut Option<Done<L>>,
    caller: usize,
) -> Result<(), NoAnswer> {
    match members.get_mut(caller) {
        Some(member) => {
            std::mem::swap(&mut member.done, aside);
            Ok(())
        }
        None => Err(NoAnswer::Unread),
    }
}

/// Gives a caller receipts, and answers those that it had.
fn put_receipts<L: Named>(
    members: &mut [Member<L>],
    caller: usize,
    receipts: Vec<Receipt>,
) -> Vec<Receipt> {
    match done_of(members, caller) {
        Some(done) => std::mem::replace(&mut done.receipts, receipts),
        None => receipts,
    }
}

fn changes_one<L: Named>(
    done: &mut Done<L>,
    aside: &mut Option<Receipt>,
    command: &mut Command,
    word: &str,
    index: usize,
) -> Result<(), NoAnswer> {
    match word {
        "short" => short(&mut done.receipts, aside),
        "twice" => twice(&mut done.receipts, aside),
        "forge" => forge(done.receipts.get_mut(index), command),
        "told" => forge(done.told.get_mut(0), command),
        "seen" => seen_otherwise(done.seen.get_mut(0)),
        _ => Err(NoAnswer::Unread),
    }
}

/// Lays aside the last receipt, or puts it back.
fn short(receipts: &mut Vec<Receipt>, aside: &mut Option<Receipt>) -> Result<(), NoAnswer> {
    match aside.take() {
        Some(receipt) => receipts.push(receipt)?,
        None => drop(std::mem::replace(aside, receipts.pop())),
    }
    Ok(())
}

/// Puts the first receipt in the place of the last one too, or puts that one back.
fn twice(receipts: &mut Vec<Receipt>, aside: &mut Option<Receipt>) -> Result<(), NoAnswer> {
    match aside.take() {
        Some(last) => drop(put_last(receipts, last)),
        None => {
            let first = copy_of(receipts.first())?;
            drop(std::mem::replace(aside, put_last(receipts, first)));
        }
    }
    Ok(())
}

/// Puts a receipt in the place of the last one, and answers that.
fn put_last(receipts: &mut Vec<Receipt>, receipt: Receipt) -> Option<Receipt> {
    match receipts.last_mut() {
        Some(last) => Some(std::mem::replace(last, receipt)),
        None => None,
    }
}

fn copy_of(receipt: Option<&Receipt>) -> Result<Receipt, NoAnswer> {
    match receipt {
        Some(receipt) => Ok(receipt.copy()?),
        None => Err(NoAnswer::Unread),
    }
}

/// Exchanges the command of a receipt for the one that is aside.
fn forge(receipt: Option<&mut Receipt>, command: &mut Command) -> Result<(), NoAnswer> {
    let Some(receipt) = receipt else {
        return Err(NoAnswer::Unread);
    };
    std::mem::swap(&mut receipt.command, command);
    Ok(())
}

/// Changes what was seen, or changes it back.
fn seen_otherwise(seen: Option<&mut Seen>) -> Result<(), NoAnswer> {
    let Some(seen) = seen else {
        return Err(NoAnswer::Unread);
    };
    seen.look.total ^= 1;
    Ok(())
}
