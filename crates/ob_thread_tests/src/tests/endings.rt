//! What is asked of a history when all callers have handed in.

use crate::tests::members::Member;
use ob_history::{Glance, Recorded};
use ob_players::buffers::Options;
use ob_players::trace::push_either;
use ob_players::words::NoAnswer;
use ob_shared::{FinishFault, Named};
use ob_types::{Command, Refusal};
use std::alloc::{AllocError, Global};

/// Adds whether a buffer of one thread makes the `same` history, how many writes are `left`, or how many readers saw
/// `glances` of it in order.
pub fn push_end<L: Named>(
    options: Options,
    recorded: &Recorded,
    members: &[Member<L>],
    (alloc, word): (Global, &str),
    text: &mut String,
) -> Result<(), NoAnswer> {
    match word {
        "left" => Ok(write!(text, "{}", recorded.buffer().writes_left())?),
        "same" => push_same(text, is_same(recorded, options.recorded(alloc)?)),
        _ => push_in_order(
            text,
            members,
            shown_after(alloc, recorded, options.recorded(alloc)?),
        ),
    }
}

fn push_same(text: &mut String, is_same: Result<bool, Refusal>) -> Result<(), NoAnswer> {
    Ok(push_either(text, is_same?, "yes", "no")?)
}

fn push_in_order<L: Named>(
    text: &mut String,
    members: &[Member<L>],
    shown: Result<Vec<Glance>, NoAnswer>,
) -> Result<(), NoAnswer> {
    let shown = shown?;
    let (in_order, count) = (in_order(members, &shown), shown.len());
    drop(shown);
    Ok(write!(text, "{in_order} in order of {count}")?)
}

/// Whether a new buffer that is given the commands of the records, in their order, makes the same history.
fn is_same(recorded: &Recorded, alone: Recorded) -> Result<bool, Refusal> {
    let mut alone = alone;
    let is_same = answers_the_same(recorded, &mut alone);
    let looks_the_same = alone.look() == recorded.look();
    drop(alone);
    Ok(is_same? && looks_the_same)
}

/// Whether a new buffer that is given the commands of the records, in their order, makes the same records.
fn answers_the_same(recorded: &Recorded, alone: &mut Recorded) -> Result<bool, Refusal> {
    for kept in recorded.records() {
        if !is_made(recorded, alone, kept.caller, &kept.command)? {
            return Ok(false);
        }
    }
    Ok(true)
}

/// Whether a call of a new buffer answers as the history says.
fn is_made(
    recorded: &Recorded,
    alone: &mut Recorded,
    caller: u32,
    command: &Command,
) -> Result<bool, Refusal> {
    let receipt = alone.call(caller, command.copy()?)?;
    let is_made = recorded.check(&receipt);
    drop(receipt);
    Ok(is_made)
}

/// The glance of a new buffer, and that after each record, by that buffer, which is given the same commands.
fn shown_after(
    alloc: Global,
    recorded: &Recorded,
    alone: Recorded,
) -> Result<Vec<Glance>, NoAnswer> {
    let mut alone = alone;
    let mut shown = Vec::new(alloc);
    let told = show_each(recorded, &mut alone, &mut shown);
    drop(alone);
    match told {
        Ok(()) => Ok(shown),
        Err(told) => {
            drop(shown);
            Err(told)
        }
    }
}

fn show_each(
    recorded: &Recorded,
    alone: &mut Recorded,
    shown: &mut Vec<Glance>,
) -> Result<(), NoAnswer> {
    shown.push(alone.glance())?;
    for kept in recorded.records() {
        let _ = is_made(recorded, alone, kept.caller, &kept.command)?;
        shown.push(alone.glance())?;
    }
    Ok(())
}

/// How many members saw glances that stand among those that were shown, one behind another.
fn in_order<L: Named>(members: &[Member<L>], shown: &[Glance]) -> u32 {
    let mut count = 0u32;
    for member in members {
        if !member.glances.is_empty() && stand_in_order(&member.glances, shown) {
            count = count.saturating_add(1);
        }
    }
    count
}

fn stand_in_order(glances: &[Glance], shown: &[Glance]) -> bool {
    let mut found = 0usize;
    for other in shown {
        if glances.get(found) == Some(other) {
            found = found.saturating_add(1);
        }
    }
    found == glances.len()
}

/// Adds why a buffer was not finished.
pub fn push_fault(text: &mut String, fault: FinishFault) -> Result<(), NoAnswer> {
    let told = match fault {
        FinishFault::SharesMissing => text.push_str("shares missing"),
        FinishFault::ReceiptsMissing { caller } => write!(text, "receipts of {caller} missing"),
        FinishFault::ForeignReceipt { caller, place } => write!(
            text,
            "foreign: {caller} at {place}"
        ),
        FinishFault::NoMemory => Err(AllocError),
    };
    Ok(told?)
}
