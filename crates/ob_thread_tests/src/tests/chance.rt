//! Callers that make many calls, in turn or at random.

use crate::tests::callers::Told;
use crate::tests::dice::Dice;
use crate::tests::host::Hosted;
use ob_players::commands::wanted;
use ob_players::words::{NoAnswer, Words};
use ob_shared::{Done, Named};
use ob_types::Command;
use std::alloc::Global;
use std::sync::Wait;

/// Makes *n* calls, each from a desk of its own, stops if one is not made, and adds how many were. They are the
/// commands between the commas behind an `of` in turn, or random ones if there is none.
pub fn calls_by<L: Named, R: AllocGlobal + Wait>(
    hosted: &Hosted<L, R>,
    done: Done<L>,
    asked: &str,
    text: &mut String,
) -> Told<L> {
    let (count, commands) = calls_of(asked);
    let mut dice = Dice::new(done.share.caller());
    let mut caller = done;
    let mut made = 0u32;
    for number in 0..count {
        let Ok(command) = command(hosted.rt.alloc(), &mut dice, commands, number as usize) else {
            break;
        };
        let (same, answer) = hosted.buffer.call(hosted.rt, caller, command);
        caller = same;
        if answer.is_err() {
            break;
        }
        made = made.saturating_add(1);
    }
    let told = write!(text, "{made} calls").map_err(NoAnswer::from);
    (Some(caller), told)
}

/// How many calls a line asks for, and of which commands.
fn calls_of(asked: &str) -> (u32, &str) {
    let (count, commands) = asked.split_once(" of ").unwrap_or((asked, ""));
    let mut words = Words::of(count);
    let _calls = words.word();
    (words.small().unwrap_or(0), commands)
}

/// The command of a call by its number.
fn command(
    alloc: Global,
    dice: &mut Dice,
    commands: &str,
    number: usize,
) -> Result<Command, NoAnswer> {
    if commands.is_empty() {
        return Ok(dice.command(alloc)?);
    }
    let count = commands.split(',').count().max(1);
    let text = commands.split(',').nth(number % count).unwrap_or("");
    wanted(alloc, &mut Words::of(text))
}
