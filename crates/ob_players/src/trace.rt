//! What is answered, in the words of the traces of `ob_tool`.

use crate::words::NoAnswer;
use ob_history::{Glance, Receipt};
use ob_seq::Look;
use ob_types::{Answer, Change, Outcome, PromiseId, Refusal, Reply};
use std::alloc::AllocError;

/// Adds the answer to a command, by the look after it.
pub fn push_answer(
    text: &mut String,
    answer: &Result<Reply, Refusal>,
    look: Look,
) -> Result<(), AllocError> {
    match answer {
        Ok(reply) => push_reply(text, reply, look),
        Err(refusal) => {
            write!(text, "!{}", refusal.number())?;
            push_levels(text, look)
        }
    }
}

/// Adds why a call was refused, unless it is to be asked again.
pub fn push_refusal(text: &mut String, refusal: Refusal) -> Result<(), NoAnswer> {
    if refusal == Refusal::NoMemory {
        return Err(NoAnswer::NoMemory);
    }
    Ok(write!(text, "!{}", refusal.number())?)
}

fn push_reply(text: &mut String, reply: &Reply, look: Look) -> Result<(), AllocError> {
    match reply.answer {
        Answer::Id(PromiseId(id)) => write!(text, "id {id}"),
        Answer::Count(count) => write!(text, "n {count}"),
        Answer::Yes(is_so) => push_either(text, is_so, "yes", "no"),
        Answer::Done => text.push_str("ok"),
    }?;
    push_levels(text, look)?;
    push_change(text, reply.change)?;
    push_settlements(text, reply.settled.as_slice())
}

/// Adds one of two texts.
pub fn push_either(text: &mut String, flag: bool, yes: &str, no: &str) -> Result<(), AllocError> {
    text.push_str(if flag { yes } else { no })
}

/// Adds the pending bytes and the word.
pub fn push_levels(text: &mut String, look: Look) -> Result<(), AllocError> {
    push_words(text, look.total, look.word)
}

/// Adds a total and a word.
pub fn push_words(text: &mut String, total: u32, word: u32) -> Result<(), AllocError> {
    write!(text, " t={total} w={word:08x}")
}

/// Adds a change of writability, if there is one.
pub fn push_change(text: &mut String, change: Option<Change>) -> Result<(), AllocError> {
    match change {
        None => Ok(()),
        Some(Change::Unwritable) => text.push_str(" -"),
        Some(Change::Writable) => text.push_str(" +"),
    }
}

/// Adds settlements.
pub fn push_settlements(
    text: &mut String,
    settled: &[(PromiseId, Outcome)],
) -> Result<(), AllocError> {
    for (id, outcome) in settled {
        write!(text, " {}:", id.0)?;
        push_outcome(text, *outcome)?;
    }
    Ok(())
}

/// Adds what a call settled.
pub fn push_settled(text: &mut String, receipt: &Receipt) -> Result<(), AllocError> {
    match &receipt.reply {
        Ok(reply) => push_settlements(text, reply.settled.as_slice()),
        Err(_) => Ok(()),
    }
}

/// Adds an outcome.
pub fn push_outcome(text: &mut String, outcome: Outcome) -> Result<(), AllocError> {
    match outcome {
        Outcome::Success => text.push_str("ok"),
        Outcome::Failed(cause) => write!(text, "f{}", cause.0),
        Outcome::Cancelled => text.push_str("x"),
    }
}

/// Adds what a glance shows.
pub fn push_glance(text: &mut String, glance: Glance) -> Result<(), AllocError> {
    write!(text, "t={} w={:08x}", glance.total, glance.word)
}

/// Adds a look.
pub fn push_look(text: &mut String, look: Look) -> Result<(), AllocError> {
    write!(
        text,
        "size={} cur={} bu={} bw={}",
        look.size, look.current_progress, look.before_unwritable, look.before_writable
    )?;
    push_levels(text, look)
}
