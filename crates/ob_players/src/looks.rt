//! The lines that look at a buffer: those of `run`, and some that tests alone ask.

use crate::trace::{push_either, push_levels, push_look, push_outcome};
use crate::words::{NoAnswer, Words};
use ob_seq::Buffer;
use ob_types::{Message, PromiseId, PromiseState};
use std::alloc::AllocError;

/// Answers a line that looks at a buffer.
pub fn look(buffer: &Buffer, asked: &str, text: &mut String) -> Result<(), NoAnswer> {
    let mut words = Words::of(asked);
    let told = match words.word() {
        "?" => push_look(text, buffer.look()),
        "current" => push_current(text, buffer.current()),
        "front" => push_front(text, buffer.front()),
        "flushed" => push_flushed(text, buffer),
        "state" => push_state(text, buffer),
        word => return look_at(buffer, word, &mut words, text),
    };
    Ok(told?)
}

/// Answers a line that looks at what has a number.
fn look_at(
    buffer: &Buffer,
    word: &str,
    words: &mut Words,
    text: &mut String,
) -> Result<(), NoAnswer> {
    let number = words.small()?;
    let told = match word {
        "g" => return push_gathered(text, buffer, number, words.small()?),
        "promise" => push_promise(text, buffer.promise(PromiseId(number))),
        "bit" => {
            let clear = buffer.user_defined_writability(number);
            push_either(text, clear, "clear", "set")
        }
        _ => return Err(NoAnswer::Unread),
    };
    Ok(told?)
}

fn push_gathered(
    text: &mut String,
    buffer: &Buffer,
    max_count: u32,
    max_bytes: u32,
) -> Result<(), NoAnswer> {
    let Ok(blocks) = buffer.gather(max_count, max_bytes) else {
        return Err(NoAnswer::NoMemory);
    };
    text.push_str("g")?;
    for block in &blocks {
        write!(text, " {}", block.len())?;
    }
    push_levels(text, buffer.look())?;
    Ok(())
}

fn push_promise(text: &mut String, state: Option<PromiseState>) -> Result<(), AllocError> {
    match state {
        None => text.push_str("unknown"),
        Some(PromiseState::Waiting) => text.push_str("waits"),
        Some(PromiseState::Fixed) => text.push_str("fixed"),
        Some(PromiseState::Settled(outcome)) => push_outcome(text, outcome),
    }
}

fn push_current(text: &mut String, current: Option<&Message>) -> Result<(), AllocError> {
    match current {
        None => text.push_str("nothing"),
        Some(message) => push_message(text, message),
    }
}

fn push_front(text: &mut String, front: Option<PromiseId>) -> Result<(), AllocError> {
    match front {
        None => text.push_str("nothing"),
        Some(PromiseId(id)) => write!(text, "id {id}"),
    }
}

/// Adds what is left of each flushed message that was not voided.
fn push_flushed(text: &mut String, buffer: &Buffer) -> Result<(), AllocError> {
    for message in buffer.flushed() {
        push_message(text, message)?;
    }
    Ok(())
}

/// Adds a message as the line that writes it.
fn push_message(text: &mut String, message: &Message) -> Result<(), AllocError> {
    match message {
        Message::Block(bytes) => write!(text, " b {}", bytes.len()),
        Message::Region(length) => write!(text, " r {length}"),
        Message::Other(value) => write!(text, " o {value}"),
    }
}

/// Adds whether a buffer is writable, whether its line is empty, whether it is closed, and how many writes are left.
fn push_state(text: &mut String, buffer: &Buffer) -> Result<(), AllocError> {
    push_either(text, buffer.is_writable(), "writable", "unwritable")?;
    push_either(text, buffer.is_empty(), " empty", " flushed")?;
    push_either(text, buffer.is_closed(), " closed", " open")?;
    write!(text, " {}", buffer.writes_left())
}
