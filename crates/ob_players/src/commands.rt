//! The lines that give a command, as `ob_tool run` reads them.

use crate::words::{NoAnswer, Words};
use bytes::Bytes;
use ob_types::{Cause, Command, Message, PromiseId, WaterMark};
use std::alloc::{AllocError, Global};

/// The command of the words that are left, which have to be one.
pub fn wanted(alloc: Global, words: &mut Words) -> Result<Command, NoAnswer> {
    let word = words.word();
    command(alloc, word, words, 0)?.ok_or(NoAnswer::Unread)
}

/// The command of a line by its first word and those behind it, or nothing if it asks something else. The bytes of a
/// block count up from this one, and from 255 on to 0.
pub fn command(
    alloc: Global,
    word: &str,
    words: &mut Words,
    first: u8,
) -> Result<Option<Command>, NoAnswer> {
    Ok(Some(match word {
        "f" => Command::Flush,
        "rm" => Command::Remove,
        "b" | "r" | "rb" | "p" => of_length(alloc, word, words.number()?, first)?,
        "o" | "rc" | "x" | "fl" | "cl" | "u" => of_number(word, words.small()?, words.flag()),
        "m" => Command::SetMarks(marks(words.small(), words.small())?),
        _ => return Ok(None),
    }))
}

/// A command of bytes or units.
fn of_length(alloc: Global, word: &str, length: u64, first: u8) -> Result<Command, AllocError> {
    Ok(match word {
        "r" => Command::Write(Message::Region(length)),
        "rb" => Command::RemoveBytes(length),
        "p" => Command::Progress(length),
        _ => Command::Write(block(alloc, first, length)?),
    })
}

/// A command of a number of 32 bits, and of a flag behind it if it has one.
fn of_number(word: &str, number: u32, flag: bool) -> Command {
    match word {
        "o" => Command::Write(Message::Other(number)),
        "rc" => Command::RemoveWith(Cause(number)),
        "x" => Command::Cancel(PromiseId(number)),
        "fl" => Command::FailFlushed(Cause(number), flag),
        "cl" => Command::Close(Cause(number)),
        _ => Command::UserBit(number, flag),
    }
}

fn marks(low: Result<u32, NoAnswer>, high: Result<u32, NoAnswer>) -> Result<WaterMark, NoAnswer> {
    Ok(WaterMark::new(low?, high?)?)
}

/// A block of *n* bytes, which count up from this one.
pub fn block(alloc: Global, first: u8, length: u64) -> Result<Message, AllocError> {
    let mut bytes = Vec::new(alloc);
    for k in 0..length {
        bytes.push(first.wrapping_add((k % 256) as u8))?;
    }
    Ok(Message::Block(Bytes::from_vec(bytes)?))
}
