//! The words of a line.

use ob_types::Refusal;
use std::alloc::{AllocError, AllocFailed};
use std::str::SplitWhitespace;

/// Why a line has no answer.
#[derive(Clone, Copy, Debug, PartialEq, Eq)]
pub enum NoAnswer {
    /// Nothing plays such a line.
    Unread,
    /// The allocator refused.
    NoMemory,
    /// A call that the line stands on was refused.
    Refused(Refusal),
}

impl From<AllocError> for NoAnswer {
    fn from(_error: AllocError) -> NoAnswer {
        NoAnswer::NoMemory
    }
}

impl<T: Drop> From<AllocFailed<T>> for NoAnswer {
    fn from(_error: AllocFailed<T>) -> NoAnswer {
        NoAnswer::NoMemory
    }
}

impl From<Refusal> for NoAnswer {
    fn from(refusal: Refusal) -> NoAnswer {
        match refusal {
            Refusal::NoMemory => NoAnswer::NoMemory,
            other => NoAnswer::Refused(other),
        }
    }
}

/// The most words that a line may have.
pub const MOST: u32 = 64;

/// The words of a line, from the next on.
#[derive(Drop)]
pub struct Words<'a>(SplitWhitespace<'a>);

impl<'a> Words<'a> {
    pub fn of(line: &'a str) -> Words<'a> {
        Words(line.split_whitespace())
    }

    /// The next word, if there is one.
    pub fn next(&mut self) -> Option<&'a str> {
        self.0.next()
    }

    /// The next word, or an empty one behind the last.
    pub fn word(&mut self) -> &'a str {
        self.next().unwrap_or("")
    }

    /// The words from the next on.
    pub fn rest(self) -> SplitWhitespace<'a> {
        self.0
    }

    /// The number that is the next word.
    pub fn number(&mut self) -> Result<u64, NoAnswer> {
        match self.word().parse::<u64>() {
            Ok(number) => Ok(number),
            Err(_) => Err(NoAnswer::Unread),
        }
    }

    /// The number of 32 bits that is the next word.
    pub fn small(&mut self) -> Result<u32, NoAnswer> {
        number_in(self.word())
    }

    /// Whether the next word is a 1.
    pub fn flag(&mut self) -> bool {
        self.word() == "1"
    }
}

/// The number of 32 bits that a word is.
pub fn number_in(word: &str) -> Result<u32, NoAnswer> {
    match word.parse::<u32>() {
        Ok(number) => Ok(number),
        Err(_) => Err(NoAnswer::Unread),
    }
}
