//! What plays the lines of `run`, and the looks that tests alone ask.

use crate::buffers::{Kept, Options};
use crate::commands::command;
use crate::looks::look;
use crate::story::{Begins, Player, Story};
use crate::trace::push_answer;
use crate::words::{NoAnswer, Words};
use ob_seq::{Buffer, Look};
use ob_types::{Answer, Command, Refusal, Reply};
use std::alloc::Global;

/// A buffer that plays the lines of `run`.
#[derive(Drop)]
pub struct Single<K> {
    pub alloc: Global,
    pub kept: K,
    /// The first byte of the next block: the number of accepted writes, from 0 on again behind 255.
    pub next_byte: u8,
}

impl<K: Kept> Single<K> {
    pub fn new(alloc: Global, kept: K) -> Single<K> {
        Single {
            alloc,
            kept,
            next_byte: 0,
        }
    }
}

impl Begins for Single<Buffer> {
    fn begin(alloc: Global, story: Story) -> Result<Single<Buffer>, NoAnswer> {
        let buffer = Options::of(story.command)?.buffer(alloc)?;
        Ok(Single::new(alloc, buffer))
    }
}

impl<K: Kept> Player for Single<K> {
    fn answer(&mut self, asked: &str, text: &mut String) -> Result<(), NoAnswer> {
        let mut words = Words::of(asked);
        let word = words.word();
        match command(self.alloc, word, &mut words, self.next_byte)? {
            Some(command) => self.give(command, text),
            None => look(self.kept.buffer(), asked, text),
        }
    }
}

impl<K: Kept> Single<K> {
    /// Gives a command, which settles as many promises as `settles` says, and changes nothing if it is refused.
    fn give(&mut self, command: Command, text: &mut String) -> Result<(), NoAnswer> {
        let before = self.kept.buffer().look();
        let settles = self.kept.buffer().settles(&command);
        let answer = self.kept.give(command);
        self.next_byte = byte_after(self.next_byte, &answer);
        push_given(text, &answer, (before, self.kept.buffer().look()), settles)
    }
}

/// The first byte of the next block behind this answer.
fn byte_after(byte: u8, answer: &Result<Reply, Refusal>) -> u8 {
    match answer {
        Ok(reply) if matches!(reply.answer, Answer::Id(_)) => byte.wrapping_add(1),
        _ => byte,
    }
}

/// Adds an answer by the look after it, and whether that is otherwise than the buffer had told.
fn push_given(
    text: &mut String,
    answer: &Result<Reply, Refusal>,
    (before, look): (Look, Look),
    settles: u32,
) -> Result<(), NoAnswer> {
    if matches!(answer, Err(Refusal::NoMemory)) {
        return Err(NoAnswer::NoMemory);
    }
    push_answer(text, answer, look)?;
    if settles_otherwise(answer, settles) {
        write!(text, ", where {settles} were to be settled")?;
    }
    if answer.is_err() && look != before {
        text.push_str(", and was changed")?;
    }
    Ok(())
}

/// Whether a buffer that answered this had said to settle another number of promises. A call that a full history refused
/// was not given to the buffer.
fn settles_otherwise(answer: &Result<Reply, Refusal>, settles: u32) -> bool {
    match answer {
        Ok(reply) => reply.settled.as_slice().len() != settles as usize,
        Err(Refusal::HistoryFull) => false,
        Err(_) => settles != 0,
    }
}
