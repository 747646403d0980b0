//! Stories of lines, and how one is played.

use crate::words::{NoAnswer, number_in};
use std::alloc::Global;
use std::test::Fail;

/// What answers the lines of a story.
pub trait Player {
    /// Adds the answer to a line to a text.
    fn answer(&mut self, asked: &str, text: &mut String) -> Result<(), NoAnswer>;
}

/// A player that a story begins.
pub trait Begins: Player + Drop {
    /// What plays a story from its first line on.
    fn begin(alloc: Global, story: Story) -> Result<Self, NoAnswer>;
}

/// Plays each story of a text from its begin.
pub fn play_each<P: Begins>(alloc: Global, stories: &str) -> Result<(), Fail> {
    for text in stories.split('#') {
        let story = Story::of(text);
        let mut player = Again(P::begin(alloc, story)?);
        story.play(alloc, &mut player)?;
    }
    Ok(())
}

/// The most bytes of an answer.
const LONGEST: usize = 4096;

/// How often a line is asked again at most.
const TRIES: u32 = 9;

/// A player that is asked again when memory was refused, so that each growth may be refused in turn.
#[derive(Drop)]
pub struct Again<P>(pub P);

impl<P> Again<P> {
    pub fn into_inner(self) -> P {
        self.0
    }
}

impl<P: Player> Player for Again<P> {
    fn answer(&mut self, asked: &str, text: &mut String) -> Result<(), NoAnswer> {
        for _ in 0..TRIES {
            text.clear();
            let told = self.0.answer(asked, text);
            if told != Err(NoAnswer::NoMemory) {
                return told;
            }
        }
        Err(NoAnswer::NoMemory)
    }
}

/// A line whose answer is another than its story says.
#[derive(Debug, Drop)]
pub struct Otherwise<'a> {
    /// What the story says is so.
    pub about: &'a str,
    pub asked: &'a str,
    pub wanted: &'a str,
    pub answered: String,
    /// Why there is no answer, if there is none.
    pub told: Result<(), NoAnswer>,
}

/// A story: what is so, the words of the command line that begins it, and its lines.
#[derive(Clone, Copy)]
pub struct Story<'a> {
    pub about: &'a str,
    pub command: &'a str,
    pub lines: &'a str,
}

impl<'a> Story<'a> {
    /// The story that a text begins with a line of what is so, a line of a dollar and a command line, and then its
    /// lines.
    pub fn of(text: &'a str) -> Story<'a> {
        let (about, rest) = text.split_once('\n').unwrap_or((text, ""));
        let (command, lines) = rest.split_once('\n').unwrap_or((rest, ""));
        Story {
            about: about.trim(),
            command: command.trim(),
            lines,
        }
    }

    /// Asks a player all lines, and returns the first mismatch.
    pub fn play<P: Player>(self, alloc: Global, player: &mut P) -> Result<(), Otherwise<'a>> {
        // an answer does not allocate, so that it is not asked again for its text
        let asked = String::with_capacity(alloc, LONGEST);
        let Ok(mut text) = asked.or_else(|_| String::with_capacity(alloc, LONGEST)) else {
            let told = Err(NoAnswer::NoMemory);
            return Err(self.otherwise(("", ""), String::new(alloc), told));
        };
        match first_otherwise(player, self.lines, &mut text) {
            None => Ok(()),
            Some((line, told)) => Err(self.otherwise(line, text, told)),
        }
    }

    fn otherwise(
        self,
        (asked, wanted): (&'a str, &'a str),
        answered: String,
        told: Result<(), NoAnswer>,
    ) -> Otherwise<'a> {
        Otherwise {
            about: self.about,
            asked,
            wanted,
            answered,
            told,
        }
    }
}

/// What the first line asks and wants at a mismatch, and why it has no answer if it has none. The text is
/// what was answered last.
fn first_otherwise<'a, P: Player>(
    player: &mut P,
    lines: &'a str,
    text: &mut String,
) -> Option<((&'a str, &'a str), Result<(), NoAnswer>)> {
    for line in lines.lines() {
        if line.trim().is_empty() {
            continue;
        }
        let (asked, wanted) = parts(line);
        let (times, asked) = times(asked);
        let told = ask(player, asked, times, text);
        if told != Ok(()) || text.trim() != wanted {
            return Some(((asked, wanted), told));
        }
    }
    None
}

/// Asks a line *n* times: what is told the last time.
fn ask<P: Player>(
    player: &mut P,
    asked: &str,
    times: u32,
    text: &mut String,
) -> Result<(), NoAnswer> {
    let mut told = Ok(());
    for _ in 0..times {
        text.clear();
        told = player.answer(asked, text);
    }
    told
}

/// What a line asks, and what has to be answered.
pub fn parts(line: &str) -> (&str, &str) {
    let (asked, answer) = line.split_once('/').unwrap_or((line, ""));
    (asked.trim_start_matches(':').trim(), answer.trim())
}

/// How often a line is asked, and what: the answer is that of the last time.
fn times(asked: &str) -> (u32, &str) {
    match asked.split_once(" times ") {
        Some((count, line)) => (number_in(count).unwrap_or(1), line),
        None => (1, asked),
    }
}
