//! The worked rows, asked through handles of one connection: two writers by turns, and its transport.

use bytes::Bytes;
use ob_connection::{Removed, Taken};
use ob_players::buffers::Options;
use ob_players::commands::command;
use ob_players::story::Story;
use ob_players::trace::{push_answer, push_levels, push_look};
use ob_players::words::{NoAnswer, Words};
use ob_seq::Look;
use ob_shared_connection::{Handle, NotWritten, Transport, WriteFault, looks};
use ob_stories::RUN;
use ob_types::{Answer, Change, Command, Message, Outcome, PromiseId, Refusal, Reply, Settlements};
use std::alloc::Global;
use std::process::Abort;
use std::sync::Wait;
use std::test::Fail;

/// The handles that the lines of a story are asked of.
#[derive(Drop)]
struct Handles {
    alloc: Global,
    transport: Transport,
    writer: Handle,
    other: Handle,
    /// The first byte of the next block: the number of accepted writes.
    written: u8,
    /// The promises that were cancelled: what takes several messages away tells the first and the last.
    cancelled: Vec<u64>,
}

impl Handles {
    fn of(alloc: Global, story: Story) -> Result<Handles, NoAnswer> {
        let options = Options::of(story.command)?;
        let mut transport = Handle::open(
            alloc,
            options.marks()?,
            options.estimate(),
        )?.into_transport();
        let (Ok(writer), Ok(other)) = (transport.another(), transport.another()) else {
            return Err(NoAnswer::NoMemory);
        };
        Ok(Handles {
            alloc,
            transport,
            writer,
            other,
            written: 0,
            cancelled: Vec::new(alloc),
        })
    }

    /// Answers a line, or does not if it asks what a connection does not tell.
    fn answer<R: Wait>(
        &mut self,
        rt: &R,
        asked: &str,
        text: &mut String,
    ) -> Result<bool, NoAnswer> {
        let mut words = Words::of(asked);
        let word = words.word();
        if let Some(command) = command(self.alloc, word, &mut words, self.written)? {
            let answer = self.give(rt, command);
            push_answer(text, &answer, self.look(rt))?;
            return Ok(true);
        }
        match word {
            "?" => push_look(text, self.look(rt))?,
            "g" => {
                let blocks = self.transport.gather(rt, words.small()?, words.small()?)?;
                push_gathered(text, &blocks)?;
                push_levels(text, self.look(rt))?;
            }
            _ => return Ok(false),
        }
        Ok(true)
    }

    /// What a look shows, by the names of a buffer.
    fn look<R: Wait>(&mut self, rt: &R) -> Look {
        let look = self.writer.ask(rt, looks::Look);
        Look {
            total: look.total,
            word: look.word,
            size: u32::try_from(look.size).unwrap_or(u32::MAX),
            before_unwritable: look.before_unwritable,
            before_writable: look.before_writable,
            current_progress: look.current_progress,
        }
    }

    /// Carries a command out: what takes messages away by the transport, all else by one of the writers.
    fn give<R: Wait>(&mut self, rt: &R, command: Command) -> Result<Reply, Refusal> {
        match command {
            Command::Write(message) => self.write(rt, message),
            Command::Flush => {
                let flushed = self.other.flush(rt)?;
                Ok(self.settling_none(count(flushed.count), flushed.change))
            }
            Command::Remove => {
                let removed = self.transport.remove(rt)?;
                self.removed(removed)
            }
            Command::RemoveWith(cause) => {
                let removed = self.transport.remove_with(rt, cause)?;
                self.removed(removed)
            }
            Command::RemoveBytes(n) => {
                let taken = self.transport.take_sent(rt, n)?;
                self.taken(taken)
            }
            Command::Progress(n) => {
                self.other.progress(rt, n)?;
                Ok(self.settling_none(Answer::Done, None))
            }
            Command::Cancel(id) => self.cancel(rt, id),
            Command::FailFlushed(cause, notify) => {
                let taken = self.transport.fail_flushed(rt, cause, notify)?;
                self.taken(taken)
            }
            Command::Close(cause) => {
                let taken = self.other.close(rt, cause)?;
                self.taken(taken)
            }
            Command::UserBit(index, writable) => {
                let change = self.writer.user_bit(rt, index, writable)?;
                Ok(self.settling_none(Answer::Done, change))
            }
            Command::SetMarks(marks) => {
                self.writer.set_marks(rt, marks)?;
                Ok(self.settling_none(Answer::Done, None))
            }
        }
    }

    /// Writes by the two writers in turn.
    fn write<R: Wait>(&mut self, rt: &R, message: Message) -> Result<Reply, Refusal> {
        let written = if self.written % 2 == 0 {
            self.writer.write(rt, message)
        } else {
            self.other.write(rt, message)
        };
        let written = written.map_err(refusal_of)?;
        self.written = self.written.wrapping_add(1);
        Ok(self.settling_none(Answer::Id(promise(written.id)), written.change))
    }

    fn cancel<R: Wait>(&mut self, rt: &R, id: PromiseId) -> Result<Reply, Refusal> {
        let came = self.other.cancel(rt, u64::from(id.0))?;
        if !came {
            return Ok(self.settling_none(Answer::Yes(false), None));
        }
        self.cancelled.push(u64::from(id.0))?;
        let settled = Settlements::one(self.alloc, id, Outcome::Cancelled);
        Ok(reply(Answer::Yes(true), settled, None))
    }

    /// The reply of a command that settles nothing.
    fn settling_none(&self, answer: Answer, change: Option<Change>) -> Reply {
        reply(answer, Settlements::new(self.alloc), change)
    }

    /// The reply of a removal of the first message.
    fn removed(&self, removed: Removed) -> Result<Reply, Refusal> {
        let mut settled = Settlements::new(self.alloc);
        if let Some((id, outcome)) = removed.settled {
            settled.push(promise(id), outcome)?;
        }
        Ok(reply(Answer::Yes(removed.any), settled, removed.change))
    }

    /// The reply of a removal of several.
    fn taken(&self, taken: Taken) -> Result<Reply, Refusal> {
        let mut settled = Settlements::new(self.alloc);
        for id in taken.ids() {
            if !self.cancelled.contains(&id) {
                settled.push(promise(id), taken.outcome)?;
            }
        }
        Ok(reply(count(taken.count), settled, taken.change))
    }
}

fn reply(answer: Answer, settled: Settlements, change: Option<Change>) -> Reply {
    Reply {
        answer,
        settled,
        change,
    }
}

fn promise(id: u64) -> PromiseId {
    PromiseId(u32::try_from(id).unwrap_or(u32::MAX))
}

fn count(messages: u64) -> Answer {
    Answer::Count(u32::try_from(messages).unwrap_or(u32::MAX))
}

fn push_gathered(text: &mut String, blocks: &[Bytes]) -> Result<(), NoAnswer> {
    text.push_str("g")?;
    for block in blocks {
        write!(text, " {}", block.len())?;
    }
    Ok(())
}

/// Asks all lines of a story, and tells how many were answered. The first mismatch ends the test.
fn play<R: Wait + Abort>(rt: &R, alloc: Global, story: Story) -> Result<u32, NoAnswer> {
    let mut handles = Handles::of(alloc, story)?;
    let mut text = String::new(alloc);
    let mut answered: u32 = 0;
    for line in story.lines.lines() {
        let Some((asked, wanted)) = line.split_once(" / ") else {
            continue;
        };
        text.clear();
        if handles.answer(rt, asked.trim_start_matches(": "), &mut text)? {
            if text.as_str() != wanted {
                panic!(rt; "{}: {asked}: {text}", story.about)
            }
            answered = answered.saturating_add(1);
        }
    }
    Ok(answered)
}

#[test]
fn the_worked_rows_through_handles(rt: HostRuntime) -> Result<(), Fail> {
    let mut answered: u32 = 0;
    for text in RUN.split('#') {
        let Ok(more) = play(&rt, rt.alloc(), Story::of(text)) else {
            panic!(rt; "a line has no answer: {text}")
        };
        answered = answered.saturating_add(more);
    }
    assert!(rt; answered > 150);
    Ok(())
}

/// Why a connection within no budget refused a message.
fn refusal_of(refused: NotWritten) -> Refusal {
    match refused.why {
        WriteFault::Refused(refusal) => refusal,
        WriteFault::Uncovered => Refusal::NoMemory,
    }
}
