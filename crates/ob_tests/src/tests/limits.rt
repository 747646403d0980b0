//! The limits of a buffer, met: lines that stand for many commands.

use ob_players::run::Single;
use ob_players::story::{Begins, Player, Story, play_each};
use ob_players::words::{NoAnswer, Words};
use ob_seq::Buffer;
use ob_stories::LIMITS;
use ob_types::{Answer, Cause, Message, Outcome, PromiseId, Refusal};
use std::alloc::Global;
use std::test::Fail;

#[derive(Drop)]
struct Many(Single<Buffer>);

impl Player for Many {
    fn answer(&mut self, asked: &str, text: &mut String) -> Result<(), NoAnswer> {
        let mut words = Words::of(asked);
        match words.word() {
            "regions" => push_in_turn(text, regions(&mut self.0.kept, words.small()?)),
            "cycles" => push_in_turn(text, cycles(&mut self.0.kept, words.small()?)),
            "fail" => fail_all(&mut self.0.kept, Cause(words.small()?), text),
            _ => self.0.answer(asked, text),
        }
    }
}

fn push_in_turn(text: &mut String, count: Result<u32, Refusal>) -> Result<(), NoAnswer> {
    let count = count?;
    Ok(write!(text, "{count} in turn")?)
}

/// Writes *n* empty regions to a new buffer: how many answered the promises from the first on.
fn regions(buffer: &mut Buffer, count: u32) -> Result<u32, Refusal> {
    for id in 0..count {
        if buffer.write(Message::Region(0))?.answer != Answer::Id(PromiseId(id)) {
            return Ok(id);
        }
    }
    Ok(count)
}

/// Gives a new buffer *n* cycles, of which each but the first one removes the message of the one before: how many
/// went so.
pub fn cycles(buffer: &mut Buffer, count: u32) -> Result<u32, Refusal> {
    for id in 0..count {
        let removed = Answer::Yes(id > 0);
        if cycle(buffer)? != (removed, Answer::Id(PromiseId(id)), Answer::Count(1)) {
            return Ok(id);
        }
    }
    Ok(count)
}

/// What a removal, a write and a flush answer in turn.
fn cycle(buffer: &mut Buffer) -> Result<(Answer, Answer, Answer), Refusal> {
    let removed = buffer.remove()?.answer;
    let written = buffer.write(Message::Other(7))?.answer;
    Ok((removed, written, buffer.flush()?.answer))
}

/// Fails all that is flushed, with notice, and tells the settlements in short.
fn fail_all(buffer: &mut Buffer, cause: Cause, text: &mut String) -> Result<(), NoAnswer> {
    let reply = buffer.fail_flushed(cause, true)?;
    let (in_turn, all) = (
        failed_in_turn(reply.settled.as_slice(), cause),
        reply.settled.as_slice().len(),
    );
    let answer = reply.answer;
    drop(reply);
    if let Answer::Count(count) = answer {
        write!(
            text,
            "n {count}, {in_turn} of {all} in turn as f{}",
            cause.0
        )?;
    }
    Ok(())
}

/// How many settlements from the first on tell the promises in their order, each as failed.
fn failed_in_turn(settled: &[(PromiseId, Outcome)], cause: Cause) -> u32 {
    let mut in_turn = 0u32;
    for one in settled {
        if *one != (PromiseId(in_turn), Outcome::Failed(cause)) {
            break;
        }
        in_turn = in_turn.saturating_add(1);
    }
    in_turn
}

impl Begins for Many {
    fn begin(alloc: Global, story: Story) -> Result<Many, NoAnswer> {
        Ok(Many(Single::begin(alloc, story)?))
    }
}

#[test]
fn limits_of_a_buffer(rt: HostRuntime) -> Result<(), Fail> {
    play_each::<Many>(rt.alloc(), LIMITS)
}
