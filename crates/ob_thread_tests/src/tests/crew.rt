//! The callers of a shared buffer, who play lines in turn.

use crate::tests::callers::{Caller, push_seen};
use crate::tests::changes::{Aside, changes};
use crate::tests::endings::{push_end, push_fault};
use crate::tests::host::Hosted;
use crate::tests::members::{Member, done_of, put_all, put_done, take_all, take_done};
use ob_history::Recorded;
use ob_players::buffers::Options;
use ob_players::story::Player;
use ob_players::trace::{push_glance, push_look};
use ob_players::words::{NoAnswer, Words, number_in};
use ob_shared::{FinishFault, Named, Reader, SharedBuffer};
use std::sync::Wait;
use std::sync::atomic::AtomicU64;
use std::time::Clock;

/// A shared buffer until it is finished, with its callers and readers.
#[derive(Drop)]
pub struct Crew<'r, L: Named, R> {
    pub rt: &'r R,
    pub options: Options,
    pub buffer: Option<SharedBuffer<L>>,
    pub members: Vec<Member<L>>,
    /// What is not handed in.
    pub aside: Aside<L>,
    /// Why the buffer was not finished the last time.
    pub fault: Option<FinishFault>,
    /// The history of the buffer that is finished.
    pub recorded: Option<Recorded>,
}

impl<'r, L: Named, R: AllocGlobal + Wait + Clock> Player for Crew<'r, L, R> {
    fn answer(&mut self, asked: &str, text: &mut String) -> Result<(), NoAnswer> {
        match asked {
            "finish" | "ends" => self.finish(asked, text),
            "why" => push_why(text, self.fault),
            _ => self.tell(asked, text),
        }
    }
}

impl<'r, L: Named, R: AllocGlobal + Wait + Clock> Crew<'r, L, R> {
    /// Plays a line over the buffer, or over its history when it is finished.
    fn tell(&mut self, asked: &str, text: &mut String) -> Result<(), NoAnswer> {
        match (&self.buffer, &self.recorded) {
            (Some(buffer), _) => {
                let rt = self.rt;
                plays(
                    &Hosted { rt, buffer },
                    &mut self.members,
                    &mut self.aside,
                    asked,
                    text,
                )
            }
            (None, Some(recorded)) => {
                let asked = (self.rt.alloc(), asked);
                push_end(self.options, recorded, &self.members, asked, text)
            }
            (None, None) => Err(NoAnswer::Unread),
        }
    }

    /// Hands in what all callers have, and has it back on a fault. What is pending then is told too, unless it `ends`.
    fn finish(&mut self, word: &str, text: &mut String) -> Result<(), NoAnswer> {
        let dones = take_all(self.rt.alloc(), &mut self.members)?;
        let Some(buffer) = self.buffer.take() else {
            drop(dones);
            return Err(NoAnswer::Unread);
        };
        match buffer.finish(dones) {
            Ok(finished) => keep_finished(&mut self.recorded, finished.recorded, word, text),
            Err(unfinished) => {
                drop(self.buffer.replace(unfinished.buffer));
                put_all(&mut self.members, unfinished.dones);
                self.fault = Some(unfinished.fault);
                push_fault(text, unfinished.fault)
            }
        }
    }
}

/// Keeps a history, and adds how many records it has.
fn keep_finished(
    kept: &mut Option<Recorded>,
    recorded: Recorded,
    word: &str,
    text: &mut String,
) -> Result<(), NoAnswer> {
    let told = push_finished(text, &recorded, word);
    drop(kept.replace(recorded));
    told
}

fn push_finished(text: &mut String, recorded: &Recorded, word: &str) -> Result<(), NoAnswer> {
    write!(text, "{} records", recorded.records().len())?;
    if word == "finish" {
        text.push_str(": ")?;
        push_look(text, recorded.look().look)?;
    }
    Ok(())
}

fn push_why(text: &mut String, fault: Option<FinishFault>) -> Result<(), NoAnswer> {
    match fault {
        Some(fault) => Ok(write!(text, "{fault}")?),
        None => Err(NoAnswer::Unread),
    }
}

/// Plays a line over a buffer that is not finished. A line that begins with a number is one of that caller.
fn plays<L: Named, R: AllocGlobal + Wait + Clock>(
    hosted: &Hosted<L, R>,
    members: &mut Vec<Member<L>>,
    aside: &mut Aside<L>,
    asked: &str,
    text: &mut String,
) -> Result<(), NoAnswer> {
    let (word, rest) = asked.split_once(' ').unwrap_or((asked, ""));
    if let Ok(caller) = number_in(word) {
        return asks(hosted, members, caller as usize, rest, text);
    }
    let two = two_members(rest);
    match word {
        "made" => push_made(text, members),
        "watch" => watch(hosted, members, two.0),
        "watched" | "check" => push_watched(hosted, members.last_mut(), word, text),
        _ => changes(hosted.rt.alloc(), members, aside, word, two),
    }
}

/// The numbers of two members. A word that is no number names none, and if there is no second word, it is the first
/// member.
fn two_members(line: &str) -> (usize, usize) {
    let mut words = Words::of(line);
    let one = words.small().unwrap_or(u32::MAX) as usize;
    (one, words.small().unwrap_or(0) as usize)
}

/// A caller is asked for what stands behind its number.
fn asks<L: Named, R: AllocGlobal + Wait + Clock>(
    hosted: &Hosted<L, R>,
    members: &mut [Member<L>],
    caller: usize,
    line: &str,
    text: &mut String,
) -> Result<(), NoAnswer> {
    let mut player = Caller {
        hosted,
        come: &AtomicU64::new(0),
        done: take_done(members, caller),
    };
    let told = player.answer(line, text);
    put_done(members, caller, player.done);
    told
}

/// Makes a reader of a caller's share.
fn watch<L: Named, R: AllocGlobal>(
    hosted: &Hosted<L, R>,
    members: &mut Vec<Member<L>>,
    caller: usize,
) -> Result<(), NoAnswer> {
    let reader = match done_of(members, caller) {
        Some(done) => done.share.reader(hosted.buffer),
        None => return Err(NoAnswer::Unread),
    };
    let member = Member::new(hosted.rt.alloc(), members.len(), None, Some(reader));
    Ok(members.push(member)?)
}

/// What the last reader reads without the lock, or sees under the lock.
fn push_watched<L: Named, R: Wait>(
    hosted: &Hosted<L, R>,
    member: Option<&mut Member<L>>,
    word: &str,
    text: &mut String,
) -> Result<(), NoAnswer> {
    match member {
        Some(member) => match member.reader.as_mut() {
            Some(reader) => push_read(hosted, reader, word, text),
            None => Err(NoAnswer::Unread),
        },
        None => Err(NoAnswer::Unread),
    }
}

fn push_read<L: Named, R: Wait>(
    hosted: &Hosted<L, R>,
    reader: &mut Reader<L>,
    word: &str,
    text: &mut String,
) -> Result<(), NoAnswer> {
    let told = if word == "watched" {
        push_glance(text, reader.read(hosted.buffer))
    } else {
        push_seen(text, hosted.buffer.check_in(hosted.rt, reader))
    };
    Ok(told?)
}

/// Adds how many records each caller made.
fn push_made<L: Named>(text: &mut String, members: &[Member<L>]) -> Result<(), NoAnswer> {
    for member in members {
        if let Some(done) = &member.done {
            write!(text, " {}:{}", done.share.caller(), done.share.made())?;
        }
    }
    Ok(())
}
