//! Callers and readers of a shared buffer in threads of their own.

use crate::tests::callers::Caller;
use crate::tests::crew::Crew;
use crate::tests::host::{Host, Hosted};
use crate::tests::members::Member;
use ob_history::Glance;
use ob_players::story::{Again, Story};
use ob_players::words::NoAnswer;
use ob_shared::{Done, Named, Reader};
use std::process::Abort;
use std::sync::Wait;
use std::sync::atomic::{AtomicU64, Ordering};
use std::thread::map_vec;
use std::time::Clock;

/// A story with parts: what is asked in turn before and after, and between these, behind per cent signs, what each caller
/// plays in a thread of its own, in the order of their numbers.
#[derive(Clone, Copy)]
pub struct Scene<'a> {
    pub before: Story<'a>,
    pub parts: &'a str,
    pub after: Story<'a>,
}

impl<'a> Scene<'a> {
    pub fn of(text: &'a str) -> Scene<'a> {
        let (before, rest) = text.split_once('%').unwrap_or((text, ""));
        let (parts, lines) = rest.rsplit_once('%').unwrap_or((rest, ""));
        let before = Story::of(before);
        Scene {
            before,
            parts,
            after: Story { lines, ..before },
        }
    }
}

/// All parts are played in threads of their own, while the readers read.
pub fn in_threads<L: Named + Send + Sync, R: Host>(
    rt: &R,
    crew: &mut Crew<'_, L, R>,
    parts: &str,
) -> Result<(), NoAnswer> {
    let Some(buffer) = &crew.buffer else {
        return Ok(());
    };
    if parts.is_empty() {
        return Ok(());
    }
    let members = std::mem::replace(&mut crew.members, Vec::new(rt.alloc()));
    crew.members = all_play(&Hosted { rt, buffer }, members, parts)?;
    Ok(())
}

fn all_play<L: Named + Send + Sync, R: Host>(
    hosted: &Hosted<L, R>,
    members: Vec<Member<L>>,
    parts: &str,
) -> Result<Vec<Member<L>>, NoAnswer> {
    let come = AtomicU64::new(0);
    let one = |member| plays(hosted, &come, member, parts);
    Ok(map_vec(hosted.rt, members, &one)?)
}

/// Plays the part of a caller, or reads as a reader.
fn plays<L: Named, R: AllocGlobal + Wait + Clock + Abort>(
    hosted: &Hosted<L, R>,
    come: &AtomicU64,
    member: Member<L>,
    parts: &str,
) -> Member<L> {
    let Member {
        number,
        done,
        reader,
        glances,
    } = member;
    let (done, glances) = match reader {
        Some(reader) => (done, reads(hosted, come, reader, glances)),
        None => (played(hosted, come, done, part(parts, number)), glances),
    };
    Member {
        number,
        done,
        reader: None,
        glances,
    }
}

/// The part of a caller by its number, or the last one.
fn part(parts: &str, number: usize) -> &str {
    let last = match parts.rsplit_once('%') {
        Some((_, last)) => last,
        None => parts,
    };
    parts.split('%').nth(number).unwrap_or(last)
}

/// What a caller hands in that has played its part.
fn played<L: Named, R: AllocGlobal + Wait + Clock + Abort>(
    hosted: &Hosted<L, R>,
    come: &AtomicU64,
    done: Option<Done<L>>,
    part: &str,
) -> Option<Done<L>> {
    let mut caller = Again(Caller { hosted, come, done });
    let story = Story {
        about: "the part of a caller",
        command: "",
        lines: part,
    };
    if let Err(otherwise) = story.play(hosted.rt.alloc(), &mut caller) {
        panic!(hosted.rt; "{otherwise:?}");
    }
    caller.into_inner().done
}

/// The most glances that a reader takes, so that it ends also if no second thread could be had.
const MOST_READS: u32 = 20_000_000;

/// Reads without a pause until two callers have come: what is seen, each glance once that differs from the one before.
fn reads<L: Named, R>(
    hosted: &Hosted<L, R>,
    come: &AtomicU64,
    reader: Reader<L>,
    seen: Vec<Glance>,
) -> Vec<Glance> {
    let mut reader = reader;
    let mut glances = seen;
    for _ in 0..MOST_READS {
        let last = come.load(Ordering::SeqCst) >= 2;
        let glance = reader.read(hosted.buffer);
        if glances.last() != Some(&glance) {
            let _ = glances.push(glance);
        }
        if last {
            break;
        }
    }
    glances
}
