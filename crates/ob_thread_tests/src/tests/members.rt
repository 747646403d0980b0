//! Who plays over one shared buffer: its callers, and those that read beside them.

use ob_history::Glance;
use ob_players::words::NoAnswer;
use ob_shared::{Done, Named, Reader, Share};
use std::alloc::Global;

/// A caller or a reader of a shared buffer, and what it has.
#[derive(Drop)]
pub struct Member<L: Named> {
    /// Its number, which a caller has of its share.
    pub number: usize,
    /// What a caller hands in, as long as it has that.
    pub done: Option<Done<L>>,
    /// What a reader reads by, until it has read in a thread.
    pub reader: Option<Reader<L>>,
    /// What a reader has seen in a thread, each glance once that differs from the one before.
    pub glances: Vec<Glance>,
}

impl<L: Named> Member<L> {
    pub fn new(
        alloc: Global,
        number: usize,
        done: Option<Done<L>>,
        reader: Option<Reader<L>>,
    ) -> Member<L> {
        Member {
            number,
            done,
            reader,
            glances: Vec::new(alloc),
        }
    }
}

/// The callers of these shares, in the order of their numbers.
pub fn callers_of<L: Named>(
    alloc: Global,
    shares: Vec<Share<L>>,
) -> Result<Vec<Member<L>>, NoAnswer> {
    let mut members = Vec::with_capacity(alloc, shares.len())?;
    for share in shares {
        let number = share.caller() as usize;
        let done = Some(Done::new(alloc, share));
        let _ = members.push(Member::new(alloc, number, done, None));
    }
    Ok(members)
}

/// What a caller hands in, which stays where it is.
pub fn done_of<L: Named>(members: &mut [Member<L>], caller: usize) -> Option<&mut Done<L>> {
    match members.get_mut(caller) {
        Some(member) => member.done.as_mut(),
        None => None,
    }
}

/// Takes what a caller hands in.
pub fn take_done<L: Named>(members: &mut [Member<L>], caller: usize) -> Option<Done<L>> {
    match members.get_mut(caller) {
        Some(member) => member.done.take(),
        None => None,
    }
}

/// Gives a caller what it hands in.
pub fn put_done<L: Named>(members: &mut [Member<L>], caller: usize, done: Option<Done<L>>) {
    match members.get_mut(caller) {
        Some(member) => drop(std::mem::replace(&mut member.done, done)),
        None => drop(done),
    }
}

/// Takes what all callers hand in.
pub fn take_all<L: Named>(
    alloc: Global,
    members: &mut [Member<L>],
) -> Result<Vec<Done<L>>, NoAnswer> {
    let mut dones = Vec::with_capacity(alloc, members.len())?;
    for member in members.iter_mut() {
        if let Some(done) = member.done.take() {
            let _ = dones.push(done);
        }
    }
    Ok(dones)
}

/// Gives the callers what they handed in.
pub fn put_all<L: Named>(members: &mut [Member<L>], dones: Vec<Done<L>>) {
    for done in dones {
        let caller = done.share.caller() as usize;
        put_done(members, caller, Some(done));
    }
}
