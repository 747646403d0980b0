//! Segments of entries, one behind the other.

ghost use Rattle.std.specs.Prelude.{◌≡◌, ◌≤◌, ◌<◌, ◌+◌, ◌++◌, ◌∷◌, [], length, take, drop, OnOk, OnErr, IsSome, slice_index_or};
ghost use Rattle.std.specs.Option.{option_to_list};
ghost use Rattle.std.specs.VecDeque.{deque_capacity, deque_len};
ghost use Rattle.ob_types.specs.Limits.{greatest_total};
ghost use Rattle.ob_seq.specs.Inside.{counted};
ghost use Rattle.ob_seq.specs.Laid.{AreFull, AreInFront, IsAdded, IsFoundIn, capacity_of, entries_of, most_segments};

use crate::entry::Entry;
use std::alloc::{AllocError, Global};
use std::collections::VecDeque;
use std::mem;

/// How many entries a segment has.
pub(super) const SEGMENT: usize = 128;

/// How many segments lie before the last at most: no memory has as many.
const MOST_SEGMENTS: usize = 281474976710656;

/// From how many entries on it costs less to take a segment's away at once than one by one.
const MANY: usize = 8;

/// A ring without entries, and without memory.
pub(super) fn without_memory(alloc: Global) -> VecDeque<Entry>
    ensures items { result.items ≡ [] }
    ensures capacity { deque_capacity result ≡ 0 }
{
    let mut ring = VecDeque::new(alloc);
    // It has none, and a contract can say so only of a shrunk one.
    ring.shrink_to_fit();
    ring
}

/// How many entries the segments in front have.
#[tactic(auto, using(crate::proofs::Laid::count_in_front))]
#[inline(always)]
pub(super) fn count_of(first: &VecDeque<Entry>, more: &VecDeque<VecDeque<Entry>>) -> usize
    requires { AreInFront first.now more.now.items }
    ensures { result ≡ length (entries_of (first.now ∷ more.now.items)) }
{
    first.len() + more.len() * SEGMENT
}

/// For how many entries the segments in front have memory.
#[tactic(auto, using(crate::proofs::Laid::full_capacity))]
pub(super) fn capacity_of(first: &VecDeque<Entry>, more: &VecDeque<VecDeque<Entry>>) -> usize
    requires { AreInFront first.now more.now.items }
    ensures { result ≡ capacity_of (first.now ∷ more.now.items) }
{
    first.capacity() + more.len() * SEGMENT
}

/// In which of the segments in front the entry at this place lies, and where there.
pub(super) fn found_in(
    first: &VecDeque<Entry>,
    more: &VecDeque<VecDeque<Entry>>,
    place: usize,
) -> (usize, usize)
    requires front { AreInFront first.now more.now.items }
    requires there { place < length (entries_of (first.now ∷ more.now.items)) }
    ensures { IsFoundIn (first.now ∷ more.now.items) place result.0 result.1 }
{
    let count = first.len();
    if place < count {
        return (0, place);
    }
    let behind = place - count;
    (behind / SEGMENT + 1, behind % SEGMENT)
}

/// That one of the segments in front.
pub(super) fn segment_at<'a>(
    first: &'a VecDeque<Entry>,
    more: &'a VecDeque<VecDeque<Entry>>,
    index: usize,
) -> &'a VecDeque<Entry>
    requires { index < length (first.now ∷ more.now.items) }
    ensures { result.now ≡ slice_index_or (first.now ∷ more.now.items) index result.now }
{
    if index == 0 { first } else { &more[index - 1] }
}

/// Some entries of a segment that lie together from this place on.
pub(super) fn run_in(segment: &VecDeque<Entry>, place: usize) -> &[Entry]
    requires { place < deque_len segment.now }
    ensures run { result.now ≡ take (length result.now) (drop place segment.now.items) }
    ensures some { 0 < length result.now }
{
    let (front, back) = segment.as_slices();
    if place < front.len() {
        &front[place..]
    } else {
        &back[place - front.len()..]
    }
}

/// Puts the last segment behind those before it, and an empty one for 128 in its place. If that fails, all is as it was.
pub(super) fn add_segment(
    last: &mut VecDeque<Entry>,
    more: &mut VecDeque<VecDeque<Entry>>,
) -> Result<(), AllocError>
    ensures ok { OnOk result (IsAdded last.old more.old.items last.new more.new.items) }
    ensures last { OnErr result (last.new ≡ last.old) }
    ensures more { OnErr result (more.new.items ≡ more.old.items) }
{
    if more.len() >= MOST_SEGMENTS {
        return Err(AllocError);
    }
    more.reserve(1)?;
    let empty = VecDeque::with_capacity(*last.allocator(), SEGMENT)?;
    more.push_back_reserved(mem::replace(last, empty));
    Ok(())
}

/// Some of the first entries, which were taken away.
#[derive(Clone, Copy)]
pub(super) struct Taken {
    /// How many they were.
    pub(super) count: usize,
    /// The bytes that they count together.
    pub(super) size: u32,
}

/// Takes away those of the first `count` entries in front that lie in the first segment.
pub(super) fn take_ahead(
    first: &mut VecDeque<Entry>,
    more: &mut VecDeque<VecDeque<Entry>>,
    count: usize,
) -> Taken
    requires front { AreInFront first.old more.old.items }
    requires there { 0 < deque_len first.old }
    requires some { 0 < count }
    requires fits { counted (entries_of (first.old ∷ more.old.items)) ≤ greatest_total }
    ensures some { 0 < result.count }
    ensures within { result.count ≤ count }
    ensures there { result.count ≤ length (entries_of (first.old ∷ more.old.items)) }
    ensures items { entries_of (first.new ∷ more.new.items) ≡ drop result.count (entries_of (first.old ∷ more.old.items)) }
    ensures counted { result.size + counted (entries_of (first.new ∷ more.new.items))
        ≡ counted (entries_of (first.old ∷ more.old.items)) }
    ensures front { AreInFront first.new more.new.items }
    ensures memory { capacity_of (first.new ∷ more.new.items) ≤ capacity_of (first.old ∷ more.old.items) }
{
    let count = count.min(first.len());
    let size = take_of(first, count);
    if first.is_empty() {
        take_next(first, more);
    }
    Taken { count, size }
}

/// Takes the first `count` of a segment away, and returns the bytes that they count together.
pub(super) fn take_of(segment: &mut VecDeque<Entry>, count: usize) -> u32
    requires within { count ≤ deque_len segment.old }
    requires fits { counted segment.old.items ≤ greatest_total }
    ensures items { segment.new.items ≡ drop count segment.old.items }
    ensures len { deque_len segment.new + count ≡ deque_len segment.old }
    ensures capacity { deque_capacity segment.new ≡ deque_capacity segment.old }
    ensures counted { result + counted segment.new.items ≡ counted segment.old.items }
{
    if count == segment.len() && count >= MANY {
        let (front, back) = segment.as_slices();
        let size = counted(front) + counted(back);
        segment.clear();
        return size;
    }
    let mut size = 0;
    for _ in 0..count {
        let Some(entry) = segment.pop_front() else {
            unreachable!();
        };
        size += entry.size;
    }
    size
}

/// The bytes that some entries count together.
fn counted(run: &[Entry]) -> u32
    requires { counted run.now ≤ greatest_total }
    ensures { result ≡ counted run.now }
{
    let mut size = 0;
    for entry in run {
        size += entry.size;
    }
    size
}

/// Takes the oldest entry in front away.
#[inline(always)]
pub(super) fn pop_ahead(
    first: &mut VecDeque<Entry>,
    more: &mut VecDeque<VecDeque<Entry>>,
) -> Option<Entry>
    requires front { AreInFront first.old more.old.items }
    requires some { 0 < deque_len first.old }
    ensures items { entries_of (first.old ∷ more.old.items) ≡ option_to_list result ++ entries_of (first.new ∷ more.new.items) }
    ensures some { IsSome result }
    ensures front { AreInFront first.new more.new.items }
    ensures memory { capacity_of (first.new ∷ more.new.items) ≤ capacity_of (first.old ∷ more.old.items) }
{
    let entry = first.pop_front();
    if first.is_empty() {
        take_next(first, more);
    }
    entry
}

/// Puts the next segment in the place of the first, which has given all away and is freed.
// It is rare: apart, a removal saves no registers for it.
#[cold]
#[inline(never)]
fn take_next(first: &mut VecDeque<Entry>, more: &mut VecDeque<VecDeque<Entry>>)
    requires full { AreFull more.old.items }
    requires few { length more.old.items ≤ most_segments }
    requires none { deque_len first.old ≡ 0 }
    ensures items { entries_of (first.new ∷ more.new.items) ≡ entries_of more.old.items }
    ensures front { AreInFront first.new more.new.items }
    ensures memory { capacity_of (first.new ∷ more.new.items) ≤ capacity_of more.old.items }
{
    match more.pop_front() {
        Some(next) => *first = next,
        None => first.shrink_to_fit(),
    }
    if more.is_empty() {
        more.shrink_to_fit();
    }
}
