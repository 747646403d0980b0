//! The entries, and how they lie in memory.

ghost use Rattle.std.specs.Prelude.{◌≡◌, ◌≤◌, ◌<◌, ◌+◌, ◌++◌, ◌∷◌, [], length, take, drop, nat_lt, OnOk, OnErr, IsOk, IsSome, ◌↔◌, slice_index_or};
ghost use Rattle.std.specs.Option.{option_to_list};
ghost use Rattle.std.specs.Borrow.{sem};
ghost use Rattle.ob_seq.specs.Lent.{LendsEntry};
ghost use Rattle.std.specs.VecDeque.{deque_capacity, deque_len};
ghost use Rattle.ob_types.specs.Limits.{greatest_total};
ghost use Rattle.ob_seq.specs.Unsent.{HoldsLittleMore, LeavesRoom, grown_room, ring_room};
ghost use Rattle.ob_seq.specs.Inside.{counted};
ghost use Rattle.ob_seq.specs.Laid.{segment_room};

mod segments;

use crate::entries::segments::{
    SEGMENT, Taken, add_segment, capacity_of, count_of, found_in, pop_ahead, run_in, segment_at,
    take_ahead, take_of, without_memory,
};
use crate::entry::Entry;
use std::alloc::{AllocError, Global};
use std::collections::VecDeque;
use std::marker::Model;
use std::mem;

/// For how many entries a ring has room first.
const FIRST_ROOM: usize = 4;

/// For how many it has room next. Rings of at most as many are moved and freed whole: glibc keeps 1 KiB for the thread that asks
/// next, without a lock.
const SECOND_ROOM: usize = 16;

/// For how many it has room then, before that doubles. A larger ring grows where it lies, which costs as much as to write some ten
/// messages.
const THIRD_ROOM: usize = 32;

/// How many places such a ring leaves when it gives room back. They tell it from one that had few: it grows at once, since as many
/// are likely to come again.
const LEFT_ROOM: usize = 3;

/// Entries, oldest first.
///
/// While few wait they all lie in one ring, the last, which has room for 4, 16, 32, 64 and then 128. Once it is full then, it becomes a
/// segment in front, and so does each further one of 128 entries (8 KiB). So none is moved however many wait, and each segment is
/// freed when its last entry is gone.
///
/// ```text
///     first                   more                  last
///   [   | e | e | .. | e ]  [ e | e | .. | e ] ..  [ e | e |   |   ]
///     pop_front                                         a push
/// ```
#[repr(C)]
#[derive(Debug, Drop)]
pub(crate) struct Entries {
    /// The newest, and all while no segment lies before them.
    last: VecDeque<Entry>,
    /// The oldest, if segments lie before the last: it gives them away. Without any it has no memory.
    first: VecDeque<Entry>,
    /// The segments between them: each has 128 entries.
    more: VecDeque<VecDeque<Entry>>,
}

impl Model for Entries {
    ghost use Rattle.ob_seq.specs.Laid.{Laid};

    ghost Value = { Laid };

    ghost use Rattle.ob_seq.specs.Laid.{laid_of, AreLaid};

    ghost view = { laid_of };

    ghost invariant = { AreLaid };
}

impl Entries {
    /// None. It does not allocate.
    pub fn new(alloc: Global) -> Entries
        ensures items { result.items ≡ [] }
        ensures room { result.room ≡ 0 }
        ensures memory { result.capacity ≡ 0 }
    {
        Entries {
            last: without_memory(alloc),
            first: without_memory(alloc),
            more: VecDeque::new(alloc),
        }
    }

    /// Where they get their memory.
    pub fn allocator(&self) -> &Global {
        self.last.allocator()
    }

    /// How many there are.
    #[tactic(auto, using(crate::proofs::Laid::countable))]
    pub fn len(&self) -> usize
        ensures { result ≡ length self.now.items }
    {
        count_of(&self.first, &self.more) + self.last.len()
    }

    /// How many there may be before memory is taken for one more.
    #[tactic(auto, using(crate::proofs::Laid::countable))]
    pub fn room(&self) -> usize
        ensures { result ≡ self.now.room }
    {
        count_of(&self.first, &self.more) + self.last.capacity()
    }

    /// Whether there may be one more before memory is taken.
    #[inline(always)]
    pub fn has_place(&self) -> bool
        ensures { result ≡ nat_lt (length self.now.items) self.now.room }
    {
        self.last.len() < self.last.capacity()
    }

    /// For how many memory is held: for those for which there is room, and for some in front that are gone.
    pub fn capacity(&self) -> usize
        ensures value { result ≡ self.now.capacity }
        ensures little_more { HoldsLittleMore (length self.now.items) self.now.room self.now.capacity }
    {
        capacity_of(&self.first, &self.more) + self.last.capacity()
    }

    /// The newest; none if the last segment has none yet. No clause says where it lies.
    pub fn newest(&self) -> Option<&Entry> {
        self.last.back()
    }

    /// Makes a place for one more. If that fails, all is as it was.
    #[inline(always)]
    pub fn make_room(&mut self) -> Result<(), AllocError>
        ensures items { self.new.items ≡ self.old.items }
        ensures room { OnOk result (self.new.room ≡ grown_room (length self.old.items) self.old.room) }
        ensures ok { OnOk result (length self.new.items < self.new.room) }
        ensures memory { OnOk result (self.new.capacity + self.old.room ≡ self.old.capacity + self.new.room) }
        ensures err { OnErr result (self.new ≡ self.old) }
        ensures spares { length self.old.items < self.old.room → IsOk result }
    {
        if self.last.len() < self.last.capacity() {
            return Ok(());
        }
        self.grow()
    }

    /// Makes places for 4, 16, 32, 64 or 128 if there are fewer than 128, and else for 128 more. For 32 if 3 were left of as many.
    // It is rare: apart, a write saves no registers for it.
    #[cold]
    #[inline(never)]
    fn grow(&mut self) -> Result<(), AllocError>
        requires { self.old.room ≡ length self.old.items }
        ensures items { self.new.items ≡ self.old.items }
        ensures ok { OnOk result (self.new.room ≡ grown_room (length self.old.items) self.old.room) }
        ensures memory { OnOk result (self.new.capacity + self.old.room ≡ self.old.capacity + self.new.room) }
        ensures err { OnErr result (self.new ≡ self.old) }
    {
        if !self.first.is_empty() {
            add_segment(&mut self.last, &mut self.more)?;
            return Ok(());
        }
        let count = self.last.len();
        if count < SEGMENT {
            return match ring_room(count) {
                room if room > SECOND_ROOM => self.last.reserve_exact(room - count),
                room => move_to(&mut self.last, room),
            };
        }
        let empty = VecDeque::with_capacity(*self.last.allocator(), SEGMENT)?;
        self.first = mem::replace(&mut self.last, empty);
        Ok(())
    }

    /// Adds one behind the others, for which there is a place.
    #[inline(always)]
    pub fn push_back_reserved(&mut self, entry: Entry)
        requires { length self.old.items < self.old.room }
        ensures items { self.new.items ≡ self.old.items ++ entry ∷ [] }
        ensures room { self.new.room ≡ self.old.room }
        ensures memory { self.new.capacity ≡ self.old.capacity }
    {
        self.last.push_back_reserved(entry);
    }

    /// Takes the oldest away.
    #[inline(always)]
    pub fn pop_front(&mut self) -> Option<Entry>
        ensures items { self.old.items ≡ option_to_list result ++ self.new.items }
        ensures variant { IsSome result ↔ (0 < length self.old.items) }
        ensures rest { self.new.items ≡ drop 1 self.old.items }
        ensures room { LeavesRoom 1 self.old.room self.old.capacity self.new.room self.new.capacity }
    {
        if self.first.is_empty() {
            return self.last.pop_front();
        }
        pop_ahead(&mut self.first, &mut self.more)
    }

    /// Takes the first `count` away, and returns the bytes that they count together. It goes over them once, segment by segment.
    pub fn take_first(&mut self, count: usize) -> u32
        requires within { count ≤ length self.old.items }
        requires fits { counted self.old.items ≤ greatest_total }
        ensures items { self.new.items ≡ drop count self.old.items }
        ensures counted { result + counted self.new.items ≡ counted self.old.items }
        ensures room { LeavesRoom count self.old.room self.old.capacity self.new.room self.new.capacity }
    {
        if count == 1 {
            return self.pop_front().map_or(0, |entry| entry.size);
        }
        let mut left = count;
        let mut size = 0;
        while left > 0 {
            let taken = self.take_some(left);
            left -= taken.count;
            size += taken.size;
        }
        size
    }

    /// Takes away those of the first `count` that lie in one segment.
    fn take_some(&mut self, count: usize) -> Taken
        requires some { 0 < count }
        requires within { count ≤ length self.old.items }
        requires fits { counted self.old.items ≤ greatest_total }
        ensures some { 0 < result.count }
        ensures within { result.count ≤ count }
        ensures items { self.new.items ≡ drop result.count self.old.items }
        ensures counted { result.size + counted self.new.items ≡ counted self.old.items }
        ensures room { LeavesRoom result.count self.old.room self.old.capacity self.new.room self.new.capacity }
    {
        if self.first.is_empty() {
            return Taken {
                count,
                size: take_of(&mut self.last, count),
            };
        }
        take_ahead(&mut self.first, &mut self.more, count)
    }

    /// Takes all away, and keeps the last segment.
    pub fn clear(&mut self)
        ensures items { self.new.items ≡ [] }
        ensures room { LeavesRoom (length self.old.items) self.old.room self.old.capacity self.new.room self.new.capacity }
    {
        self.last.clear();
        self.first.clear();
        self.first.shrink_to_fit();
        self.more.clear();
        self.more.shrink_to_fit();
    }

    /// Gives memory back if all lie in the ring, it has room for more than `kept`, and at most an eighth of it is used: all but room
    /// for twice as many as there are, and for `kept` at least.
    #[inline(always)]
    pub fn give_back(&mut self, kept: usize)
        ensures items { self.new.items ≡ self.old.items }
        ensures less { self.new.room ≤ self.old.room }
        ensures memory { self.new.capacity ≤ self.old.capacity }
        ensures none { kept ≡ 0 → length self.old.items ≡ 0 → self.new.room ≡ 0 }
    {
        let room = self.last.capacity();
        if room > kept && self.last.len() <= room / 8 && self.first.is_empty() {
            keep_room(&mut self.last, kept);
        }
    }

    /// Keeps room for what there is and for no more, if all lie in the ring.
    pub fn shrink_to_fit(&mut self)
        ensures items { self.new.items ≡ self.old.items }
        ensures less { self.new.room ≤ self.old.room }
        ensures memory { self.new.capacity ≤ self.old.capacity }
        ensures none { length self.old.items ≡ 0 → self.new.room ≡ 0 }
    {
        if self.first.is_empty() {
            self.last.shrink_to_fit();
        }
    }

    /// The one at this place.
    pub fn at(&self, place: usize) -> &Entry
        requires { place < length self.now.items }
        ensures value { result.now ≡ slice_index_or self.now.items place result.now }
        ensures few { length self.now.items < 18446744073709551616 }
    {
        &self.run_at(place)[0]
    }

    /// The one at this place, to be changed.
    pub fn at_mut(&mut self, place: usize) -> &mut Entry
        requires { place < length self.old.items }
        ensures* writes_back { sem 𝓛 (LendsEntry self.entry place result) }
        ensures value { result.now ≡ slice_index_or self.old.items place result.now }
    {
        let ahead = count_of(&self.first, &self.more);
        if place >= ahead {
            return &mut self.last[place - ahead];
        }
        let (index, rest) = found_in(&self.first, &self.more, place);
        if index == 0 {
            return &mut self.first[rest];
        }
        let segment = &mut self.more[index - 1];
        &mut segment[rest]
    }

    /// Some that lie together from this place on.
    pub fn run_at(&self, place: usize) -> &[Entry]
        requires { place < length self.now.items }
        ensures run { result.now ≡ take (length result.now) (drop place self.now.items) }
        ensures some { 0 < length result.now }
        ensures few { length self.now.items < 18446744073709551616 }
    {
        let ahead = count_of(&self.first, &self.more);
        if place >= ahead {
            return run_in(&self.last, place - ahead);
        }
        let (index, rest) = found_in(&self.first, &self.more, place);
        run_in(segment_at(&self.first, &self.more, index), rest)
    }
}

/// How many places a full ring of `count` has once it grew: 4, 16, 32, 64 or 128, and 32 if it was left by a larger one.
fn ring_room(count: usize) -> usize
    requires { count < segment_room }
    ensures value { result ≡ ring_room count }
    ensures more { count < result }
    ensures few { result ≤ segment_room }
{
    if count == LEFT_ROOM {
        THIRD_ROOM
    } else if count < FIRST_ROOM {
        FIRST_ROOM
    } else if count < SECOND_ROOM {
        SECOND_ROOM
    } else if count < THIRD_ROOM {
        THIRD_ROOM
    } else if count < 2 * THIRD_ROOM {
        2 * THIRD_ROOM
    } else {
        SEGMENT
    }
}

/// Moves entries to a ring with this room. If there is no memory for it, they stay where they are.
fn move_to(ring: &mut VecDeque<Entry>, room: usize) -> Result<(), AllocError>
    requires { deque_len ring.old ≤ room }
    ensures items { OnOk result (ring.new.items ≡ ring.old.items) }
    ensures room { OnOk result (deque_capacity ring.new ≡ room) }
    ensures err { OnErr result (ring.new ≡ ring.old) }
{
    let mut moved = VecDeque::with_capacity(*ring.allocator(), room)?;
    while let Some(entry) = ring.pop_front() {
        moved.push_back_reserved(entry);
    }
    *ring = moved;
    Ok(())
}

/// Keeps room for twice as many as there are, and for `kept` at least. But a ring that is empty goes if it had room for 16, and
/// leaves 3 places at most if it had room for more.
// These stay where they lie: most often it grows there again, and glibc keeps the pages in front of it. It is rare: apart, a
// removal saves no registers for it.
#[cold]
#[inline(never)]
fn keep_room(ring: &mut VecDeque<Entry>, kept: usize)
    ensures items { ring.new.items ≡ ring.old.items }
    ensures len { deque_len ring.new ≡ deque_len ring.old }
    ensures less { deque_capacity ring.new ≤ deque_capacity ring.old }
    ensures none { kept ≡ 0 → deque_len ring.old ≡ 0 → deque_capacity ring.new ≡ 0 }
{
    let count = ring.len();
    if count > 0 {
        ring.shrink_to(count.saturating_mul(2).max(kept));
    } else if ring.capacity() > SECOND_ROOM {
        ring.shrink_to(kept.min(LEFT_ROOM));
    } else {
        *ring = without_memory(*ring.allocator());
    }
}
