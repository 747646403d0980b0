ghost use Rattle.std.specs.Prelude.{◌≡◌, ◌≤◌, [], length};
ghost use Rattle.ob_types.specs.Limits.{greatest_overhead, greatest_unknown};
ghost use Rattle.ob_seq.specs.Inside.{unsent_of, IsSound};
ghost use Rattle.ob_seq.specs.Steps.Step.{pending_total};
ghost use Rattle.ob_seq.specs.Unsent.{HoldsLittleMore, Unsent, nothing_unsent, spares, whole, waiting_count};

mod cut;
mod flush;
pub(crate) mod front;
mod gather;
mod gather_into;
mod give_back;
mod marks;
mod promises;
mod seen;
mod take;
pub(crate) mod word;
mod write;

use crate::entries::Entries;
use crate::newest::Newest;
pub use cut::Cut;
use ob_types::{Estimate, WaterMark};
use std::alloc::Global;
use std::marker::Model;
pub use take::Front;

/// What waits to be sent, each message with its promise. What is gone is no part of it, so no call keeps an id: each
/// does what the step of a buffer does, whatever outcomes are gone. A command is refused as that of `Buffer` is, as
/// `Closed` first, and a refusal changes nothing.
///
/// No call goes over entries that it neither takes away, voids nor hands out, but for the one where it ends: the bytes
/// that are pending are kept as they change, a flush moves the end of the line behind the last entry, and a removal
/// takes the first of them away. A flush looks at each entry that it reaches only if one of them may be voided.
///
/// ```text
///   taken away       in line: flushed             no flush has reached these
///     from here   0 .. flushed - 1             flushed .. entries.len() - 1
///               [ front |   |   |   ]          [   |   |   |   newest ]  <- a write adds here
///                 |  the first message:          |  the next flush goes from here
///                 |  `current`, `progress`       |  to the end (Netty's `unflushedEntry`)
///                    (Netty's `flushedEntry`)
/// ```
///
/// There is no gap: a voided entry stays in line, as an empty block that counts nothing, until it is taken away.
#[repr(C)]
#[derive(Debug, Drop)]
pub struct Contents {
    /// First, so that callers in C and Rust find it.
    newest: Newest,
    /// The marks of the opening. No call reads them: contracts judge a history by what its buffer was opened with.
    opened: WaterMark,
    /// The marks in force, by which the next moment and each look go.
    marks: WaterMark,
    estimate: Estimate,
    /// What stands in line, and behind it what no flush has reached, each oldest first.
    entries: Entries,
    /// How many of the entries stand in line.
    flushed: usize,
    /// The bytes that the entries count together.
    total: u32,
    word: u32,
    closed: bool,
    /// Whether a promise was taken back since the last flush. If none was, a flush goes over no entry.
    any_taken_back: bool,
}

impl Model for Contents {
    ghost Value = { Unsent };

    ghost view = { unsent_of };

    ghost invariant = { IsSound };
}

impl Contents {
    /// Nothing yet. It does not allocate.
    pub fn new(alloc: Global, marks: WaterMark, estimate: Estimate) -> Contents
        requires overhead { estimate.overhead ≤ greatest_overhead }
        requires unknown { estimate.unknown ≤ greatest_unknown }
        ensures { result ≡ nothing_unsent (record { marks = marks; estimate = estimate }) }
    {
        let entries = Entries::new(alloc);
        Contents {
            newest: Newest::of(&entries),
            opened: marks,
            marks,
            estimate,
            entries,
            flushed: 0,
            total: 0,
            word: 0,
            closed: false,
            any_taken_back: false,
        }
    }

    /// How many entries stand in line.
    pub fn line_count(&self) -> usize
        ensures { result ≡ length self.now.line }
    {
        self.flushed
    }

    /// How many entries no flush has reached.
    pub fn unflushed_count(&self) -> usize
        ensures { result ≡ length self.now.unflushed }
    {
        self.entries.len() - self.flushed
    }

    /// How many entries there are.
    pub fn count(&self) -> usize
        ensures { result ≡ waiting_count self.now }
    {
        self.entries.len()
    }

    /// For how many entries there is room.
    pub fn room(&self) -> usize
        ensures { result ≡ self.now.room }
    {
        self.entries.room()
    }

    /// Whether there is a place for one more entry.
    #[inline(always)]
    pub fn has_place(&self) -> bool
        ensures { result ≡ spares self.now }
    {
        self.entries.has_place()
    }

    /// For how many entries memory is held, of 64 bytes each: for those for which there is room, and for 128 more at most, since
    /// the places of entries that are gone stay in front of those that share a segment with them. If nothing waits it is for
    /// no more than there is room for. The list of the segments is not counted.
    pub fn capacity(&self) -> usize
        ensures value { result ≡ self.now.capacity }
        ensures little_more { HoldsLittleMore (waiting_count self.now) self.now.room self.now.capacity }
    {
        self.entries.capacity()
    }

    /// The bytes that are pending.
    pub fn total(&self) -> u32
        ensures { result ≡ pending_total (whole [] self.now) }
    {
        self.total
    }

    /// Bit 0 is the mark, bit i the user bit i.
    pub fn word(&self) -> u32
        ensures { result ≡ self.now.word }
    {
        self.word
    }

    /// By what messages are counted.
    pub fn estimate(&self) -> Estimate
        ensures { result ≡ self.now.settings.estimate }
    {
        self.estimate
    }

    /// Whether it is closed, so that each command is refused.
    pub fn is_closed(&self) -> bool
        ensures { result ≡ self.now.closed }
    {
        self.closed
    }

    /// Where the settlements of a reply get their memory. No clause sees an allocator.
    pub(crate) fn allocator(&self) -> Global {
        *self.entries.allocator()
    }

    /// The marks in force.
    pub fn marks(&self) -> WaterMark
        ensures { result ≡ self.now.marks }
    {
        self.marks
    }
}
