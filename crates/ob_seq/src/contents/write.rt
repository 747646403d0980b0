//! A write is asked for and then made: what a caller adds comes between, so that it can fail before any change.

ghost use Rattle.std.specs.Prelude.{◌≡◌, ◌+◌, ◌<◌, ◌≤◌, max, [], List, IfErr, IfOk, IsOk, OnOk, OnErr, Some, true};
ghost use Rattle.ob_types.specs.Limits.{greatest_total};
ghost use Rattle.ob_types.specs.Marks.{change_between};
ghost use Rattle.ob_types.specs.declared.promise.Outcome.{Outcome};
ghost use Rattle.ob_seq.specs.Unsent.{grown_room, room_for_one_more, spares, whole};
ghost use Rattle.ob_seq.specs.Steps.Step.{pending_total};
ghost use Rattle.ob_seq.specs.Steps.Commands.{admitted, has_bytes_left, written};

use crate::contents::{Contents, word};
use crate::entry::Entry;
use crate::newest::Newest;
use ob_types::{Change, Message, Refusal};

/// The most bytes that may be pending. Our own limit.
const MAX_TOTAL: u64 = 4294967295;

impl Contents {
    /// What a message of this size counts, or of none, unless a write of it is refused by anything but lack of memory:
    /// `writes` were accepted before it, and at most `most` are.
    // Its callers are a write and what asks before one: as at `add`.
    #[inline(always)]
    pub fn admits(&self, size: Result<u32, Refusal>, writes: u64, most: u64) -> Result<u32, Refusal>
        ensures { result ≡ admitted (Some most) writes size (whole [] self.now) }
    {
        if self.closed {
            return Err(Refusal::Closed);
        }
        let size = size?;
        if writes >= most || !self.has_bytes_left(size) {
            return Err(Refusal::TooMuch);
        }
        Ok(size)
    }

    /// Whether `size` more bytes are not too many.
    fn has_bytes_left(&self, size: u32) -> bool
        ensures { result ≡ has_bytes_left size (whole [] self.now) }
    {
        u64::from(self.total()) + u64::from(size) <= MAX_TOTAL
    }

    /// Adds a message for which there is room, and returns how that changed writability. The growth comes before any
    /// change: if the allocator refuses it, the message comes back.
    // Else the message goes through memory once more, and is read there by other pieces than it was written in, for which
    // the processor waits: a third of a cycle of write, flush and remove.
    #[inline(always)]
    pub fn add(&mut self, message: Message, size: u32) -> Result<Option<Change>, Message>
        requires fits { pending_total (whole [] self.old) + size ≤ greatest_total }
        ensures ok { OnOk result ((gone : List Outcome) →
            whole gone self.new ≡ written (whole gone self.old) message size) }
        ensures change { IfOk result (λ change. change ≡ change_between self.old.word self.new.word) }
        ensures room { OnOk result (self.new.room ≡ room_for_one_more self.old) }
        ensures memory { OnOk result (self.new.capacity + self.old.room ≡ self.old.capacity + self.new.room) }
        ensures err { OnErr result (self.new ≡ self.old) }
        ensures spares { spares self.old ≡ true → IsOk result }
        ensures returned { IfErr result (λ returned. returned ≡ message) }
    {
        let Ok(()) = self.entries.make_room() else {
            return Err(message);
        };
        // Before the entry, behind which it would be read once more.
        self.total += size;
        self.entries.push_back_reserved(Entry {
            message,
            progress: 0,
            size,
            taken_back: false,
        });
        // Most often the word stays, and no write waits then for that of the one before.
        if !word::can_rise(self.marks, self.total) {
            return Ok(None);
        }
        let before = self.word;
        self.word = word::after_rise(self.marks, before, size, self.total);
        Ok(Change::between(before, self.word))
    }

    /// Notes where the newest entry lies, in its first word, for callers in C and Rust: they have the processor bring what
    /// lies behind it (`ffi/limekeel.h`). It changes nothing else.
    #[inline(always)]
    pub fn note_newest(&mut self)
        ensures { self.new ≡ self.old }
    {
        self.newest = Newest::of(&self.entries);
    }
}
