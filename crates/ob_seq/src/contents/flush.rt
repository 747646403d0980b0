ghost use Rattle.std.specs.Prelude.{◌≡◌, ◌<◌, List, length, true};
ghost use Rattle.ob_types.specs.declared.promise.Outcome.{Outcome};
ghost use Rattle.ob_seq.specs.Steps.Commands.{flush_step, next_flushed, reached_entry};
ghost use Rattle.ob_seq.specs.Steps.Step.{times};
ghost use Rattle.ob_seq.specs.Steps.Within.{StepsWithin, counted_reply};
ghost use Rattle.ob_seq.specs.Unsent.{whole, pending_entry, waiting_count};

use crate::contents::{Contents, word};
use crate::entry::Entry;
use bytes::Bytes;
use ob_types::{Change, Message, Refusal};
use std::mem;

impl Contents {
    /// Puts all unflushed entries into line, and returns how that changed writability.
    #[inline(always)]
    pub fn flush(&mut self) -> Result<Option<Change>, Refusal>
        ensures { StepsWithin flush_step (counted_reply (length self.old.unflushed)) self.old result self.new }
    {
        if self.closed {
            return Err(Refusal::Closed);
        }
        let before = self.word;
        self.flush_all();
        Ok(Change::between(before, self.word))
    }

    /// Puts all unflushed entries into line. It goes over them if a promise was taken back since the last flush.
    fn flush_all(&mut self)
        ensures after { (gone : List Outcome) →
            whole gone self.new ≡ times (length self.old.unflushed) next_flushed (whole gone self.old) }
        ensures as_many { waiting_count self.new ≡ waiting_count self.old }
        ensures room { self.new.room ≡ self.old.room }
        ensures memory { self.new.capacity ≡ self.old.capacity }
    {
        if self.any_taken_back {
            self.flush_one_by_one();
        } else {
            self.flushed = self.entries.len();
        }
    }

    /// The same, one entry after the other.
    // Few promises are taken back: apart, a flush of the others saves no registers.
    #[cold]
    #[inline(never)]
    fn flush_one_by_one(&mut self)
        ensures after { (gone : List Outcome) →
            whole gone self.new ≡ times (length self.old.unflushed) next_flushed (whole gone self.old) }
        ensures room { self.new.room ≡ self.old.room }
        ensures memory { self.new.capacity ≡ self.old.capacity }
    {
        for _ in 0..self.unflushed_count() {
            self.flush_next();
        }
        self.any_taken_back = false;
    }

    /// Puts the first unflushed entry into line: voided if its promise was taken back, and else its promise is fixed
    /// by standing there.
    fn flush_next(&mut self)
        requires { 0 < length self.old.unflushed }
        ensures after { (gone : List Outcome) → whole gone self.new ≡ next_flushed (whole gone self.old) }
        ensures room { self.new.room ≡ self.old.room }
        ensures memory { self.new.capacity ≡ self.old.capacity }
    {
        if self.entries.at(self.flushed).taken_back {
            let size = void(self.entries.at_mut(self.flushed));
            self.total -= size;
            self.word = word::after_fall(self.marks, self.word, size, self.total);
        }
        self.flushed += 1;
    }
}

/// Makes an entry whose promise was taken back an empty block that counts nothing, and returns what it counted.
fn void(entry: &mut Entry) -> u32
    requires { entry.old.taken_back ≡ true }
    ensures size { result ≡ entry.old.size }
    ensures after { pending_entry entry.new ≡ reached_entry true (pending_entry entry.old) }
{
    entry.message = Message::Block(Bytes::new());
    mem::replace(&mut entry.size, 0)
}
