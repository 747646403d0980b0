ghost use Rattle.std.specs.Prelude.{◌≡◌, ◌+◌, ◌<◌, ◌≤◌, List, length, nat_le};
ghost use Rattle.ob_types.specs.Limits.{greatest_progress};
ghost use Rattle.ob_types.specs.declared.promise.Outcome.{Outcome};
ghost use Rattle.ob_seq.specs.Effect.{block_bytes};
ghost use Rattle.ob_seq.specs.Steps.Step.{first_progress, front_changed};
ghost use Rattle.ob_seq.specs.Steps.Commands.{progress_step, progressed_entry, first_length, front_skipped};
ghost use Rattle.ob_seq.specs.Steps.Commands.{skipped_entry};
ghost use Rattle.ob_seq.specs.Steps.Within.{StepsWithin, done_reply};
ghost use Rattle.ob_seq.specs.Unsent.{pending_entries, pending_entry, waiting_count, whole};

use crate::contents::Contents;
use crate::entry::Entry;
use ob_types::{Message, Refusal};

/// The most progress of one message, in bytes: `Long.MAX_VALUE`. Our own limit.
const MAX_PROGRESS: u64 = 9223372036854775807;

impl Contents {
    /// The progress of the front, or 0.
    pub fn current_progress(&self) -> u64
        ensures { result ≡ first_progress (pending_entries self.now.line) }
    {
        if self.flushed == 0 {
            return 0;
        }
        self.entries.at(0).progress
    }

    /// Adds *n* bytes to the progress of the front.
    #[inline(always)]
    pub fn progress(&mut self, n: u64) -> Result<(), Refusal>
        ensures { StepsWithin (progress_step n) done_reply self.old result self.new }
    {
        if self.closed {
            return Err(Refusal::Closed);
        }
        if self.flushed == 0 {
            return Err(Refusal::NothingFlushed);
        }
        if !self.has_progress_left(n) {
            return Err(Refusal::TooFar);
        }
        self.tell_front(n);
        Ok(())
    }

    /// Whether *n* more bytes of progress of the front do not pass the limit.
    fn has_progress_left(&self, n: u64) -> bool
        ensures { result ≡ nat_le (first_progress (pending_entries self.now.line) + n) greatest_progress }
    {
        self.current_progress()
            .checked_add(n)
            .is_some_and(|sum| sum <= MAX_PROGRESS)
    }

    /// Adds *n* bytes to the progress of the front.
    fn tell_front(&mut self, n: u64)
        requires some { 0 < length self.old.line }
        requires fits { first_progress (pending_entries self.old.line) + n ≤ greatest_progress }
        ensures after { (gone : List Outcome) →
            whole gone self.new ≡ front_changed (progressed_entry n) (whole gone self.old) }
        ensures as_many { waiting_count self.new ≡ waiting_count self.old }
        ensures room { self.new.room ≡ self.old.room }
        ensures memory { self.new.capacity ≡ self.old.capacity }
    {
        tell(self.entries.at_mut(0), n);
    }

    /// Skips *n* bytes of the front; 0 of them need no front.
    pub fn skip_in_front(&mut self, n: u64)
        requires { n ≤ first_length (pending_entries self.old.line) }
        ensures after { (gone : List Outcome) → whole gone self.new ≡ front_skipped n (whole gone self.old) }
        ensures room { self.new.room ≡ self.old.room }
        ensures memory { self.new.capacity ≡ self.old.capacity }
    {
        if n > 0 {
            skip(self.entries.at_mut(0), n);
        }
    }
}

/// Adds to the progress of an entry.
fn tell(entry: &mut Entry, n: u64)
    requires { entry.old.progress + n ≤ greatest_progress }
    ensures { pending_entry entry.new ≡ progressed_entry n (pending_entry entry.old) }
{
    entry.progress += n;
}

/// Skips *n* bytes of a block, and adds them to its progress.
fn skip(entry: &mut Entry, n: u64)
    requires { n ≤ length (block_bytes entry.old.message) }
    ensures { pending_entry entry.new ≡ skipped_entry n (pending_entry entry.old) }
{
    if let Message::Block(bytes) = &mut entry.message {
        bytes.advance(n as usize);
    }
    entry.progress = entry.progress.saturating_add(n).min(MAX_PROGRESS);
}
