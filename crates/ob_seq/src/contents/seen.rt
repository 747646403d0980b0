//! The looks at what waits.

ghost use Rattle.std.specs.Prelude.{◌≡◌, ◌<◌, ◌≤◌, not, length, take, count_by, slice_index_or, slice_get, option_map};
ghost use Rattle.std.specs.Option.{option_copied};
ghost use Rattle.ob_seq.specs.Looks.{PendingEntry, messages_to_send};
ghost use Rattle.ob_seq.specs.Unsent.{all_entries, pending_entries, waiting_count};

use crate::contents::Contents;
use crate::flushed::Flushed;
use crate::walk::Walk;
use ob_types::Message;

impl Contents {
    /// Whether the promise of the entry at this place was taken back.
    pub(crate) fn is_taken_back(&self, place: usize) -> bool
        requires { place < waiting_count self.now }
        ensures { (other : PendingEntry) → result ≡ (slice_index_or (all_entries self.now) place other).voided }
    {
        self.entries.at(place).taken_back
    }

    /// How many of the first `count` promises were not taken back.
    pub(crate) fn to_settle_count(&self, count: usize) -> usize
        requires { count ≤ waiting_count self.now }
        ensures { result ≡ count_by (λ entry. not entry.voided) (take count (all_entries self.now)) }
    {
        not_back(Walk::over(&self.entries, count))
    }

    /// What is left of the first entry in line.
    pub fn current(&self) -> Option<&Message>
        ensures { option_copied result ≡ option_map (λ entry. entry.message) (slice_get (pending_entries self.now.line) 0) }
    {
        if self.flushed == 0 {
            return None;
        }
        Some(&self.entries.at(0).message)
    }

    /// What is left of each flushed message that was not voided, oldest first.
    pub fn to_send(&self) -> Flushed<'_>
        ensures { result ≡ messages_to_send (pending_entries self.now.line) }
    {
        Flushed::new(Walk::over(&self.entries, self.flushed))
    }
}

/// How many of these entries have a promise that was not taken back.
fn not_back(entries: Walk<'_>) -> usize
    requires { length entries < 18446744073709551616 }
    ensures { result ≡ count_by (λ entry. not entry.taken_back) entries.entry }
{
    let mut count = 0;
    for entry in entries {
        if !entry.taken_back {
            count += 1;
        }
    }
    count
}
