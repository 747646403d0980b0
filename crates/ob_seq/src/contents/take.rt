ghost use Rattle.std.specs.Prelude.{◌≡◌, ◌<◌, ◌≤◌, ◌+◌, ◌++◌, ◌∷◌, [], not, List, length, map, drop, if◌then◌else◌};
ghost use Rattle.std.specs.Prelude.{IsErrOf, OnErr};
ghost use Rattle.ob_types.specs.declared.promise.Cause.{Cause};
ghost use Rattle.ob_types.specs.declared.promise.Outcome.{Outcome as AnOutcome};
ghost use Rattle.ob_types.specs.declared.promise.Outcome.TheVariants.{Cancelled, Failed};
ghost use Rattle.ob_seq.specs.Answer.{told_by};
ghost use Rattle.ob_seq.specs.Steps.Step.{is_first_voided, Makes};
ghost use Rattle.ob_seq.specs.Steps.Commands.{closed_pending, first_length, front_taken, removal_step};
ghost use Rattle.ob_seq.specs.Steps.Within.{TakesCut, TakesFirst, front_endings, front_reply};
ghost use Rattle.ob_seq.specs.Unsent.{LeavesRoom, ended, pending_entries, waiting_count, whole};

use crate::contents::{Contents, Cut, word};
use ob_types::{Change, Outcome, Refusal};

/// The front that a removal took away.
#[derive(Clone, Copy, Debug)]
pub struct Front {
    /// Whether its promise is settled by that: it is unless the message was voided, and else it ended as cancelled.
    pub settles: bool,
    /// How that changed writability.
    pub change: Option<Change>,
}

impl Front {
    /// How it ended, if it left with this outcome.
    pub(crate) fn ending(self, outcome: Outcome) -> Outcome
        ensures { result ≡ (if self.settles then outcome else Cancelled) }
    {
        if self.settles {
            outcome
        } else {
            Outcome::Cancelled
        }
    }
}

impl Contents {
    /// Takes the front away with notice, if there is one, whatever the outcome is that it leaves with.
    #[inline(always)]
    pub fn remove(&mut self) -> Result<Option<Front>, Refusal>
        ensures makes { (gone : List AnOutcome) (outcome : AnOutcome) → Makes (whole gone self.old)
            (removal_step outcome (whole gone self.old)) (told_by (front_reply (length gone) outcome) result)
            (whole (gone ++ front_endings outcome result) self.new) }
        ensures fewer { waiting_count self.old ≡ waiting_count self.new + length (front_endings Cancelled result) }
        ensures frugal { ¬ IsErrOf result Refusal.NoMemory }
        ensures refused { OnErr result (self.new ≡ self.old) }
        ensures room { LeavesRoom (length (front_endings Cancelled result)) self.old.room self.old.capacity self.new.room self.new.capacity }
    {
        if self.closed {
            return Err(Refusal::Closed);
        }
        if self.flushed == 0 {
            return Ok(None);
        }
        let before = self.word;
        let settles = self.take_front(true);
        Ok(Some(Front {
            settles,
            change: Change::between(before, self.word),
        }))
    }

    /// Takes the front away, and returns whether its promise is settled by that: it is unless the entry was voided, and
    /// else it ended as cancelled. Without notice the word stays.
    pub fn take_front(&mut self, notice: bool) -> bool
        requires { 0 < length self.old.line }
        ensures settles { result ≡ not (is_first_voided (pending_entries self.old.line)) }
        ensures taken { (gone : List AnOutcome) (outcome : AnOutcome) →
            whole (gone ++ (if result then outcome else Cancelled) ∷ []) self.new
            ≡ front_taken notice outcome (whole gone self.old) }
        ensures fewer { waiting_count self.old ≡ waiting_count self.new + 1 }
        ensures room { LeavesRoom 1 self.old.room self.old.capacity self.new.room self.new.capacity }
    {
        let Some(entry) = self.entries.pop_front() else {
            return false;
        };
        self.flushed -= 1;
        self.total -= entry.size;
        self.word = word::after_removal(self.marks, self.word, entry.size, self.total, notice);
        !entry.taken_back
    }

    /// Takes the first `count` in line away. Without notice the word stays.
    // The total and the word are told at the end. What falls in steps turns the word as at once, since the last step ends lowest.
    pub fn take_first(&mut self, count: usize, notice: bool)
        requires { count ≤ length self.old.line }
        ensures { TakesFirst count notice self.old self.new }
    {
        let fallen = self.entries.take_first(count);
        self.flushed -= count;
        self.total -= fallen;
        self.word = word::after_removal(self.marks, self.word, fallen, self.total, notice);
    }

    /// Takes away what a removal of bytes does that ends there.
    pub fn take_cut(&mut self, cut: Cut)
        requires whole { cut.whole ≤ length self.old.line }
        requires rest { cut.rest ≤ first_length (drop cut.whole (pending_entries self.old.line)) }
        ensures { TakesCut cut self.old self.new }
    {
        self.take_first(cut.whole, true);
        self.skip_in_front(cut.rest);
    }

    /// Takes all entries away, and closes; nothing stands in line.
    pub fn shut(&mut self)
        requires { length self.old.line ≡ 0 }
        ensures none { waiting_count self.new ≡ 0 }
        ensures closed { (gone : List AnOutcome) (cause : Cause) →
            whole (gone ++ map (ended (Failed cause)) self.old.unflushed) self.new
            ≡ closed_pending cause (whole gone self.old) }
        ensures room { LeavesRoom (waiting_count self.old) self.old.room self.old.capacity self.new.room self.new.capacity }
    {
        self.entries.clear();
        self.total = 0;
        self.closed = true;
    }
}
