ghost use Rattle.std.specs.Prelude.{◌≡◌, ◌+◌, ◌<◌, ◌≤◌, List, length, take, IfOk, IsErrOf, IsOk, OnErr};
ghost use Rattle.ob_types.specs.Limits.{inline_settlements, most_writes};
ghost use Rattle.ob_types.specs.declared.promise.Outcome.{Outcome};
ghost use Rattle.ob_types.specs.declared.promise.Outcome.TheVariants.{Cancelled};
ghost use Rattle.ob_types.specs.declared.promise.PromiseState.TheVariants.{Settled};
ghost use Rattle.ob_seq.specs.Answer.{told_by};
ghost use Rattle.ob_seq.specs.Steps.Commands.{cancel_step, entry_settlements};
ghost use Rattle.ob_seq.specs.Steps.Step.{promise_set, state_at, Makes};
ghost use Rattle.ob_seq.specs.Steps.Within.{cancelled_reply};
ghost use Rattle.ob_seq.specs.Unsent.{all_entries, whole, waiting_count};

use crate::contents::Contents;
use ob_types::{Outcome, PromiseId, PromiseState, Refusal, Settlements};
use std::alloc::AllocError;

impl Contents {
    /// The state of the promise of the entry at this place.
    pub fn state_at(&self, place: usize) -> PromiseState
        requires { place < waiting_count self.now }
        ensures { (gone : List Outcome) → result ≡ state_at (whole gone self.now) (length gone + place) }
    {
        if self.entries.at(place).taken_back {
            return PromiseState::Settled(Outcome::Cancelled);
        }
        if place < self.flushed {
            PromiseState::Fixed
        } else {
            PromiseState::Waiting
        }
    }

    /// What the first `count` entries settle when they leave with this outcome, if `first` messages are gone: each promise
    /// that was not taken back. The first four need no allocation.
    pub(crate) fn settlements(
        &self,
        first: usize,
        count: usize,
        outcome: Outcome,
    ) -> Result<Settlements, AllocError>
        requires some { count ≤ waiting_count self.now }
        requires few { first + count ≤ most_writes }
        ensures value { IfOk result
            (λ settled. settled ≡ entry_settlements outcome first (take count (all_entries self.now))) }
        ensures frugal { length (entry_settlements outcome first (take count (all_entries self.now)))
            ≤ inline_settlements → IsOk result }
    {
        let most = self.to_settle_count(count) as u32;
        let mut settled = Settlements::with_room(self.allocator(), most)?;
        for place in 0..count {
            if !self.is_taken_back(place) {
                settled.push(PromiseId((first + place) as u32), outcome)?;
            }
        }
        Ok(settled)
    }

    /// Takes the promise with this id back, and returns whether that came in time, if `first` messages are gone.
    #[inline(always)]
    pub fn cancel(&mut self, id: u64, first: u64) -> Result<bool, Refusal>
        ensures makes { (gone : List Outcome) → length gone ≡ first → Makes (whole gone self.old)
            (cancel_step id (whole gone self.old)) (told_by (cancelled_reply id (whole gone self.old).promises) result)
            (whole gone self.new) }
        ensures as_many { waiting_count self.new ≡ waiting_count self.old }
        ensures frugal { ¬ IsErrOf result Refusal.NoMemory }
        ensures refused { OnErr result (self.new ≡ self.old) }
        ensures room { self.new.room ≡ self.old.room }
        ensures memory { self.new.capacity ≡ self.old.capacity }
    {
        if self.closed {
            return Err(Refusal::Closed);
        }
        if id < first {
            return Ok(false);
        }
        let place = id - first;
        if place >= self.entries.len() as u64 {
            return Err(Refusal::UnknownPromise);
        }
        let waits = self.state_at(place as usize).is_waiting();
        if waits {
            self.take_back(place as usize);
        }
        Ok(waits)
    }

    /// Takes the promise of the entry at this place back, which no flush has reached.
    fn take_back(&mut self, place: usize)
        requires behind { length self.old.line ≤ place }
        requires some { place < waiting_count self.old }
        ensures after { (gone : List Outcome) →
            whole gone self.new ≡ promise_set (length gone + place) (Settled Cancelled) (whole gone self.old) }
        ensures room { self.new.room ≡ self.old.room }
        ensures memory { self.new.capacity ≡ self.old.capacity }
    {
        self.entries.at_mut(place).taken_back = true;
        self.any_taken_back = true;
    }
}
