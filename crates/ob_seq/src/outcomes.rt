//! What has become of the messages that are gone.

ghost use Rattle.std.specs.Prelude.{◌≡◌, ◌++◌, ◌∷◌, ◌+◌, ◌<◌, ◌≤◌, [], length, replicate, slice_index_or, OnOk};
ghost use Rattle.std.specs.List.Sorted.{IsNonDecreasingBy};
ghost use Rattle.ob_types.specs.Limits.{most_writes};
ghost use Rattle.ob_types.specs.declared.promise.Outcome.{Outcome as AnOutcome};
ghost use Rattle.ob_types.specs.declared.promise.Outcome.TheVariants.{Success};
ghost use Rattle.ob_seq.specs.Outcomes.{outcome_at, outcome_before};

use ob_types::Outcome;
use std::alloc::{AllocError, Global};
use std::marker::Model;

/// Messages one after another that ended alike.
#[derive(Clone, Copy, Debug)]
pub struct Run {
    /// The promise of the first.
    pub from: u32,
    /// How each of them ended.
    pub outcome: Outcome,
}

/// The outcomes of the messages that are gone, oldest first.
///
/// A run of messages that ended alike takes one place of 12 bytes, and those that were sent before any other ended
/// otherwise take none: so an outcome costs memory only if it differs from the one before.
#[derive(Debug, Drop)]
pub struct Outcomes {
    /// Each begins after the one before, and the last ends with the newest message. What comes before the first was
    /// sent.
    runs: Vec<Run>,
    /// How many messages are gone.
    count: usize,
}

impl Model for Outcomes {
    ghost use Rattle.ob_seq.specs.Outcomes.{Endings, endings_of, IsOrdered};

    ghost Value = { Endings };

    ghost view = { endings_of };

    ghost invariant = { IsOrdered };
}

impl Outcomes {
    /// None yet. It does not allocate.
    pub fn new(alloc: Global) -> Outcomes
        ensures { result.list ≡ [] }
    {
        Outcomes {
            runs: Vec::new(alloc),
            count: 0,
        }
    }

    /// How many there are.
    pub fn len(&self) -> usize
        ensures { result ≡ length self.now.list }
    {
        self.count
    }

    /// The outcome at this place. It halves the runs until it has the one of this place.
    pub fn at(&self, place: usize) -> Outcome
        requires { place < length self.now.list }
        ensures { (other : AnOutcome) → result ≡ slice_index_or self.now.list place other }
    {
        outcome_at(&self.runs, place)
    }

    /// Takes room for `count` more, whatever they are. If that fails, all is as it was.
    pub fn reserve(&mut self, count: usize) -> Result<(), AllocError>
        ensures list { self.new.list ≡ self.old.list }
        ensures room { self.old.room ≤ self.new.room }
        ensures ok { OnOk result (count ≤ self.new.room) }
    {
        self.runs.reserve(count)
    }

    /// Adds one after the others, for which there is room.
    pub fn push(&mut self, outcome: Outcome)
        requires few { length self.old.list < most_writes }
        requires room { 0 < self.old.room }
        ensures list { self.new.list ≡ self.old.list ++ outcome ∷ [] }
        ensures last { self.new.last ≡ outcome }
        ensures room { self.old.room ≤ self.new.room + 1 }
    {
        if outcome != outcome_before(&self.runs, self.runs.len()) {
            self.runs.push_reserved(Run {
                from: self.count as u32,
                outcome,
            });
        }
        self.count += 1;
    }

    /// Adds as many as `count` of one outcome after the others, for which there is room. It does not go over them.
    pub fn push_all(&mut self, outcome: Outcome, count: usize)
        requires few { length self.old.list + count ≤ most_writes }
        requires room { count ≤ self.old.room }
        ensures list { self.new.list ≡ self.old.list ++ replicate count outcome }
        ensures room { self.old.room ≤ self.new.room + count }
    {
        if count > 0 {
            self.push(outcome);
            self.lengthen(count - 1);
        }
    }

    /// Adds *n* to the last run.
    fn lengthen(&mut self, n: usize)
        requires { length self.old.list + n ≤ most_writes }
        ensures list { self.new.list ≡ self.old.list ++ replicate n self.old.last }
        ensures room { self.new.room ≡ self.old.room }
    {
        self.count += n;
    }
}

/// The outcome of the message at this place, by runs in order.
fn outcome_at(runs: &[Run], place: usize) -> Outcome
    requires { IsNonDecreasingBy (λ run. run.from) runs.now }
    ensures { result ≡ outcome_at runs.now place }
{
    let begun = runs.partition_point(|run| run.from as usize <= place);
    outcome_before(runs, begun)
}

/// The outcome of the last of the first `count` runs.
fn outcome_before(runs: &[Run], count: usize) -> Outcome
    requires { count ≤ length runs.now }
    ensures { result ≡ outcome_before runs.now count Success }
{
    if count == 0 {
        return Outcome::Success;
    }
    runs[count - 1].outcome
}
