ghost use Rattle.std.specs.List.{All, Contains, find};
ghost use Rattle.std.specs.Option.{MatchOption, option_copied};
ghost use Rattle.std.specs.Prelude.{◌≡◌, false, true, IfSome, IsNone, Some, slice_get};
ghost use Rattle.ob_types.specs.declared.promise.Outcome.{Outcome};
ghost use Rattle.ob_types.specs.declared.promise.PromiseState.TheVariants.{Settled};
ghost use Rattle.ob_seq.specs.Looks.{promise_after};
ghost use Rattle.ob_seq.specs.Pending.{settled_by};
ghost use Rattle.ob_history.specs.History.{accepted_commands, settles};

use crate::record::Record;
use crate::recorded::Recorded;
use ob_types::PromiseId;

impl Recorded {
    /// The record that settles a promise, or nothing if no record of the history does. There is one whenever the buffer
    /// says that the promise is settled, and the record says the same outcome. It does not allocate.
    pub fn settling(&self, id: PromiseId) -> Option<&Record>
        ensures settles { IfSome result (λ one. settles id one.now ≡ true) }
        ensures there { IfSome result (λ one. slice_get self.now.records one.now.place ≡ Some one.now) }
        ensures none { IsNone result → All (λ one. settles id one ≡ false) self.now.records }
        ensures told { (outcome : Outcome) →
            promise_after self.now.settings (accepted_commands self.now.records) id ≡ Some (Settled outcome)
            → MatchOption result ⊥ (λ one. Contains (settled_by one.now.reply) (id, outcome)) }
    {
        first_settling(&self.records, id)
    }
}

/// The first record that settles a promise.
fn first_settling(records: &[Record], id: PromiseId) -> Option<&Record>
    ensures { option_copied result ≡ find (settles id) records.now }
{
    records.iter().find(|one| settles(one, id))
}

/// Whether a promise stands among the settlements of a record's reply.
fn settles(one: &Record, id: PromiseId) -> bool
    ensures { result ≡ settles id one.now }
{
    match &one.reply {
        Ok(reply) => reply
            .settled
            .as_slice()
            .iter()
            .any(|(settled, _)| *settled == id),
        Err(_) => false,
    }
}
