//! What holds of every legal history.

ghost use Rattle.std.specs.List.{All, Contains};
ghost use Rattle.std.specs.Prelude.{◌≡◌, ℕ, ◌<◌, ◌≤◌, ◌↔◌, true, List, [], ◌∷◌, ◌++◌, None, Some, map, take};
ghost use Rattle.ob_types.specs.Limits.{greatest_total};
ghost use Rattle.ob_types.specs.declared.command.Command.TheVariants.{RemoveBytes};
ghost use Rattle.ob_types.specs.declared.promise.PromiseState.TheVariants.{Settled};
ghost use Rattle.ob_types.specs.declared.command.Command.{Command};
ghost use Rattle.ob_types.specs.declared.promise.Outcome.{Outcome};
ghost use Rattle.ob_types.specs.declared.promise.PromiseId.{PromiseId};
ghost use Rattle.ob_seq.specs.Answer.{commands_after};
ghost use Rattle.ob_seq.specs.Looks.{promise_after};
ghost use Rattle.ob_seq.specs.Pending.{times_settled};
ghost use Rattle.ob_seq.specs.Rows.{Settings};
ghost use Rattle.ob_seq.specs.State.{writes_in};
ghost use Rattle.ob_history.specs.History.{accepted_commands, is_accepted, IsBeginning, history_after, next_record};
ghost use Rattle.ob_history.specs.History.{glance_after, History, IsBounded, IsLegal, HoldAll, Holding, records_of};
ghost use Rattle.ob_history.specs.History.{IsReceiptIn, record_of, IsSeenIn, seen_now, settlements_in};
ghost use Rattle.ob_history.specs.declared.receipt.Receipt.{Receipt};
ghost use Rattle.ob_history.specs.declared.record.Record.{Record};
ghost use Rattle.ob_history.specs.declared.seen.Seen.{Seen};

use ob_seq::{
    a_promise_is_unknown_past_the_writes, accepted_commands_keep_to_the_limits,
    no_promise_is_settled_twice, the_word_is_the_mark_and_the_user_bits,
};

/// In a legal history each promise stands at most once among the settlements.
pub fn a_history_settles_each_promise_once()
    ensures once { (settings : Settings) (records : List Record) (id : PromiseId) →
        IsLegal settings records → times_settled id (settlements_in records) ≤ 1 }
{
    no_promise_is_settled_twice();
}

/// In a legal history a promise is settled with an outcome exactly if the two stand together among the settlements.
/// It is unknown exactly if its id is not below the number of accepted writes.
pub fn a_history_tells_each_settled_promise()
    ensures told { (settings : Settings) (records : List Record) (id : PromiseId) (outcome : Outcome) →
        IsLegal settings records → promise_after settings (accepted_commands records) id ≡ Some (Settled outcome)
        ↔ Contains (settlements_in records) (id, outcome) }
    ensures unknown { (settings : Settings) (records : List Record) (id : PromiseId) →
        promise_after settings (accepted_commands records) id ≡ None ↔ writes_in (accepted_commands records) ≤ id.0 }
{
    a_promise_is_unknown_past_the_writes();
}

/// A beginning of a legal history is legal.
pub fn a_beginning_of_a_history_is_legal()
    ensures legal { (settings : Settings) (records : List Record) (count : ℕ) →
        IsLegal settings records → IsLegal settings (take count records) }
{}

/// A call keeps a history legal and bounded, and leaves its settings, its limit and its records. The record of one more
/// call adds its command to the accepted ones, if it is accepted.
pub fn a_call_keeps_a_history_legal()
    ensures legal { (history : History) (caller : ℕ) (command : Command) → IsLegal history.settings history.records
        → IsLegal history.settings (history_after history caller command).records }
    ensures bounded { (history : History) (caller : ℕ) (command : Command) →
        IsBounded history → IsBounded (history_after history caller command) }
    ensures settings { (history : History) (caller : ℕ) (command : Command) →
        (history_after history caller command).settings ≡ history.settings }
    ensures limit { (history : History) (caller : ℕ) (command : Command) →
        (history_after history caller command).limit ≡ history.limit }
    ensures begins { (history : History) (caller : ℕ) (command : Command) →
        IsBeginning history.records (history_after history caller command).records }
    ensures accepted { (history : History) (caller : ℕ) (command : Command) →
        accepted_commands (history.records ++ next_record history caller command ∷ [])
        ≡ commands_after history.settings (accepted_commands history.records) command }
{}

/// What is seen now of a history is of it. A receipt and a look that are of a history stay so while records are added.
pub fn what_is_of_a_history_stays_so()
    ensures seen { (history : History) → IsSeenIn history.settings history.records (seen_now history) }
    ensures look { (settings : Settings) (records more : List Record) (look : Seen) →
        IsSeenIn settings records look → IsSeenIn settings (records ++ more) look }
    ensures receipt { (records more : List Record) (receipt : Receipt) →
        IsReceiptIn records receipt → IsReceiptIn (records ++ more) receipt }
{}

/// A legal history keeps to the limits: an accepted removal of n bytes has n at most 4294967295, at most 4294967295
/// bytes are pending, and the word is below 4294967296.
pub fn a_history_keeps_to_the_limits()
    ensures removal { (settings : Settings) (records : List Record) (one : Record) (n : ℕ) → IsLegal settings records
        → Contains records one → is_accepted one ≡ true → one.command ≡ RemoveBytes n → n ≤ greatest_total }
    ensures total { (settings : Settings) (records : List Record) →
        IsLegal settings records → (glance_after settings records).total ≤ greatest_total }
    ensures word { (settings : Settings) (records : List Record) → (glance_after settings records).word < 4294967296 }
{
    accepted_commands_keep_to_the_limits();
    the_word_is_the_mark_and_the_user_bits();
}

/// Where distinct callers hold receipts of their own, and together as many as there are records, each holds the
/// receipts of all its records, in order.
pub fn own_receipts_are_all_records()
    ensures all { (records : List Record) (holdings : List Holding) → HoldAll records holdings
        → All (λ one. map record_of one.receipts ≡ records_of one.caller records) holdings }
{}
