//! What holds of the answers to every list of commands. These laws speak of definitions, and the calls of a buffer
//! return what those give.

ghost use Rattle.std.specs.Int.{bit_at};
ghost use Rattle.std.specs.List.{All, Contains};
ghost use Rattle.std.specs.Prelude.{◌≡◌, None, Some, ◌+◌, ◌-◌, ◌<◌, ◌≤◌, ◌↔◌, ℕ, List, [], ◌∷◌, ◌++◌, length, true};
ghost use Rattle.ob_types.specs.Limits.{greatest_total, most_writes};
ghost use Rattle.ob_types.specs.Marks.{Marks};
ghost use Rattle.ob_types.specs.declared.command.Command.{Command};
ghost use Rattle.ob_types.specs.declared.command.Command.TheVariants.{RemoveBytes, SetMarks};
ghost use Rattle.ob_types.specs.declared.estimate.Estimate.{Estimate};
ghost use Rattle.ob_types.specs.declared.promise.Outcome.{Outcome};
ghost use Rattle.ob_types.specs.declared.promise.PromiseId.{PromiseId};
ghost use Rattle.ob_types.specs.declared.promise.PromiseState.TheVariants.{Settled};
ghost use Rattle.ob_seq.specs.Answer.{accepted_among, is_accepted, are_accepted, commands_after};
ghost use Rattle.ob_seq.specs.Effect.{rows_after};
ghost use Rattle.ob_seq.specs.Looks.{before_unwritable, before_writable, look_after, promise_after};
ghost use Rattle.ob_seq.specs.Pending.{settled_along, times_settled};
ghost use Rattle.ob_seq.specs.Rows.{FitsItsPlace, StandInOrder, Settings, total};
ghost use Rattle.ob_seq.specs.State.{is_closed, writes_in, mark_after, marks_after, marks_set_by, user_bit, word_after};

/// Whatever commands a new buffer is given, no promise is settled twice, and one that is settled keeps its outcome.
pub fn no_promise_is_settled_twice()
    ensures once { (settings : Settings) (commands : List Command) (id : PromiseId) →
        times_settled id (settled_along settings [] commands) ≤ 1 }
    ensures kept { (settings : Settings) (commands : List Command) (command : Command) (id : PromiseId)
        (outcome : Outcome) → promise_after settings commands id ≡ Some (Settled outcome)
        → promise_after settings (commands_after settings commands command) id ≡ Some (Settled outcome) }
{}

/// Whatever commands a new buffer is given, a promise is settled with an outcome exactly if the two stand together
/// among what the commands settle. The second clause says the same of commands that are all accepted.
pub fn a_settled_promise_is_told()
    ensures told { (settings : Settings) (commands : List Command) (id : PromiseId) (outcome : Outcome) →
        promise_after settings (accepted_among settings commands) id ≡ Some (Settled outcome)
        ↔ Contains (settled_along settings [] commands) (id, outcome) }
    ensures accepted { (settings : Settings) (commands : List Command) (id : PromiseId) (outcome : Outcome) →
        are_accepted settings [] commands ≡ true
        → promise_after settings commands id ≡ Some (Settled outcome)
        ↔ Contains (settled_along settings [] commands) (id, outcome) }
{}

/// Of the commands that a new buffer is given those that are accepted are so without the refused ones too, and settle
/// what all of them do. Of accepted commands none is left out.
pub fn refused_commands_leave_no_trace()
    ensures accepted { (settings : Settings) (commands : List Command) →
        are_accepted settings [] (accepted_among settings commands) ≡ true }
    ensures settled { (settings : Settings) (commands : List Command) →
        settled_along settings [] (accepted_among settings commands) ≡ settled_along settings [] commands }
    ensures all { (settings : Settings) (commands : List Command) →
        are_accepted settings [] commands ≡ true → accepted_among settings commands ≡ commands }
{}

/// After accepted commands a promise is unknown exactly if its id is not below the number of writes among them, and
/// there is one row for each of those.
pub fn a_promise_is_unknown_past_the_writes()
    ensures unknown { (settings : Settings) (commands : List Command) (id : PromiseId) →
        promise_after settings commands id ≡ None ↔ writes_in commands ≤ id.0 }
    ensures rows { (estimate : Estimate) (commands : List Command) →
        length (rows_after estimate commands) ≡ writes_in commands }
{}

/// After accepted commands the rows stand in order: first those that are gone, then those in line, then those
/// that no flush has reached.
pub fn the_rows_stand_in_order()
    ensures order { (estimate : Estimate) (commands : List Command) → StandInOrder (rows_after estimate commands) }
{}

/// After accepted commands the promise of a message that no flush has reached waits or was cancelled, that of a flushed
/// one is fixed, that of a voided one was cancelled, and that of a message that is gone is settled. So once the buffer
/// is closed, each promise that it gave is settled.
pub fn each_promise_fits_the_place_of_its_message()
    ensures fits { (settings : Settings) (commands : List Command) →
        are_accepted settings [] commands ≡ true → All FitsItsPlace (rows_after settings.estimate commands) }
    ensures closed { (settings : Settings) (commands : List Command) (id : PromiseId) →
        are_accepted settings [] commands ≡ true → is_closed commands ≡ true → id.0 < writes_in commands
        → (outcome : Outcome) × (promise_after settings commands id ≡ Some (Settled outcome)) }
{}

/// Bit 0 of the word is the mark, each of bits 1 to 31 the user bit of that index, and no higher bit is set.
pub fn the_word_is_the_mark_and_the_user_bits()
    ensures mark { (settings : Settings) (commands : List Command) →
        bit_at (word_after settings commands) 0 ≡ 1 ↔ mark_after settings commands ≡ true }
    ensures user_bits { (settings : Settings) (commands : List Command) (index : ℕ) → 1 ≤ index → index ≤ 31
        → bit_at (word_after settings commands) index ≡ 1 ↔ user_bit commands index ≡ true }
    ensures no_higher { (settings : Settings) (commands : List Command) → word_after settings commands < 4294967296 }
{}

/// Accepted commands keep to the limits: at most 4294967295 bytes are pending after them, at most 1048576 of them are
/// writes, and a removal of n bytes that is accepted next has n at most 4294967295.
pub fn accepted_commands_keep_to_the_limits()
    ensures total { (settings : Settings) (commands : List Command) →
        are_accepted settings [] commands ≡ true → total (rows_after settings.estimate commands) ≤ greatest_total }
    ensures writes { (settings : Settings) (commands : List Command) →
        are_accepted settings [] commands ≡ true → writes_in commands ≤ most_writes }
    ensures removal { (settings : Settings) (commands : List Command) (n : ℕ) →
        are_accepted settings [] commands ≡ true → is_accepted settings commands (RemoveBytes n) ≡ true
        → n ≤ greatest_total }
{}

/// Marks that are set leave the rows and the word as they are, and are in force then; every command that sets none
/// leaves those in force.
pub fn marks_that_are_set_leave_the_word()
    ensures rows { (estimate : Estimate) (commands : List Command) (marks : Marks) →
        rows_after estimate (commands ++ SetMarks marks ∷ []) ≡ rows_after estimate commands }
    ensures word { (settings : Settings) (commands : List Command) (marks : Marks) →
        word_after settings (commands ++ SetMarks marks ∷ []) ≡ word_after settings commands }
    ensures in_force { (settings : Settings) (commands : List Command) (marks : Marks) →
        marks_after settings (commands ++ SetMarks marks ∷ []) ≡ marks }
    ensures others { (settings : Settings) (commands : List Command) (command : Command) →
        marks_set_by command ≡ None
        → marks_after settings (commands ++ command ∷ []) ≡ marks_after settings commands }
{}

/// The look's `before_unwritable`, if it is not 0, is the least rise that brings the pending bytes above the high
/// mark. The second clause says so of the look after a history, of which the high mark is the one in force at it.
pub fn before_unwritable_is_the_least_rise()
    ensures least { (marks : Marks) (word sum rise : ℕ) → 0 < before_unwritable marks word sum →
        before_unwritable marks word sum ≤ rise ↔ marks.high < sum + rise }
    ensures at_a_look { (settings : Settings) (commands : List Command) (rise : ℕ) →
        0 < (look_after settings commands).before_unwritable
        → (look_after settings commands).before_unwritable ≤ rise
        ↔ (marks_after settings commands).high < (look_after settings commands).total + rise }
{}

/// Under a positive low mark the look's `before_writable`, if it is not 0, is the least fall that brings the pending
/// bytes below the low mark. No buffer has more than 4294967295 of them, so the second clause says the same of the look
/// after accepted commands, of which the low mark is the one in force at it.
pub fn before_writable_is_the_least_fall()
    ensures least { (marks : Marks) (word sum fall : ℕ) → 0 < marks.low → sum ≤ greatest_total
        → 0 < before_writable marks word sum → before_writable marks word sum ≤ fall ↔ sum - fall < marks.low }
    ensures at_a_look { (settings : Settings) (commands : List Command) (fall : ℕ) →
        are_accepted settings [] commands ≡ true → 0 < (marks_after settings commands).low
        → 0 < (look_after settings commands).before_writable
        → (look_after settings commands).before_writable ≤ fall
        ↔ (look_after settings commands).total - fall < (marks_after settings commands).low }
{}
