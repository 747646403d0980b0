//! What holds of the answers to every list of commands. These laws speak of definitions, and the calls of a connection
//! return what those give.

ghost use Rattle.std.specs.List.{Contains};
ghost use Rattle.std.specs.Prelude.{◌≡◌, ◌<◌, ◌≤◌, ◌↔◌, List, Some};
ghost use Rattle.ob_types.specs.Limits.{most_writes};
ghost use Rattle.ob_types.specs.declared.command.Command.{Command};
ghost use Rattle.ob_types.specs.declared.promise.Outcome.{Outcome};
ghost use Rattle.ob_types.specs.declared.promise.PromiseId.{PromiseId};
ghost use Rattle.ob_types.specs.declared.promise.PromiseState.TheVariants.{Settled};
ghost use Rattle.ob_seq.specs.Answer.{answer_to};
ghost use Rattle.ob_seq.specs.Looks.{promise_after};
ghost use Rattle.ob_seq.specs.Rows.{Settings};
ghost use Rattle.ob_seq.specs.Pending.{times_settled};
ghost use Rattle.ob_seq.specs.State.{writes_in};
ghost use Rattle.ob_connection.specs.Connected.{accepted_by_connection, answer_of_connection, answer_without_limit};
ghost use Rattle.ob_connection.specs.Connected.{most_ids, settled_by_connection};

/// After fewer than 2^64 - 1 writes each command has the answer that it has without a limit on writes, and after fewer
/// than 1048576 the answer of a buffer.
pub fn the_limit_is_out_of_reach()
    ensures unlimited { (settings : Settings) (commands : List Command) (command : Command) →
        writes_in commands < most_ids
        → answer_of_connection settings commands command ≡ answer_without_limit settings commands command }
    ensures as_a_buffer { (settings : Settings) (commands : List Command) (command : Command) →
        writes_in commands < most_writes
        → answer_of_connection settings commands command ≡ answer_to settings commands command }
{}

/// Whatever commands a new connection is given, no promise is settled twice, and a promise is settled with an outcome
/// exactly if the two stand together among what the answers settle.
pub fn each_promise_is_settled_once_and_told()
    ensures once { (settings : Settings) (commands : List Command) (id : PromiseId) →
        times_settled id (settled_by_connection settings commands) ≤ 1 }
    ensures told { (settings : Settings) (commands : List Command) (id : PromiseId) (outcome : Outcome) →
        promise_after settings (accepted_by_connection settings commands) id ≡ Some (Settled outcome)
        ↔ Contains (settled_by_connection settings commands) (id, outcome) }
{}
