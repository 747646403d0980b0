ghost use Rattle.std.specs.Prelude.{◌≡◌, ◌<◌, ◌≤◌, ◌⊎◌, true, false, IfSome, IfNone};
ghost use Rattle.ob_seq.specs.State.{closed_after, writable_after};
ghost use Rattle.ob_connection.specs.Obeying.{GivesUp};
ghost use Rattle.ob_connection.specs.Connected.{Gives};
ghost use Rattle.ob_patterns.specs.Sending.{too_slow};

use ob_connection::{Connection, Taken};
use ob_types::Cause;

/// Why messages failed whose peer was unwritable for too long. Contracts call it `too_slow`.
pub const TOO_SLOW: Cause = Cause(2);

/// Gives a connection up that is unwritable for longer than a peer may take, and returns which messages failed, for
/// `TOO_SLOW`. Both times are in one unit, as milliseconds. It returns nothing, and leaves the connection as it was, if
/// that is writable, was not stopped for longer than `most`, or is closed.
pub fn give_up_if_slow(connection: &mut Connection, stopped_for: u64, most: u64) -> Option<Taken>
    ensures given_up { IfSome result (λ taken. GivesUp connection.old too_slow taken connection.new) }
    ensures only_slow { IfSome result (λ _. Gives connection.old writable_after false) }
    ensures only_late { IfSome result (λ _. most < stopped_for) }
    ensures kept { IfNone result (connection.new ≡ connection.old) }
    ensures why { IfNone result ((Gives connection.old writable_after true ⊎ (stopped_for ≤ most))
        ⊎ Gives connection.old closed_after true) }
{
    if connection.is_writable() || stopped_for <= most {
        return None;
    }
    connection.give_up(TOO_SLOW).ok()
}
