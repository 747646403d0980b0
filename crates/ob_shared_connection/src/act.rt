ghost use Rattle.std.specs.Prelude.{◌≡◌, List, IfErr, IsOk, OnErr, OnOk, Result, Some, ℕ};
ghost use Rattle.ob_types.specs.declared.command.Command.{Command};
ghost use Rattle.ob_connection.specs.Connected.{Connected};
ghost use Rattle.ob_shared_connection.specs.Calls.{Continues};
ghost use Rattle.ob_shared_connection.specs.Values.{Adds, FitsIn, PassesRoom};

use ob_connection::Connection;

/// What a handle does to a connection under the lock, in one call.
pub trait Act {
    /// What an accepted call returns.
    type Answer;

    /// What a refused one returns.
    type Fault;

    /// The commands that it puts behind the list if it is accepted.
    ghost commands: { Self → List Command };

    /// What it does to a connection, as the sequential call promises it.
    ghost does: { Self → Connected → Result Self.Answer Self.Fault → Connected → Type 0 };

    /// Whether it was refused since the seat of a connection within a budget does not hold what it writes.
    ghost uncovered: { Self.Fault → Type 0 };

    /// The bytes that a seat has to hold for it beside those that are pending: those that it writes, if the connection
    /// accepts it while there is memory; else none.
    fn adds(&self, connection: &Connection) -> u64
        ensures { Adds connection.now (commands self.now) result };

    /// Makes it. Of a connection within a budget no more bytes are pending then than its seat holds, which is `room`: a
    /// write that would pass that is uncovered.
    fn act(
        self,
        connection: &mut Connection,
        room: Option<u64>,
    ) -> Result<Self::Answer, Self::Fault>
        ensures does { does self connection.old result connection.new }
        ensures goes_on { OnOk result (Continues connection.old (commands self) connection.new) }
        ensures refused { OnErr result (connection.new ≡ connection.old) }
        ensures lacks { IfErr result (λ fault. uncovered fault → PassesRoom connection.old (commands self) room) }
        ensures fits { (bytes : ℕ) → room ≡ Some bytes → IsOk result → FitsIn connection.old (commands self) bytes };
}
