//! How a connection of tasks sends.

ghost use Rattle.std.specs.Prelude.{◌≡◌, IfErr, IfOk, OnErr};
ghost use Rattle.ob_connection.specs.declared.connection.sending.SendFault.TheVariants.{Closed as IsClosed};
ghost use Rattle.ob_connection.specs.Connected.{TakesNoRoom};
ghost use Rattle.ob_connection.specs.Sending.{Asks, EndsSending, Sends, SendsInTurns};
ghost use Rattle.ob_async.specs.Waiting.{WakesJust};

use super::{TaskConnection, wake};
use ob_connection::{SendFault, Sent, SentTurns, Socket};

impl TaskConnection {
    /// As `Connection::send_once`.
    pub fn send_once<S: Socket>(
        &mut self,
        socket: &mut S,
        max_count: u32,
        max_bytes: u32,
    ) -> Result<Sent, SendFault>
        ensures sends { IfOk result (λ done.
            Sends max_count max_bytes self.old.connection (S.sent socket.old) done self.new.connection (S.sent socket.new)) }
        ensures asks { Asks max_count max_bytes self.old.connection (S.calls socket.old) result (S.calls socket.new) }
        ensures kept { OnErr result (self.new.connection ≡ self.old.connection) }
        ensures unsent { OnErr result (S.sent socket.new ≡ S.sent socket.old) }
        ensures room { TakesNoRoom self.old.connection self.new.connection }
        ensures wakes { WakesJust self.old self.new }
    {
        let answer = self.connection.send_once(socket, max_count, max_bytes);
        wake(&self.connection, &mut self.writers, &mut self.sender);
        answer
    }

    /// As `Connection::send_until_blocked`. Whoever may go on is woken once, after the last turn.
    pub fn send_until_blocked<S: Socket>(
        &mut self,
        socket: &mut S,
        max_turns: u32,
        max_bytes: u32,
    ) -> Result<SentTurns, SendFault>
        ensures sends { IfOk result (λ done.
            SendsInTurns max_turns max_bytes self.old.connection (S.sent socket.old) (S.calls socket.old) done
            self.new.connection (S.sent socket.new) (S.calls socket.new)) }
        ensures kept { OnErr result (self.new.connection ≡ self.old.connection) }
        ensures unsent { OnErr result (S.sent socket.new ≡ S.sent socket.old) }
        ensures unasked { OnErr result (S.calls socket.new ≡ S.calls socket.old) }
        ensures ends { EndsSending self.old.connection result }
        ensures closed { IfErr result (λ fault. fault ≡ IsClosed) }
        ensures room { TakesNoRoom self.old.connection self.new.connection }
        ensures wakes { WakesJust self.old self.new }
    {
        let answer = self
            .connection
            .send_until_blocked(socket, max_turns, max_bytes);
        wake(&self.connection, &mut self.writers, &mut self.sender);
        answer
    }
}
