//! How a covered connection sends.

ghost use Rattle.std.specs.Prelude.{◌≡◌, IfErr, IfOk, OnErr};
ghost use Rattle.ob_connection.specs.declared.connection.sending.SendFault.TheVariants.{Closed as IsClosed};
ghost use Rattle.ob_connection.specs.Connected.{TakesNoRoom};
ghost use Rattle.ob_connection.specs.Sending.{Asks, EndsSending, Sends, SendsInTurns};
ghost use Rattle.ob_covered.specs.Budgeted.{IsThrifty};
ghost use Rattle.ob_covered.specs.Cover.{Tells};

use super::Budgeted;
use super::settled::settled;
use crate::fault::Told;
use ob_connection::{SendFault, Sent, SentTurns, Socket};

impl Budgeted {
    /// As `Connection::send_once`.
    pub fn send_once<S: Socket>(
        &mut self,
        socket: &mut S,
        max_count: u32,
        max_bytes: u32,
    ) -> Told<Result<Sent, SendFault>>
        ensures sends { IfOk result.answer (λ done.
            Sends max_count max_bytes self.old.connection (S.sent socket.old) done self.new.connection (S.sent socket.new)) }
        ensures asks { Asks max_count max_bytes self.old.connection (S.calls socket.old) result.answer (S.calls socket.new) }
        ensures kept { OnErr result.answer (self.new.connection ≡ self.old.connection) }
        ensures unsent { OnErr result.answer (S.sent socket.new ≡ S.sent socket.old) }
        ensures room { TakesNoRoom self.old.connection self.new.connection }
        ensures told { Tells self.old.cover result.pressure self.new.cover }
        ensures thrifty { IsThrifty self.old self.new }
    {
        self.connection.stands_for_some_commands();
        let answer = self.connection.send_once(socket, max_count, max_bytes);
        settled(&self.connection, &mut self.cover, answer)
    }

    /// As `Connection::send_until_blocked`. The cover is settled once, after the last turn.
    pub fn send_until_blocked<S: Socket>(
        &mut self,
        socket: &mut S,
        max_turns: u32,
        max_bytes: u32,
    ) -> Told<Result<SentTurns, SendFault>>
        ensures sends { IfOk result.answer (λ done.
            SendsInTurns max_turns max_bytes self.old.connection (S.sent socket.old) (S.calls socket.old) done
            self.new.connection (S.sent socket.new) (S.calls socket.new)) }
        ensures kept { OnErr result.answer (self.new.connection ≡ self.old.connection) }
        ensures unsent { OnErr result.answer (S.sent socket.new ≡ S.sent socket.old) }
        ensures unasked { OnErr result.answer (S.calls socket.new ≡ S.calls socket.old) }
        ensures ends { EndsSending self.old.connection result.answer }
        ensures closed { IfErr result.answer (λ fault. fault ≡ IsClosed) }
        ensures room { TakesNoRoom self.old.connection self.new.connection }
        ensures told { Tells self.old.cover result.pressure self.new.cover }
        ensures thrifty { IsThrifty self.old self.new }
    {
        self.connection.stands_for_some_commands();
        let answer = self
            .connection
            .send_until_blocked(socket, max_turns, max_bytes);
        settled(&self.connection, &mut self.cover, answer)
    }
}
