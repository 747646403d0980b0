//! How a managed connection sends.

ghost use Rattle.std.specs.Prelude.{◌≡◌, IfErr, IfOk, OnErr};
ghost use Rattle.ob_connection.specs.declared.connection.sending.SendFault.TheVariants.{Closed as IsClosed};
ghost use Rattle.ob_connection.specs.Connected.{TakesNoRoom};
ghost use Rattle.ob_connection.specs.Sending.{Asks, EndsSending, Sends, SendsInTurns};
ghost use Rattle.ob_lifecycle.specs.Events.{sending_happens};
ghost use Rattle.ob_lifecycle.specs.Managed.{Brings};

use super::ManagedConnection;
use crate::changes;
use crate::fault::Told;
use ob_connection::{SendFault, Sent, SentTurns, Socket};

impl ManagedConnection {
    /// As `Connection::send_once`. A fault of a sending is no refusal: it is counted nowhere.
    pub fn send_once<S: Socket>(
        &mut self,
        socket: &mut S,
        max_count: u32,
        max_bytes: u32,
    ) -> Told<Result<Sent, SendFault>>
        ensures sends { IfOk result.answer (λ done.
            Sends max_count max_bytes self.old.connection (S.sent socket.old) done self.new.connection (S.sent socket.new)) }
        ensures asks { Asks max_count max_bytes self.old.connection (S.calls socket.old) result.answer (S.calls socket.new) }
        ensures kept { OnErr result.answer (self.new.connection ≡ self.old.connection) }
        ensures unsent { OnErr result.answer (S.sent socket.new ≡ S.sent socket.old) }
        ensures room { TakesNoRoom self.old.connection self.new.connection }
        ensures brings { Brings self.old (sending_happens (λ done. done.bytes) result.answer) result.finished self.new }
    {
        let answer = self.connection.send_once(socket, max_count, max_bytes);
        let bytes = bytes_of_once(&answer);
        if answer.is_err() {
            return Told {
                answer,
                finished: false,
            };
        }
        self.ending
            .watch
            .after(true, bytes, self.connection.is_empty());
        self.strain.changed(changes::of_once(&answer));
        let finished = self.ending.reach(self.connection.waiting_count());
        Told { answer, finished }
    }

    /// As `Connection::send_until_blocked`, and a fault is counted nowhere.
    pub fn send_until_blocked<S: Socket>(
        &mut self,
        socket: &mut S,
        max_turns: u32,
        max_bytes: u32,
    ) -> Told<Result<SentTurns, SendFault>>
        ensures sends { IfOk result.answer (λ done.
            SendsInTurns max_turns max_bytes self.old.connection (S.sent socket.old) (S.calls socket.old) done
            self.new.connection (S.sent socket.new) (S.calls socket.new)) }
        ensures kept { OnErr result.answer (self.new.connection ≡ self.old.connection) }
        ensures unsent { OnErr result.answer (S.sent socket.new ≡ S.sent socket.old) }
        ensures unasked { OnErr result.answer (S.calls socket.new ≡ S.calls socket.old) }
        ensures ends { EndsSending self.old.connection result.answer }
        ensures closed { IfErr result.answer (λ fault. fault ≡ IsClosed) }
        ensures room { TakesNoRoom self.old.connection self.new.connection }
        ensures brings { Brings self.old (sending_happens (λ done. done.bytes) result.answer) result.finished self.new }
    {
        let answer = self
            .connection
            .send_until_blocked(socket, max_turns, max_bytes);
        let bytes = bytes_of_turns(&answer);
        if answer.is_err() {
            return Told {
                answer,
                finished: false,
            };
        }
        self.ending
            .watch
            .after(true, bytes, self.connection.is_empty());
        self.strain.changed(changes::of_turns(&answer));
        let finished = self.ending.reach(self.connection.waiting_count());
        Told { answer, finished }
    }
}

/// How many bytes a sending at once sent.
fn bytes_of_once(answer: &Result<Sent, SendFault>) -> u64
    ensures { IfOk answer.now (λ done. result ≡ done.bytes) }
{
    match answer {
        Ok(done) => done.bytes,
        Err(_fault) => 0,
    }
}

/// How many bytes a sending in turns sent.
fn bytes_of_turns(answer: &Result<SentTurns, SendFault>) -> u64
    ensures { IfOk answer.now (λ done. result ≡ done.bytes) }
{
    match answer {
        Ok(done) => done.bytes,
        Err(_fault) => 0,
    }
}
