//! How a connection sends.

ghost use Rattle.std.specs.Prelude.{◌≡◌, false, IfOk, IfErr, OnErr};
ghost use Rattle.ob_connection.specs.declared.connection.sending.SendFault.TheVariants.{Closed as IsClosed};
ghost use Rattle.ob_connection.specs.Inside.{answer_of, bytes_taken};
ghost use Rattle.ob_connection.specs.Sending.{Asks, EndsSending, sent_or_fault, Sends, SendsInTurns};
ghost use Rattle.ob_connection.specs.Connected.{TakesNoRoom};

use crate::connection::Connection;
use crate::connection::offer::Offer;
use crate::replies::{SentTurns, Taken};
use crate::socket::Socket;
use ob_types::Outcome;
use std::io;
use thiserror::Error;

/// What a connection sent at once.
#[must_use]
#[derive(Clone, Copy, Debug, PartialEq, Eq)]
pub struct Sent {
    /// How many bytes the socket took: 0 if it has no room now, or if there was nothing to send.
    pub bytes: u64,
    /// Whether the socket was asked and has no room now: it took nothing. Send again when it is ready.
    pub blocked: bool,
    /// Which messages are gone by that, and how it changed writability.
    pub taken: Taken,
    /// Whether a flushed message is left. If nothing was sent and the socket is not blocked, that in front is no block,
    /// or `max_count` was 0.
    pub more: bool,
}

/// Why a connection sent nothing. It is as it was.
#[derive(Clone, Copy, Debug, Error)]
pub enum SendFault {
    /// The connection is closed.
    #[error("the connection is closed")]
    Closed,
    /// The socket is broken, with its own error, and took nothing.
    #[error("the socket is broken: {0}")]
    Broken(io::Error),
}

impl Connection {
    /// Offers a socket once the flushed blocks in front, as `gather_into` gives them, and takes away what it took: the
    /// messages that are sent whole, empty and voided ones along with the others. At most 1024 blocks are offered at
    /// once, whatever `max_count` is; what is left is for the next call. It never runs out of memory.
    ///
    /// If nothing is gathered the socket is not asked, and the empty messages in front are taken away all the same. A
    /// region or any other message in front is the caller's to send: then `more` is set and nothing was sent.
    ///
    /// `Closed` comes if the connection is closed, and `Broken` if the socket failed for good; each leaves the connection as
    /// it was, and nothing was sent. Our own.
    pub fn send_once<S: Socket>(
        &mut self,
        socket: &mut S,
        max_count: u32,
        max_bytes: u32,
    ) -> Result<Sent, SendFault>
        ensures sends { IfOk result (λ done.
            Sends max_count max_bytes self.old (S.sent socket.old) done self.new (S.sent socket.new)) }
        ensures asks { Asks max_count max_bytes self.old (S.calls socket.old) result (S.calls socket.new) }
        ensures kept { OnErr result (self.new ≡ self.old) }
        ensures unsent { OnErr result (S.sent socket.new ≡ S.sent socket.old) }
        ensures room { TakesNoRoom self.old self.new }
    {
        if self.is_closed() {
            return Err(SendFault::Closed);
        }
        let offer = self.offer(socket, max_count, max_bytes);
        let bytes = taken_of(offer)?;
        // What was written is of what stands in front, so an open connection takes it away.
        self.stands_for_some_commands();
        let Ok(taken) = self.take_sent(bytes) else {
            unreachable!();
        };
        Ok(Sent {
            bytes,
            blocked: offer.is_blocked(),
            taken,
            more: !self.is_empty(),
        })
    }
}

impl Connection {
    /// Offers a socket the flushed blocks in front, turn by turn as `send_once` does, until no flushed message is left, a
    /// region or any other message is in front, the socket takes nothing more, or `max_turns` turns were made; one turn
    /// is made at least. A turn offers at most 1024 blocks, and together at most `max_bytes` bytes, but the first however
    /// long it is. It never runs out of memory.
    ///
    /// What the turns took away is reported as one interval, and the change of writability once, over all of them. A
    /// socket that takes less than it was offered is asked again, since some take a few pieces a call: it is blocked
    /// once it takes nothing. If it breaks, what it took before is reported along with that, and the messages that it
    /// took whole are gone; empty messages in front are taken away then too, since all before them was sent.
    ///
    /// `Closed` comes if the connection is closed, and no other fault does; then nothing was sent. Our own.
    pub fn send_until_blocked<S: Socket>(
        &mut self,
        socket: &mut S,
        max_turns: u32,
        max_bytes: u32,
    ) -> Result<SentTurns, SendFault>
        ensures sends { IfOk result (λ done.
            SendsInTurns max_turns max_bytes self.old (S.sent socket.old) (S.calls socket.old) done self.new
            (S.sent socket.new) (S.calls socket.new)) }
        ensures kept { OnErr result (self.new ≡ self.old) }
        ensures unsent { OnErr result (S.sent socket.new ≡ S.sent socket.old) }
        ensures unasked { OnErr result (S.calls socket.new ≡ S.calls socket.old) }
        ensures ends { EndsSending self.old result }
        ensures closed { IfErr result (λ fault. fault ≡ IsClosed) }
        ensures room { TakesNoRoom self.old self.new }
    {
        if self.is_closed() {
            return Err(SendFault::Closed);
        }
        self.stands_for_some_commands();
        let (before, from) = (self.contents.word(), self.gone);
        let (mut bytes, mut ending) = self.send_turn(socket, max_bytes);
        for _ in 1..max_turns {
            if !ending.goes_on() {
                break;
            }
            let (more, after) = self.send_turn(socket, max_bytes);
            bytes += more;
            ending = after;
        }
        Ok(SentTurns {
            bytes,
            taken: self.taken_since(before, from, Outcome::Success),
            ending,
        })
    }
}

/// How many bytes a socket took that is not broken.
fn taken_of(offer: Offer) -> Result<u64, SendFault>
    ensures taken { IfOk result (λ bytes. bytes ≡ bytes_taken offer) }
    ensures none { OnErr result (bytes_taken offer ≡ 0) }
    ensures told { result ≡ sent_or_fault false (answer_of offer) }
{
    match offer {
        Offer::Took(bytes) => Ok(bytes),
        Offer::Nothing | Offer::Blocked => Ok(0),
        Offer::Broken(error) => Err(SendFault::Broken(error)),
    }
}
