//! How a transport sends in turns.

ghost use Rattle.std.specs.Prelude.{◌≡◌, List, [], ◌∷◌, ◌++◌};
ghost use Rattle.ob_connection.specs.declared.connection.sending.Sent.{Sent};
ghost use Rattle.ob_shared_connection.specs.Sending.{EndsWith, Reports, SendsInTurns, ended_by};

use crate::offered::MOST_PIECES;
use crate::transport::{SendFault, Transport};
use ob_connection::{Ending, Sent, SentTurns, Socket, Taken};
use std::sync::Wait;

impl Transport {
    /// Sends turn by turn as `send_once` does, each with a lock of its own, until no flushed message is left, a region or
    /// any other message is in front, the socket takes nothing more or is broken, there is no memory for the list of the
    /// blocks, or `max_turns` turns were made; one turn is made at least. What other handles flush meanwhile is sent too.
    ///
    /// The bytes and the messages of all turns are added up, to 2^64 - 1 at most, and the first change of writability is
    /// reported: later ones may have changed it again, as `Handle::glance` tells. A fault comes only of the first turn; if
    /// a later one finds the socket broken, that is how it ended, and what the socket took before is gone.
    pub fn send_until_blocked<R: Wait, S: Socket>(
        &mut self,
        rt: &R,
        socket: &mut S,
        max_turns: u32,
        max_bytes: u32,
    ) -> Result<SentTurns, SendFault>
        ensures { SendsInTurns max_turns max_bytes self.old (S.sent socket.old, S.calls socket.old) result self.new
            (S.sent socket.new, S.calls socket.new) }
    {
        let mut total = match self.send_once(rt, socket, MOST_PIECES as u32, max_bytes) {
            Ok(sent) => first(sent),
            Err(fault) => return Err(fault),
        };
        'turns: for turn in 0..max_turns.saturating_sub(1) {
            if !total.ending.goes_on() {
                return Ok(total);
            }
            match self.send_once(rt, socket, MOST_PIECES as u32, max_bytes) {
                Ok(sent) => total = added(total, sent),
                Err(fault) => return Ok(stopped(total, fault)),
            }
        }
        Ok(total)
    }
}

/// The first turn.
fn first(sent: Sent) -> SentTurns
    ensures reports { Reports (sent ∷ []) sent sent result }
    ensures ends { EndsWith sent result.ending }
{
    SentTurns {
        bytes: sent.bytes,
        taken: sent.taken,
        ending: ending(&sent),
    }
}

/// One more turn.
fn added(total: SentTurns, sent: Sent) -> SentTurns
    ensures reports { (turns : List Sent) (first last : Sent) → Reports turns first last total
        → Reports (turns ++ sent ∷ []) first sent result }
    ensures ends { EndsWith sent result.ending }
{
    SentTurns {
        bytes: total.bytes.saturating_add(sent.bytes),
        taken: Taken {
            count: total.taken.count.saturating_add(sent.taken.count),
            change: total.taken.change.or(sent.taken.change),
            from: total.taken.from,
            to: sent.taken.to,
            outcome: sent.taken.outcome,
        },
        ending: ending(&sent),
    }
}

/// The end by a turn that sent nothing.
fn stopped(total: SentTurns, fault: SendFault) -> SentTurns
    ensures { result ≡ record total { ending = ended_by fault } }
{
    let ending = match fault {
        SendFault::Closed => Ending::Drained,
        SendFault::Broken(error) => Ending::Broken(error),
        SendFault::NoMemory => Ending::TurnsUsed,
    };
    SentTurns { ending, ..total }
}

/// How it ends if no turn comes after this one.
fn ending(sent: &Sent) -> Ending
    ensures { EndsWith sent.now result }
{
    if !sent.more {
        Ending::Drained
    } else if sent.blocked {
        Ending::Blocked
    } else if sent.bytes == 0 {
        Ending::OtherInFront
    } else {
        Ending::TurnsUsed
    }
}
