ghost use Rattle.std.specs.Prelude.{true};
ghost use Rattle.ob_seq.specs.State.{closed_after};
ghost use Rattle.ob_connection.specs.Connected.{Gives};
ghost use Rattle.ob_patterns.specs.Sending.{Says, IsGivenUp, Serves, Spins, broken};

use crate::next::Next;
use ob_connection::{Connection, Ending, Socket};
use ob_types::Cause;

/// Why messages failed that a broken socket left: the number that patterns give up with.
pub const BROKEN: Cause = Cause(1);

/// Sends at most `turns` times (Netty's write spin count), each time at most 65536 bytes, so that one fast peer does
/// not keep the others waiting. It makes one turn at least, and does not allocate.
///
/// If the socket is broken, the connection is given up for `BROKEN`; what the socket took before that is taken away as
/// sent. A closed connection stays as it is, and its socket is not asked.
pub fn spin<S: Socket>(connection: &mut Connection, socket: &mut S, turns: u32) -> Next
    ensures says { Says connection.new result }
    ensures spins { Spins turns connection.old (S.sent socket.old) (S.calls socket.old) result connection.new
        (S.sent socket.new) (S.calls socket.new) }
{
    let Ok(sent) = connection.send_until_blocked(socket, turns, 65536) else {
        return Next::Closed;
    };
    match sent.ending {
        Ending::Drained => Next::Rest,
        Ending::Blocked => Next::WaitForRoom,
        Ending::TurnsUsed => Next::ComeAgain,
        Ending::OtherInFront => Next::SendFront,
        Ending::Broken(error) => {
            give_up_broken(connection);
            Next::Broken(error)
        }
    }
}

/// Gives a connection up whose socket is broken.
pub fn give_up_broken(connection: &mut Connection)
    ensures closed { Gives connection.new closed_after true }
    ensures given_up { IsGivenUp connection.old broken connection.new }
{
    // so that the contract speaks of some history
    connection.stands_for_some_commands();
    let _failed = connection.give_up(BROKEN);
}

/// A peer whose socket reports its readiness by the edges, as `epoll` does with `EPOLLET`.
pub trait Peer: Socket {
    /// Reads once, and writes and flushes what is to be answered. Returns whether there may be more to read.
    fn answer(&mut self, connection: &mut Connection) -> bool;
}

/// Reads and sends by turns after an event, at most `turns` times. Once sending makes the connection writable it reads
/// again: no event reports bytes that came while nothing was read.
///
/// `ComeAgain` comes if the turns are used up, or if the last one left something to send at once. A closed connection
/// is not read from.
pub fn serve<P: Peer>(connection: &mut Connection, peer: &mut P, turns: u32) -> Next
    ensures says { Says connection.new result }
    ensures serves { Serves turns connection.old (P.sent peer.old) (P.calls peer.old) result connection.new
        (P.sent peer.new) (P.calls peer.new) }
{
    if connection.is_closed() {
        return Next::Closed;
    }
    for _turn in 0..turns {
        let was_stopped = !connection.is_writable();
        let hears_more = !was_stopped && peer.answer(connection);
        let next = spin(connection, peer, 16);
        let reads_again = hears_more || (was_stopped && connection.is_writable());
        let is_over = matches!(next, Next::Closed | Next::Broken(_));
        if is_over || !reads_again {
            return next;
        }
    }
    Next::ComeAgain
}
