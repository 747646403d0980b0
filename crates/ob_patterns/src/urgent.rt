ghost use Rattle.std.specs.Option.{option_copied};
ghost use Rattle.std.specs.Prelude.{◌≡◌, IfNone, IfSome, false, true};
ghost use Rattle.ob_connection.specs.Connected.{Gives};
ghost use Rattle.ob_patterns.specs.Sending.{Says};
ghost use Rattle.ob_patterns.specs.declared.next.Next.TheVariants.{Rest};
ghost use Rattle.ob_patterns.specs.Urgent.{EndsCut, LeavesCut, SaysOfBoth, SendsUrgentFirst};
ghost use Rattle.ob_patterns.specs.Urgent.{cut_after, is_left, next_by, next_of_cut};

use crate::next::Next;
use crate::turns::{give_up_broken, spin};
use ob_connection::{Connection, SendFault, Socket};
use ob_types::Message;

/// Sends two connections over one socket. What is urgent goes before all else, but for the one message of `other` that
/// the socket has taken a part of: its rest goes first. Each connection keeps its own order.
///
/// The rest of such a message is offered once, and alone. Nothing else is sent until the socket has taken all of it.
/// Then `urgent` is sent as `spin` does it, in at most `turns` turns, and `other` after it if `urgent` is at rest.
///
/// `Rest` comes if nothing flushed is left of both. Anything else is said of the connection that stopped, and then
/// nothing was sent after what that one sent. If the socket is broken that one is given up for `BROKEN`: give up the
/// other too.
pub fn send_urgent_first<S: Socket>(
    urgent: &mut Connection,
    other: &mut Connection,
    socket: &mut S,
    turns: u32,
) -> Next
    ensures sends { SendsUrgentFirst turns urgent.old other.old (S.sent socket.old) (S.calls socket.old) result
        urgent.new other.new (S.sent socket.new) (S.calls socket.new) }
    ensures says { SaysOfBoth urgent.new other.new result }
{
    if let Some(next) = send_cut(other, socket) {
        return next;
    }
    let next = spin(urgent, socket, turns);
    if !matches!(next, Next::Rest) {
        return next;
    }
    spin(other, socket, turns)
}

/// Offers the rest of the front if that is cut. It returns what is next if that is not sent whole, and else nothing.
fn send_cut<S: Socket>(connection: &mut Connection, socket: &mut S) -> Option<Next>
    ensures ended { IfNone result (EndsCut connection.old (S.sent socket.old) (S.calls socket.old) connection.new
        (S.sent socket.new) (S.calls socket.new)) }
    ensures left { IfSome result (λ next. LeavesCut connection.old (S.sent socket.old) (S.calls socket.old) next
        connection.new (S.sent socket.new) (S.calls socket.new)) }
    ensures unrest { IfSome result (λ next. ¬ (next ≡ Rest)) }
    ensures says { IfSome result (λ next. Says connection.new next) }
{
    if !is_cut(connection) {
        return None;
    }
    match connection.send_once(socket, 1, 65536) {
        Ok(sent) => next_at_cut(connection, sent.blocked),
        Err(SendFault::Closed) => Some(Next::Closed),
        Err(SendFault::Broken(error)) => {
            give_up_broken(connection);
            Some(Next::Broken(error))
        }
    }
}

/// Whether the socket has taken a part of the front, and not all of it.
fn is_cut(connection: &Connection) -> bool
    ensures { Gives connection.now cut_after result }
{
    let has_rest = has_rest(connection.current());
    connection.look().current_progress > 0 && has_rest
}

/// What is next if the front is still cut, by whether the socket has no room.
fn next_at_cut(connection: &Connection, blocked: bool) -> Option<Next>
    ensures none { IfNone result (Gives connection.now cut_after false) }
    ensures cut { IfSome result (λ _. Gives connection.now cut_after true) }
    ensures next { IfSome result (λ next. Gives connection.now (next_of_cut blocked) next) }
    ensures unrest { IfSome result (λ next. ¬ (next ≡ Rest)) }
    ensures says { IfSome result (λ next. Says connection.now next) }
{
    if is_cut(connection) {
        Some(next_by(connection.current(), blocked))
    } else {
        None
    }
}

/// What is next if this is in front, and cut.
fn next_by(front: Option<&Message>, blocked: bool) -> Next
    ensures next { result ≡ next_by blocked (option_copied front.entry) }
    ensures unrest { ¬ (result ≡ Rest) }
{
    if blocked {
        return Next::WaitForRoom;
    }
    match front {
        Some(Message::Block(_)) => Next::ComeAgain,
        Some(Message::Region(_) | Message::Other(_)) | None => Next::SendFront,
    }
}

/// Whether something is left of the message in front.
fn has_rest(front: Option<&Message>) -> bool
    ensures { result ≡ is_left (option_copied front.entry) }
{
    match front {
        Some(Message::Block(bytes)) => !bytes.is_empty(),
        Some(Message::Region(_) | Message::Other(_)) => true,
        None => false,
    }
}
