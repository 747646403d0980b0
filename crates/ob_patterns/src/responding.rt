ghost use Rattle.std.specs.Prelude.{◌≡◌, IfErr, IfOk, OnErr};
ghost use Rattle.ob_types.specs.declared.message.Message.TheVariants.{Block};
ghost use Rattle.ob_connection.specs.Connected.{Connected};
ghost use Rattle.ob_patterns.specs.Writing.{Adds, RefusesWrite, written_and_flushed};
ghost use Rattle.ob_patterns.specs.Sending.{Says, Spins};

use crate::next::Next;
use crate::turns::spin;
use bytes::Bytes;
use ob_connection::{Connection, Refused, Socket};
use ob_types::Message;

/// Writes an answer, sends what the socket takes, and returns what to do next.
///
/// The refusals are those of `write`, and the answer comes back; each leaves the connection as it was, and the socket is
/// not asked.
pub fn respond<S: Socket>(
    connection: &mut Connection,
    socket: &mut S,
    answer: Bytes,
) -> Result<Next, Refused>
    ensures responds { IfOk result (λ next. (ready : Connected)
        × Adds connection.old (written_and_flushed (Block answer)) ready
        × Spins 16 ready (S.sent socket.old) (S.calls socket.old) next connection.new (S.sent socket.new)
        (S.calls socket.new)) }
    ensures says { IfOk result (λ next. Says connection.new next) }
    ensures refused { OnErr result (connection.new ≡ connection.old) }
    ensures returned { IfErr result (λ refused. refused.message ≡ Block answer) }
    ensures refusal { IfErr result (λ refused. RefusesWrite connection.old (Block answer) refused.refusal) }
    ensures unasked { OnErr result (socket.new ≡ socket.old) }
{
    let _written = connection.write(Message::Block(answer))?;
    // what accepted a write accepts a flush
    let _flushed = connection.flush();
    Ok(spin(connection, socket, 16))
}
