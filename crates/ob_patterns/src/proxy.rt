ghost use Rattle.std.specs.Prelude.{◌≡◌, ◌↔◌, IfErr, IfOk, IsTrue, OnErr, OnOk, Some};
ghost use Rattle.ob_types.specs.declared.message.Message.TheVariants.{Block};
ghost use Rattle.ob_types.specs.declared.reply.Change.TheVariants.{Writable};
ghost use Rattle.ob_connection.specs.Connected.{Gives};
ghost use Rattle.ob_seq.specs.State.{writable_after};
ghost use Rattle.ob_patterns.specs.Writing.{Adds, RefusesWrite, written_and_flushed};

use bytes::Bytes;
use ob_connection::{Connection, Refused, Sent};
use ob_types::{Change, Message};

/// Hands what came from one side to the other, and returns whether to read from the first side further.
///
/// If the other side refuses the bytes, they come back in the error, and that side is as it was.
pub fn forward(to: &mut Connection, bytes: Bytes) -> Result<bool, Refused>
    ensures reads { IfOk result (λ reads. Gives to.new writable_after reads) }
    ensures handed { OnOk result (Adds to.old (written_and_flushed (Block bytes)) to.new) }
    ensures refused { OnErr result (to.new ≡ to.old) }
    ensures returned { IfErr result (λ refused. refused.message ≡ Block bytes) }
    ensures refusal { IfErr result (λ refused. RefusesWrite to.old (Block bytes) refused.refusal) }
{
    let _written = to.write(Message::Block(bytes))?;
    // what accepted a write accepts a flush
    let _flushed = to.flush();
    Ok(to.is_writable())
}

/// Whether the other side sent enough that the first side is to be read again: at once, if readiness is reported by its
/// edges.
pub fn forwarded(sent: &Sent) -> bool
    ensures { IsTrue result ↔ (sent.now.taken.change ≡ Some Writable) }
{
    sent.taken.change == Some(Change::Writable)
}
