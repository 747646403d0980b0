ghost use Rattle.std.specs.Prelude.{◌≡◌, List, IfErr, IfOk, OnErr};
ghost use Rattle.ob_types.specs.declared.command.Command.{Command};
ghost use Rattle.ob_seq.specs.Pending.{StandsFor};
ghost use Rattle.ob_transport.specs.Inside.{HasBytes, offer_after, offer_of};

use crate::limits::Limits;
use bytes::Bytes;
use ob_seq::Buffer;
use ob_types::{Cause, Command, Message, Refusal};

/// What a transport has to do next.
#[derive(Drop)]
pub enum Next {
    /// Nothing is flushed.
    Nothing,
    /// To take the front away, of which nothing is left to be sent.
    Clear(Command),
    /// To offer these blocks.
    Blocks(Vec<Bytes>),
    /// To offer *n* units of the region in front.
    Region(u64),
}

/// What there is to do for the front of a buffer. `NoMemory` comes only if there are bytes to be offered.
pub fn next_of(buffer: &Buffer, limits: Limits) -> Result<Next, Refusal>
    ensures offer { IfOk result (λ next. (commands : List Command) → StandsFor buffer.now commands
        → offer_of next ≡ offer_after limits buffer.now.settings commands) }
    ensures fault { IfErr result (λ refusal. refusal ≡ Refusal.NoMemory) }
    ensures no_memory { OnErr result ((commands : List Command) → StandsFor buffer.now commands
        → HasBytes (offer_after limits buffer.now.settings commands)) }
{
    match buffer.current() {
        None => Ok(Next::Nothing),
        Some(Message::Block(_)) => {
            let blocks = buffer.gather(limits.max_count, limits.max_bytes)?;
            if blocks.is_empty() {
                return Ok(Next::Clear(Command::RemoveBytes(0)));
            }
            Ok(Next::Blocks(blocks))
        }
        Some(Message::Region(length)) => {
            let rest = length.saturating_sub(buffer.look().current_progress);
            if rest == 0 {
                return Ok(Next::Clear(Command::Remove));
            }
            Ok(Next::Region(rest))
        }
        Some(Message::Other(_)) => Ok(Next::Clear(Command::RemoveWith(Cause(1)))),
    }
}
