//! What a caller that sends does under the lock.

ghost use Rattle.std.specs.Prelude.{◌≡◌, true};
ghost use Rattle.ob_types.specs.declared.command.Command.TheVariants.{RemoveBytes};
ghost use Rattle.ob_shared_connection.specs.Steps.{IsHolder, caller_handle, caller_held};
ghost use Rattle.ob_shared_connection.specs.Sending.{Accepts, Offering, TakesAway};

use crate::caller::Caller;
use crate::commands::TakeSent;
use crate::looks::{Gather, IsClosed, IsEmpty};
use crate::offered::{MOST_PIECES, Offered};
use crate::transport::SendFault;
use ob_connection::Sent;

impl Caller {
    /// What is to be offered to a socket: if nothing is, the empty messages in front are taken away.
    pub fn offer(&mut self, max_count: u32, max_bytes: u32) -> Result<Offered, SendFault>
        requires holds { IsHolder self.old }
        requires sends { (caller_handle self.old).sends ≡ true }
        ensures holds { IsHolder self.new }
        ensures offers { Offering max_count max_bytes result (caller_held self.old) (caller_held self.new) }
    {
        if self.ask(IsClosed) {
            return Err(SendFault::Closed);
        }
        let Ok(blocks) = self.ask(Gather((MOST_PIECES as u32).min(max_count), max_bytes)) else {
            return Err(SendFault::NoMemory);
        };
        if blocks.is_empty() {
            return Ok(Offered::Nothing(self.take_away(0, false)));
        }
        Ok(Offered::Blocks(blocks))
    }

    /// Takes bytes away that a socket took.
    pub fn take_away(&mut self, bytes: u64, blocked: bool) -> Sent
        requires holds { IsHolder self.old }
        requires sends { (caller_handle self.old).sends ≡ true }
        requires accepted { Accepts (caller_held self.old) (RemoveBytes bytes) }
        ensures holds { IsHolder self.new }
        ensures takes { TakesAway result (caller_held self.old) (caller_held self.new) }
        ensures bytes { result.bytes ≡ bytes }
        ensures blocked { result.blocked ≡ blocked }
    {
        let Ok(taken) = self.act(TakeSent(bytes)) else {
            unreachable!()
        };
        let more = !self.ask(IsEmpty);
        Sent {
            bytes,
            blocked,
            taken,
            more,
        }
    }
}
