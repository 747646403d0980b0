//! The calls that a transport makes on a booked buffer.

ghost use Rattle.std.specs.Prelude.{◌≡◌, ◌++◌, List, ℕ, length, OnOk};
ghost use Rattle.ob_types.specs.declared.command.Command.TheVariants.{RemoveBytes};
ghost use Rattle.ob_history.specs.History.{IsCall};
ghost use Rattle.ob_transport.specs.Inside.{Given, Readied};
ghost use Rattle.ob_transport.specs.Sent.{sent_bytes_in, unread_in};

use crate::fault::PassFault;
use ob_history::{Booked, Receipt};
use ob_types::{Command, Refusal};

/// Gives a command, and lets its receipt go.
pub fn give<B: Booked>(booked: &mut B, command: Command) -> Result<(), PassFault>
    ensures given { Given (B.caller booked.old) command (B.history booked.old) result (B.history booked.new) }
    ensures caller { B.caller booked.new ≡ B.caller booked.old }
{
    booked.record(command)?;
    Ok(())
}

/// Reserves the two calls that a sending may make.
pub fn make_ready<B: Booked>(booked: &mut B) -> Result<(), PassFault>
    ensures readied { Readied (B.history booked.old) result (B.history booked.new) }
    ensures caller { B.caller booked.new ≡ B.caller booked.old }
{
    booked.reserve(2)?;
    Ok(())
}

/// Books bytes that a sink has taken, and that a pass left unbooked: it records their removal, and returns its receipt.
///
/// `HistoryFull` comes exactly if the history is full, and `NoMemory` only if the allocator refused, and never to a
/// reserved call of a removal that settles at most four promises. Then there is no record, and all is as it was.
pub fn book<B: Booked>(booked: &mut B, taken: u64) -> Result<Receipt, Refusal>
    ensures is_call { IsCall (B.history booked.old) (B.caller booked.old) (RemoveBytes taken) result
        (B.history booked.new) }
    ensures caller { B.caller booked.new ≡ B.caller booked.old }

    // If the line still begins with the taken bytes, they are sent, and nothing else.
    ensures sent { (bytes rest : List ℕ) → length bytes ≡ taken → unread_in (B.history booked.old) ≡ bytes ++ rest
        → OnOk result (sent_bytes_in (B.history booked.new) ≡ sent_bytes_in (B.history booked.old) ++ bytes) }
{
    // That the commands of its history were accepted comes with the buffer.
    let _ = booked.buffer();
    booked.call(Command::RemoveBytes(taken))
}
