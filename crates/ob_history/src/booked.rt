ghost use Rattle.std.specs.Prelude.{◌≡◌, ℕ};
ghost use Rattle.ob_history.specs.History.{IsCall, IsRecording, History, IsReservation, IsBufferOf};

use crate::receipt::Receipt;
use crate::recorded::Recorded;
use ob_seq::Buffer;
use ob_types::{Command, Refusal};

/// A buffer whose calls are recorded, in the hands of one caller.
///
/// One may hold another and do more with each call. One that keeps the receipts allocates for them too, and has a
/// reserve of its own. It keeps a number, which is neither the room of its list nor ever above what the inner one
/// shows, and shows that number as `reserved` of its history. `reserve` raises it once the inner one and the list have
/// both returned Ok; a call that adds a record lowers it; a refused call and a refused reserve leave it. One that lives
/// across locks begins again at 0, since other callers use the inner reserve up.
pub trait Booked {
    /// The history of the buffer, and how many more calls are reserved here.
    ghost history: { Self → History };

    /// Who makes the calls.
    ghost caller: { Self → ℕ };

    /// Gives the buffer one command, records the call, and returns the receipt of the record, as `Recorded::call`.
    fn call(&mut self, command: Command) -> Result<Receipt, Refusal>
        ensures is_call { IsCall (history self.old) (caller self.old) command result (history self.new) }
        ensures caller { caller self.new ≡ caller self.old };

    /// Makes a call whose receipt nobody asks for, as `Recorded::record`. One that keeps receipts keeps this one without a
    /// copy. Our own.
    fn record(&mut self, command: Command) -> Result<(), Refusal>
        ensures is_recording { IsRecording (history self.old) (caller self.old) command result (history self.new) }
        ensures caller { caller self.new ≡ caller self.old }
    {
        self.call(command)?;
        Ok(())
    }

    /// Reserves `count` calls, as `Recorded::reserve`.
    fn reserve(&mut self, count: u32) -> Result<(), Refusal>
        ensures is_reservation { IsReservation (history self.old) count result (history self.new) }
        ensures caller { caller self.new ≡ caller self.old };

    /// The buffer after the accepted commands of the records. It does not allocate.
    fn buffer(&self) -> &Buffer
        ensures { IsBufferOf (history self.now) result.now };
}

/// A recorded buffer, all of whose calls are made in the name of one caller.
#[derive(Debug, Drop)]
pub struct As {
    pub recorded: Recorded,
    pub caller: u32,
}

impl Booked for As {
    ghost history = { λ booked. booked.recorded };

    ghost caller = { λ booked. booked.caller };

    fn call(&mut self, command: Command) -> Result<Receipt, Refusal> {
        self.recorded.call(self.caller, command)
    }

    fn record(&mut self, command: Command) -> Result<(), Refusal> {
        self.recorded.record(self.caller, command)
    }

    fn reserve(&mut self, count: u32) -> Result<(), Refusal> {
        self.recorded.reserve(count)
    }

    fn buffer(&self) -> &Buffer {
        self.recorded.buffer()
    }
}
