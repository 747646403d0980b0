//! Booked buffers that keep the receipts of their calls, or want memory at times.

ghost use Rattle.std.specs.Prelude.{◌<◌, IsTrue};

use ob_history::{As, Booked, Receipt};
use ob_players::buffers::Kept;
use ob_seq::Buffer;
use ob_types::{Command, Refusal, Reply};

/// A booked buffer, and the receipts of all calls that were made with it.
#[derive(Drop)]
pub struct Keeping<B> {
    pub booked: B,
    pub receipts: Vec<Receipt>,
}

impl<B> Keeping<B> {
    pub fn into_parts(self) -> (B, Vec<Receipt>) {
        (self.booked, self.receipts)
    }
}

impl<B: Booked> Booked for Keeping<B> {
    ghost history = { λ keeping. B.history keeping.booked };

    ghost caller = { λ keeping. B.caller keeping.booked };

    /// A receipt that cannot be kept is missing at the end.
    fn call(&mut self, command: Command) -> Result<Receipt, Refusal> {
        let receipt = self.booked.call(command)?;
        keep(&mut self.receipts, &receipt);
        Ok(receipt)
    }

    fn reserve(&mut self, count: u32) -> Result<(), Refusal> {
        self.booked.reserve(count)
    }

    fn buffer(&self) -> &Buffer {
        self.booked.buffer()
    }
}

impl<B: Booked> Kept for Keeping<B> {
    fn give(&mut self, command: Command) -> Result<Reply, Refusal> {
        self.call(command)?.reply
    }

    fn buffer(&self) -> &Buffer {
        Booked::buffer(self)
    }
}

fn keep(receipts: &mut Vec<Receipt>, receipt: &Receipt) {
    if let Ok(copy) = receipt.copy().or_else(|_| receipt.copy()) {
        let _ = receipts.push(copy);
    }
}

/// A booked buffer that allocates for the first call after a reserve, if that settles more than four promises.
#[derive(Drop)]
pub struct Scarce {
    pub booked: As,
    /// Whether calls were reserved, and none was made since.
    pub is_ready: bool,
    ghost reserved: { IsTrue is_ready → 0 < booked.recorded.reserved },
}

impl Booked for Scarce {
    ghost history = { λ scarce. scarce.booked.recorded };

    ghost caller = { λ scarce. scarce.booked.caller };

    fn call(&mut self, command: Command) -> Result<Receipt, Refusal> {
        let is_ready = self.is_ready;
        self.is_ready = false;
        if is_ready && self.booked.buffer().settles(&command) > 4 {
            return Err(Refusal::NoMemory);
        }
        self.booked.call(command)
    }

    fn reserve(&mut self, count: u32) -> Result<(), Refusal> {
        self.booked.reserve(count)?;
        self.is_ready = count > 0;
        Ok(())
    }

    fn buffer(&self) -> &Buffer {
        self.booked.buffer()
    }
}
