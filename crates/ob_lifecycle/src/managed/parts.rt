//! Messages that are written as several slices.

ghost use Rattle.std.specs.Prelude.{◌≡◌};
ghost use Rattle.ob_types.specs.PendingSize.{pending_size_of};
ghost use Rattle.ob_types.specs.declared.message.Message.TheVariants.{Block};
ghost use Rattle.ob_connection.specs.Obeying.{joined};
ghost use Rattle.ob_lifecycle.specs.Managed.{WritesTo};

use super::ManagedConnection;
use crate::fault::WriteFault;
use ob_connection::{Written, length_of_parts};
use ob_types::{Estimate, Refusal, pending_size_of_length};

impl ManagedConnection {
    /// As `Connection::write_parts`, refused as `write` is, and before anything is copied.
    pub fn write_parts(&mut self, parts: &[&[u8]]) -> Result<Written, WriteFault>
        ensures { WritesTo (λ why. why) (Block (joined parts.now)) self.old result self.new }
    {
        let size = size_of_parts(parts, self.connection.estimate());
        let Some(sum) = self.bytes_with(size) else {
            return Err(self.refuse(size.is_ok()));
        };
        match self.connection.write_parts(parts) {
            Ok(written) => {
                let pending = self.connection.look().total;
                self.tally.accept(sum, u64::from(pending));
                self.strain.changed(written.change);
                Ok(written)
            }
            Err(refusal) => Err(self.strain.refused(WriteFault::Refused(refusal))),
        }
    }
}

/// The bytes that these parts count as one block while it is pending, or `Oversize`.
fn size_of_parts(parts: &[&[u8]], estimate: Estimate) -> Result<u32, Refusal>
    ensures { result ≡ pending_size_of estimate (Block (joined parts.now)) }
{
    match length_of_parts(parts) {
        Some(length) => pending_size_of_length(length as u64, estimate),
        None => Err(Refusal::Oversize),
    }
}
