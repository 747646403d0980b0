//! Messages that are written as bytes.

ghost use Rattle.std.specs.Prelude.{◌≡◌, IfSome, Some, None, Err};
ghost use Rattle.ob_types.specs.declared.command.Command.TheVariants.{Write};
ghost use Rattle.ob_types.specs.declared.message.Message.TheVariants.{Block};
ghost use Rattle.ob_connection.specs.Obeying.{Accepts};
ghost use Rattle.ob_lifecycle.specs.Inside.{FitsIn};
ghost use Rattle.ob_lifecycle.specs.Managed.{Gives, IsNotWritten, WritesTo, fault_of_write};

use super::ManagedConnection;
use crate::fault::WriteFault;
use bytes::Bytes;
use ob_connection::Written;
use ob_types::{Message, Refusal, pending_size_of_block};

impl ManagedConnection {
    /// As `Connection::write_copy`, refused as `write` is, and before anything is copied.
    pub fn write_copy(&mut self, bytes: &[u8]) -> Result<Written, WriteFault>
        ensures { WritesTo (λ why. why) (Block bytes.now) self.old result self.new }
    {
        let Some(sum) = self.bytes_with_block(bytes) else {
            return Err(self.refuse_block(bytes));
        };
        match self.connection.write_copy(bytes) {
            Ok(written) => {
                let pending = self.connection.look().total;
                self.tally.accept(sum, u64::from(pending));
                self.strain.changed(written.change);
                Ok(written)
            }
            Err(refusal) => Err(self.strain.refused(WriteFault::Refused(refusal))),
        }
    }

    /// The bytes of all that was accepted with a block of these bytes, if there is room for it.
    // One that is too large to be counted may have room, and then the connection refuses it.
    #[inline(always)]
    fn bytes_with_block(&self, bytes: &[u8]) -> Option<u64>
        ensures { FitsIn (Block bytes.now) self.now result }
    {
        let size = bytes.len() as u64 + u64::from(self.connection.estimate().overhead);
        let pending = u64::from(self.connection.look().total);
        if self.ending.asked || pending + size > u64::from(self.limits.most_pending) {
            return None;
        }
        self.tally.bytes_with(size)
    }

    /// Refuses a write of a block of these bytes, for which there is no room, and counts that.
    #[cold]
    #[inline(never)]
    fn refuse_block(&mut self, bytes: &[u8]) -> WriteFault
        ensures { FitsIn (Block bytes.now) self.old None → WritesTo (λ why. why) (Block bytes.now) self.old (Err result) self.new }
    {
        let size = pending_size_of_block(bytes, self.connection.estimate());
        self.refuse(size.is_ok())
    }

    /// Writes the bytes of a block, which the message shares: no byte is copied. It is refused as `write_copy` is, and not
    /// shared then; `NoMemory` comes also if the block has more owners than can be counted.
    pub fn write_shared(&mut self, block: &Bytes) -> Result<Written, WriteFault>
        ensures { WritesTo (λ why. why) (Block block.now) self.old result self.new }
    {
        if let Some(why) = self.fault_of_block(block.as_slice()) {
            return Err(self.strain.refused(why));
        }
        let Ok(shared) = block.clone() else {
            return Err(self.strain.refused(WriteFault::Refused(Refusal::NoMemory)));
        };
        match self.write(Message::Block(shared)) {
            Ok(written) => Ok(written),
            Err(not) => Err(not.why),
        }
    }

    /// Why a write of these bytes as a block would be refused now, or nothing if it would be accepted while there is memory.
    /// It copies nothing and does not allocate: ask it before the bytes are copied or shared.
    pub fn fault_of_block(&self, bytes: &[u8]) -> Option<WriteFault>
        ensures first { Gives self.now (fault_of_write (Block bytes.now)) result }
        ensures refused { IfSome result (λ why. IsNotWritten self.now.connection (Block bytes.now) why self.now.connection) }
        ensures accepted { result ≡ None → Accepts self.now.connection (Write (Block bytes.now)) }
        ensures other { ¬ (result ≡ Some (WriteFault.Refused Refusal.NoMemory)) }
    {
        let size = pending_size_of_block(bytes, self.connection.estimate());
        if self.bytes_with(size).is_none() {
            return Some(self.fault_without_room(size.is_ok()));
        }
        match self.connection.refusal_of_block(bytes) {
            None => None,
            Some(refusal) => Some(WriteFault::Refused(refusal)),
        }
    }
}
