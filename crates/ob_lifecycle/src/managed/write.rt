ghost use Rattle.std.specs.Prelude.{◌≡◌, IfErr, Err, None, is_ok};
ghost use Rattle.ob_types.specs.PendingSize.{pending_size_of};
ghost use Rattle.ob_types.specs.declared.message.Message.{Message};
ghost use Rattle.ob_lifecycle.specs.Inside.{FitsIn, IsRefusedAs};
ghost use Rattle.ob_lifecycle.specs.Managed.{WritesTo};

use super::ManagedConnection;
use crate::fault::{NotWritten, WriteFault};
use ob_connection::Written;
use ob_types::{Message, Refusal, pending_size};

impl ManagedConnection {
    /// As `Connection::write`, but `Finishing` comes after `Closed` once the end was asked for, and `Full` after
    /// `Oversize`, and before anything is allocated, if more bytes would be pending than the cap allows, or more than
    /// 2^64 - 1 bytes or messages would have been accepted in all. Each refusal leaves everything as it was, and the
    /// message comes back.
    #[inline(always)]
    pub fn write(&mut self, message: Message) -> Result<Written, NotWritten>
        ensures writes { WritesTo (λ not. not.why) message self.old result self.new }
        ensures returned { IfErr result (λ not. not.message ≡ message) }
    {
        let size = pending_size(&message, self.connection.estimate());
        let Some(bytes) = self.bytes_with(size) else {
            let why = self.refuse(size.is_ok());
            return Err(NotWritten { why, message });
        };
        match self.connection.write(message) {
            Ok(written) => {
                let pending = self.connection.look().total;
                self.tally.accept(bytes, u64::from(pending));
                self.strain.changed(written.change);
                Ok(written)
            }
            Err(refused) => Err(NotWritten {
                why: self.strain.refused(WriteFault::Refused(refused.refusal)),
                message: refused.message,
            }),
        }
    }

    /// The bytes of all that was accepted with a message of this size, if there is room for it.
    #[inline(always)]
    pub(super) fn bytes_with(&self, size: Result<u32, Refusal>) -> Option<u64>
        ensures { (message : Message) → size ≡ pending_size_of self.now.connection.unsent.settings.estimate message
            → FitsIn message self.now result }
    {
        let Ok(size) = size else {
            return None;
        };
        let pending = u64::from(self.connection.look().total);
        let size = u64::from(size);
        if self.ending.asked || pending + size > u64::from(self.limits.most_pending) {
            return None;
        }
        self.tally.bytes_with(size)
    }

    /// Refuses a write of a message for which there is no room, by whether it can be counted, and counts that.
    #[cold]
    #[inline(never)]
    pub(super) fn refuse(&mut self, is_counted: bool) -> WriteFault
        ensures { (message : Message) → is_counted ≡ is_ok (pending_size_of self.old.connection.unsent.settings.estimate message)
            → FitsIn message self.old None → WritesTo (λ why. why) message self.old (Err result) self.new }
    {
        let why = self.fault_without_room(is_counted);
        self.strain.refused(why)
    }

    /// Why a write of a message is refused for which there is no room, by whether it can be counted.
    pub(super) fn fault_without_room(&self, is_counted: bool) -> WriteFault
        ensures { (message : Message) → is_counted ≡ is_ok (pending_size_of self.now.connection.unsent.settings.estimate message)
            → FitsIn message self.now None → IsRefusedAs message self.now result }
    {
        if self.connection.is_closed() {
            WriteFault::Refused(Refusal::Closed)
        } else if self.ending.asked {
            WriteFault::Finishing
        } else if is_counted {
            WriteFault::Full
        } else {
            WriteFault::Refused(Refusal::Oversize)
        }
    }
}
