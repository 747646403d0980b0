//! Writes of messages that are made for them, and writes with the flush behind them, as acts.
ghost use Rattle.std.specs.Prelude.{[], ◌∷◌};
ghost use Rattle.ob_types.specs.declared.command.Command.TheVariants as command;
ghost use Rattle.ob_types.specs.declared.message.Message.TheVariants.{Block};
ghost use Rattle.ob_connection.specs.Obeying.{joined};
ghost use Rattle.ob_shared_connection.specs.Calls.{IsOpen, ComesBackUncovered, Flushing, IsUncovered, Putting};
ghost use Rattle.ob_shared_connection.specs.Calls.{ThenFlushes, Writing};

use crate::act::Act;
use crate::commands::Write;
use crate::lacking::{
    bytes_added, bytes_added_by, bytes_added_by_parts, room_lacks, room_lacks_block,
    room_lacks_parts,
};
use crate::not_written::{NotWritten, WriteFault};
use crate::written::WrittenAndFlushed;
use ob_connection::{Connection, Flushed, Written};
use ob_types::Message;

/// A write of a message, which is let go if it is refused.
#[derive(Drop)]
pub struct Put(pub Message);

impl Act for Put {
    type Answer = Written;

    type Fault = WriteFault;

    ghost commands = { λ act. command.Write act.0 ∷ [] };

    ghost does = { λ act. Putting act.0 };

    ghost uncovered = { IsUncovered };

    fn adds(&self, connection: &Connection) -> u64 {
        bytes_added(connection, &self.0)
    }

    fn act(self, connection: &mut Connection, room: Option<u64>) -> Result<Written, WriteFault> {
        if room_lacks(connection, &self.0, room) {
            return Err(WriteFault::Uncovered);
        }
        match connection.write(self.0) {
            Ok(written) => Ok(written),
            Err(refused) => Err(WriteFault::Refused(refused.refusal)),
        }
    }
}

/// A write of a copy of these bytes, as `Connection::write_copy`.
#[derive(Drop)]
pub struct WriteCopy<'b>(pub &'b [u8]);

impl<'b> Act for WriteCopy<'b> {
    type Answer = Written;

    type Fault = WriteFault;

    ghost commands = { λ act. command.Write (Block act.0.now) ∷ [] };

    ghost does = { λ act. Putting (Block act.0.now) };

    ghost uncovered = { IsUncovered };

    fn adds(&self, connection: &Connection) -> u64 {
        bytes_added_by(connection, self.0.len())
    }

    fn act(self, connection: &mut Connection, room: Option<u64>) -> Result<Written, WriteFault> {
        if room_lacks_block(connection, self.0.len(), room) {
            return Err(WriteFault::Uncovered);
        }
        match connection.write_copy(self.0) {
            Ok(written) => Ok(written),
            Err(refusal) => Err(WriteFault::Refused(refusal)),
        }
    }
}

/// A write of a copy of these parts as one block, as `Connection::write_parts`.
#[derive(Drop)]
pub struct WriteParts<'p, 'b>(pub &'p [&'b [u8]]);

impl<'p, 'b> Act for WriteParts<'p, 'b> {
    type Answer = Written;

    type Fault = WriteFault;

    ghost commands = { λ act. command.Write (Block (joined act.0.now)) ∷ [] };

    ghost does = { λ act. Putting (Block (joined act.0.now)) };

    ghost uncovered = { IsUncovered };

    fn adds(&self, connection: &Connection) -> u64 {
        bytes_added_by_parts(connection, self.0)
    }

    fn act(self, connection: &mut Connection, room: Option<u64>) -> Result<Written, WriteFault> {
        if room_lacks_parts(connection, self.0, room) {
            return Err(WriteFault::Uncovered);
        }
        match connection.write_parts(self.0) {
            Ok(written) => Ok(written),
            Err(refusal) => Err(WriteFault::Refused(refusal)),
        }
    }
}

/// A write of a message, and the flush behind it. A message that is refused comes back.
#[derive(Drop)]
pub struct WriteAndFlush(pub Message);

impl Act for WriteAndFlush {
    type Answer = WrittenAndFlushed;

    type Fault = NotWritten;

    ghost commands = { λ act. command.Write act.0 ∷ command.Flush ∷ [] };

    ghost does = { λ act. ThenFlushes (Writing act.0) };

    ghost uncovered = { ComesBackUncovered };

    fn adds(&self, connection: &Connection) -> u64 {
        bytes_added(connection, &self.0)
    }

    fn act(
        self,
        connection: &mut Connection,
        room: Option<u64>,
    ) -> Result<WrittenAndFlushed, NotWritten> {
        if room_lacks(connection, &self.0, room) {
            return Err(NotWritten {
                why: WriteFault::Uncovered,
                message: self.0,
            });
        }
        connection.stands_for_some_commands();
        let written = Write(self.0).act(connection, None)?;
        let flushed = flush_behind(connection);
        Ok(WrittenAndFlushed { written, flushed })
    }
}

/// A write of a message, which is let go if it is refused, and the flush behind it.
#[derive(Drop)]
pub struct PutAndFlush(pub Message);

impl Act for PutAndFlush {
    type Answer = WrittenAndFlushed;

    type Fault = WriteFault;

    ghost commands = { λ act. command.Write act.0 ∷ command.Flush ∷ [] };

    ghost does = { λ act. ThenFlushes (Putting act.0) };

    ghost uncovered = { IsUncovered };

    fn adds(&self, connection: &Connection) -> u64 {
        bytes_added(connection, &self.0)
    }

    fn act(
        self,
        connection: &mut Connection,
        room: Option<u64>,
    ) -> Result<WrittenAndFlushed, WriteFault> {
        if room_lacks(connection, &self.0, room) {
            return Err(WriteFault::Uncovered);
        }
        connection.stands_for_some_commands();
        let written = Put(self.0).act(connection, None)?;
        let flushed = flush_behind(connection);
        Ok(WrittenAndFlushed { written, flushed })
    }
}

/// A write of a copy of these bytes, and the flush behind it.
#[derive(Drop)]
pub struct WriteCopyAndFlush<'b>(pub &'b [u8]);

impl<'b> Act for WriteCopyAndFlush<'b> {
    type Answer = WrittenAndFlushed;

    type Fault = WriteFault;

    ghost commands = { λ act. command.Write (Block act.0.now) ∷ command.Flush ∷ [] };

    ghost does = { λ act. ThenFlushes (Putting (Block act.0.now)) };

    ghost uncovered = { IsUncovered };

    fn adds(&self, connection: &Connection) -> u64 {
        bytes_added_by(connection, self.0.len())
    }

    fn act(
        self,
        connection: &mut Connection,
        room: Option<u64>,
    ) -> Result<WrittenAndFlushed, WriteFault> {
        if room_lacks_block(connection, self.0.len(), room) {
            return Err(WriteFault::Uncovered);
        }
        connection.stands_for_some_commands();
        let written = WriteCopy(self.0).act(connection, None)?;
        let flushed = flush_behind(connection);
        Ok(WrittenAndFlushed { written, flushed })
    }
}

/// The flush of an open connection, which is accepted.
fn flush_behind(connection: &mut Connection) -> Flushed
    requires { IsOpen connection.old }
    ensures { Flushing connection.old result connection.new }
{
    let Ok(flushed) = connection.flush() else {
        unreachable!()
    };
    flushed
}
