//! Messages that are written as bytes.

ghost use Rattle.std.specs.Prelude.{◌≡◌, IfErr, IsTrue, OnOk};
ghost use Rattle.ob_types.specs.PendingSize.{counted_bytes};
ghost use Rattle.ob_types.specs.declared.command.Command.TheVariants.{Write};
ghost use Rattle.ob_types.specs.declared.message.Message.TheVariants.{Block};
ghost use Rattle.ob_seq.specs.Unsent.{room_for_one_more};
ghost use Rattle.ob_connection.specs.Connected.{room_in};
ghost use Rattle.ob_connection.specs.Obeying.{Obeys, written_reply};
ghost use Rattle.ob_covered.specs.Budgeted.{OverBudgetAlone, WritesWithin};
ghost use Rattle.ob_covered.specs.Inside.{Covers, HoldsBeside, let_through};
ghost use Rattle.ob_covered.specs.declared.fault.WriteFault.TheVariants.{Refused};

use super::Budgeted;
use crate::cover::Cover;
use crate::fault::{Told, WriteFault};
use bytes::Bytes;
use ob_budget::Pressure;
use ob_connection::{Connection, Written};
use ob_types::Refusal;

impl Budgeted {
    /// As `Connection::write_copy`, but `OverBudget` comes after `Closed`, `Oversize` and `TooMuch`, and before anything is
    /// copied, if the seat does not hold the copy beside what is pending, and the budget refused what it lacks.
    #[inline(always)]
    pub fn write_copy(&mut self, bytes: &[u8]) -> Told<Result<Written, WriteFault>>
        ensures writes { WritesWithin (λ why. why) (Block bytes.now) self.old result self.new }
        ensures last { IfErr result.answer (OverBudgetAlone self.old.connection (Block bytes.now)) }
    {
        self.connection.stands_for_some_commands();
        if !holds_block(&self.connection, &self.cover, bytes) {
            return self.copy_beyond(bytes);
        }
        let answer = self.connection.write_copy(bytes);
        let _look = self.connection.look();
        Told {
            answer: let_copy_through(answer),
            pressure: None,
        }
    }

    /// Writes the bytes of a block, which the message shares: no byte is copied. It is refused as `write_copy` is, and not
    /// shared then; `NoMemory` comes also if the block has more owners than can be counted.
    #[inline(always)]
    pub fn write_shared(&mut self, block: &Bytes) -> Told<Result<Written, WriteFault>>
        ensures writes { WritesWithin (λ why. why) (Block block.now) self.old result self.new }
        ensures last { IfErr result.answer (OverBudgetAlone self.old.connection (Block block.now)) }
    {
        self.connection.stands_for_some_commands();
        if !holds_block(&self.connection, &self.cover, block.as_slice()) {
            return self.share_beyond(block);
        }
        let answer = self.connection.write_shared(block);
        let _look = self.connection.look();
        Told {
            answer: let_through(answer),
            pressure: None,
        }
    }

    /// Writes bytes that are there for good, where they lie: no byte is copied, and no owner is counted. It is refused as
    /// `write_copy` is.
    #[inline(always)]
    pub fn write_static(&mut self, bytes: &'static [u8]) -> Told<Result<Written, WriteFault>>
        ensures writes { WritesWithin (λ why. why) (Block bytes.now) self.old result self.new }
        ensures last { IfErr result.answer (OverBudgetAlone self.old.connection (Block bytes.now)) }
    {
        self.connection.stands_for_some_commands();
        if !holds_block(&self.connection, &self.cover, bytes) {
            return self.lend_beyond(bytes);
        }
        let answer = put_static(&mut self.connection, bytes);
        let _look = self.connection.look();
        Told {
            answer: let_through(answer),
            pressure: None,
        }
    }

    /// Copies a message that the seat does not hold, or that no seat holds.
    // most are held: in one piece with the other way, that one would save registers for this
    #[cold]
    #[inline(never)]
    fn copy_beyond(&mut self, bytes: &[u8]) -> Told<Result<Written, WriteFault>>
        ensures writes { WritesWithin (λ why. why) (Block bytes.now) self.old result self.new }
        ensures last { IfErr result.answer (OverBudgetAlone self.old.connection (Block bytes.now)) }
    {
        self.connection.stands_for_some_commands();
        let pressure = match self.cover_block(bytes) {
            Ok(pressure) => pressure,
            Err(why) => {
                return Told {
                    answer: Err(why),
                    pressure: None,
                };
            }
        };
        let written = self.connection.write_copy(bytes);
        let _look = self.connection.look();
        Told {
            answer: let_through(written),
            pressure,
        }
    }

    /// Shares such a block.
    #[cold]
    #[inline(never)]
    fn share_beyond(&mut self, block: &Bytes) -> Told<Result<Written, WriteFault>>
        ensures writes { WritesWithin (λ why. why) (Block block.now) self.old result self.new }
        ensures last { IfErr result.answer (OverBudgetAlone self.old.connection (Block block.now)) }
    {
        self.connection.stands_for_some_commands();
        let pressure = match self.cover_block(block.as_slice()) {
            Ok(pressure) => pressure,
            Err(why) => {
                return Told {
                    answer: Err(why),
                    pressure: None,
                };
            }
        };
        let written = self.connection.write_shared(block);
        let _look = self.connection.look();
        Told {
            answer: let_through(written),
            pressure,
        }
    }

    /// Lends such bytes.
    // the message is made here, so that the other way keeps none in memory for it
    #[cold]
    #[inline(never)]
    fn lend_beyond(&mut self, bytes: &'static [u8]) -> Told<Result<Written, WriteFault>>
        ensures writes { WritesWithin (λ why. why) (Block bytes.now) self.old result self.new }
        ensures last { IfErr result.answer (OverBudgetAlone self.old.connection (Block bytes.now)) }
    {
        self.share_beyond(&Bytes::from_static(bytes))
    }

    /// Lets the seat hold a block beside what is pending, if the connection would take it.
    fn cover_block(&mut self, block: &[u8]) -> Result<Option<Pressure>, WriteFault>
        ensures { Covers (Block block.now) self.old result self.new }
    {
        self.connection.stands_for_some_commands();
        if let Some(refusal) = self.connection.refusal_of_block(block) {
            return Err(WriteFault::Refused(refusal));
        }
        let size = block.len() as u64 + u64::from(self.connection.estimate().overhead);
        let pending = self.connection.look().total;
        match self.cover.take(u64::from(pending) + size) {
            Ok(pressure) => Ok(pressure),
            Err(fault) => Err(WriteFault::OverBudget(fault)),
        }
    }
}

/// Writes bytes that are there for good.
#[inline(always)]
fn put_static(connection: &mut Connection, bytes: &'static [u8]) -> Result<Written, Refusal>
    ensures obeys { Obeys connection.old (Write (Block bytes.now)) written_reply result connection.new }
    ensures room { OnOk result (room_in connection.new ≡ room_for_one_more connection.old.unsent) }
{
    connection.write_shared(&Bytes::from_static(bytes))
}

/// Whether the seat holds this block beside what is pending.
#[inline(always)]
fn holds_block(connection: &Connection, cover: &Cover, block: &[u8]) -> bool
    ensures { IsTrue result → HoldsBeside connection.now
        (counted_bytes connection.now.unsent.settings.estimate (Block block.now)) cover.now.seat.account.held }
{
    let size = block.len() as u64 + u64::from(connection.estimate().overhead);
    u64::from(connection.look().total) + size <= cover.held()
}

/// What the connection answered to a write that was let through, as an answer within a budget.
#[inline(always)]
fn let_through(answer: Result<Written, Refusal>) -> Result<Written, WriteFault>
    ensures { result ≡ let_through answer }
{
    match answer {
        Ok(written) => Ok(written),
        Err(refusal) => Err(WriteFault::Refused(refusal)),
    }
}

/// The same of a copy, whose answer comes back through memory.
// a refusal has a call of its own, so that how writability changed is read of an accepted write alone: read before, it is read
// as four bytes, of which two were written one by one, and the processor waits for these
#[inline(always)]
fn let_copy_through(answer: Result<Written, Refusal>) -> Result<Written, WriteFault>
    ensures { result ≡ let_through answer }
{
    match answer {
        Ok(written) => Ok(written),
        Err(refusal) => Err(refused(refusal)),
    }
}

/// A refusal of the connection, as a fault of a write.
#[cold]
#[inline(never)]
fn refused(refusal: Refusal) -> WriteFault
    ensures { result ≡ Refused refusal }
{
    WriteFault::Refused(refusal)
}
