//! The writes of a connection that a budget covers.
//!
//! Beside the statuses of the writes of a connection, the status is 21 if the budget has no room for the message, and 18 if
//! other seats came in between 65,536 times.

ghost use Rattle.std.specs.Prelude.{◌≡◌};
ghost use Rattle.ob_types.specs.declared.message.Message.TheVariants.{Block as AsBlock, Region as AsRegion, Other as AsOther};
ghost use Rattle.ob_c.specs.Budgets.{WritesBlockWithin, WritesFor};
ghost use Rattle.ob_covered.specs.Budgeted.{WritesWithin};

use crate::block::Block;
use crate::budgeted::Budgeted;
use crate::numbers::{NO_BLOCK, NOT_OPEN};
use crate::pressed::PressedWritten;
use bytes::Bytes;
use ob_connection::Written;
use ob_covered::{Told, WriteFault};
use ob_types::Message;

/// Writes a copy of these bytes.
#[unsafe(no_mangle)]
pub extern "C" fn limekeel_budgeted_write_bytes(
    budgeted: &mut Budgeted,
    bytes: &[u8],
) -> PressedWritten
    ensures { WritesFor budgeted.old.value (AsBlock bytes.now) result budgeted.new.value }
{
    PressedWritten::of(budgeted.write(|connection| write_copy(connection, bytes)))
}

/// Writes the bytes of a block, which the message shares: no byte is copied.
///
/// The status is 13 if there is no connection, then 16 if the block holds no bytes; 12 also if the block has more owners than
/// can be counted.
#[unsafe(no_mangle)]
pub extern "C" fn limekeel_budgeted_write_block(
    budgeted: &mut Budgeted,
    block: &mut Block,
) -> PressedWritten
    ensures writes { WritesBlockWithin budgeted.old.value block.old.value result budgeted.new.value }
    ensures block { block.new.value ≡ block.old.value }
{
    if !budgeted.is_open() {
        return PressedWritten::of((Err(NOT_OPEN), 0));
    }
    if !block.is_open() {
        return PressedWritten::of((Err(NO_BLOCK), 0));
    }
    let bytes: &Bytes = block.reach();
    PressedWritten::of(budgeted.write(|connection| write_shared(connection, bytes)))
}

/// Writes these bytes where they lie: the message is lent their memory, as by `limekeel_write_lent_bytes`.
#[unsafe(no_mangle)]
pub extern "C" fn limekeel_budgeted_write_lent_bytes(
    budgeted: &mut Budgeted,
    bytes: &'static [u8],
) -> PressedWritten
    ensures { WritesFor budgeted.old.value (AsBlock bytes.now) result budgeted.new.value }
{
    PressedWritten::of(budgeted.write(|connection| write_static(connection, bytes)))
}

/// Writes a region of `length` bytes, which the transport sends by itself.
#[unsafe(no_mangle)]
pub extern "C" fn limekeel_budgeted_write_region(
    budgeted: &mut Budgeted,
    length: u64,
) -> PressedWritten
    ensures { WritesFor budgeted.old.value (AsRegion length) result budgeted.new.value }
{
    PressedWritten::of(budgeted.write(|connection| write(connection, Message::Region(length))))
}

/// Writes any other message, by a number that means something to the application alone.
#[unsafe(no_mangle)]
pub extern "C" fn limekeel_budgeted_write_other(
    budgeted: &mut Budgeted,
    value: u32,
) -> PressedWritten
    ensures { WritesFor budgeted.old.value (AsOther value) result budgeted.new.value }
{
    PressedWritten::of(budgeted.write(|connection| write(connection, Message::Other(value))))
}

/// Writes a copy of these bytes.
#[inline(always)]
fn write_copy(
    connection: &mut ob_covered::Budgeted,
    bytes: &[u8],
) -> Told<Result<Written, WriteFault>>
    ensures { WritesWithin (λ why. why) (AsBlock bytes.now) connection.old result connection.new }
{
    connection.write_copy(bytes)
}

/// Writes these bytes, which the message shares.
#[inline(always)]
fn write_shared(
    connection: &mut ob_covered::Budgeted,
    bytes: &Bytes,
) -> Told<Result<Written, WriteFault>>
    ensures { WritesWithin (λ why. why) (AsBlock bytes.now) connection.old result connection.new }
{
    connection.write_shared(bytes)
}

/// Writes these bytes where they lie.
#[inline(always)]
fn write_static(
    connection: &mut ob_covered::Budgeted,
    bytes: &'static [u8],
) -> Told<Result<Written, WriteFault>>
    ensures { WritesWithin (λ why. why) (AsBlock bytes.now) connection.old result connection.new }
{
    connection.write_static(bytes)
}

/// Writes a message, of which a refusal tells the reason alone: the caller of C has what it is made of.
#[inline(always)]
fn write(
    connection: &mut ob_covered::Budgeted,
    message: Message,
) -> Told<Result<Written, WriteFault>>
    ensures { WritesWithin (λ why. why) message connection.old result connection.new }
{
    let Told { answer, pressure } = connection.write(message);
    match answer {
        Ok(written) => Told {
            answer: Ok(written),
            pressure,
        },
        Err(not) => Told {
            answer: Err(not.why),
            pressure,
        },
    }
}
