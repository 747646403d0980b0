//! The writes of a managed connection.
//!
//! Beside the statuses of the writes of a connection, the status is 19 if the end was asked for, and 20 if more bytes would be
//! pending than its limit allows.

ghost use Rattle.std.specs.Prelude.{◌≡◌};
ghost use Rattle.ob_types.specs.declared.message.Message.TheVariants.{Block as AsBlock, Region as AsRegion, Other as AsOther};
ghost use Rattle.ob_lifecycle.specs.Managed.{WritesTo};
ghost use Rattle.ob_c.specs.Managing.{WritesBlockFor, WritesFor};

use crate::block::Block;
use crate::managed::Managed;
use crate::numbers::{NO_BLOCK, NOT_OPEN};
use crate::replies::Written;
use crate::writes::lent;
use bytes::Bytes;
use ob_lifecycle::{ManagedConnection, WriteFault};
use ob_types::Message;

/// Writes a copy of these bytes.
#[unsafe(no_mangle)]
pub extern "C" fn limekeel_managed_write_bytes(managed: &mut Managed, bytes: &[u8]) -> Written
    ensures { WritesFor managed.old.value (AsBlock bytes.now) result managed.new.value }
{
    Written::of(managed.write(|connection| connection.write_copy(bytes)))
}

/// Writes the bytes of a block, which the message shares: no byte is copied.
///
/// The status is 13 if there is no connection, then 16 if the block holds no bytes; 12 also if the block has more owners than
/// can be counted.
#[unsafe(no_mangle)]
pub extern "C" fn limekeel_managed_write_block(managed: &mut Managed, block: &mut Block) -> Written
    ensures writes { WritesBlockFor managed.old.value block.old.value result managed.new.value }
    ensures block { block.new.value ≡ block.old.value }
{
    if !managed.is_open() {
        return Written::of(Err(NOT_OPEN));
    }
    if !block.is_open() {
        return Written::of(Err(NO_BLOCK));
    }
    let bytes: &Bytes = block.reach();
    Written::of(managed.write(|connection| connection.write_shared(bytes)))
}

/// Writes these bytes where they lie: the message is lent their memory, as by `limekeel_write_lent_bytes`.
#[unsafe(no_mangle)]
pub extern "C" fn limekeel_managed_write_lent_bytes(
    managed: &mut Managed,
    bytes: &'static [u8],
) -> Written
    ensures { WritesFor managed.old.value (AsBlock bytes.now) result managed.new.value }
{
    Written::of(managed.write(|connection| write(connection, lent(bytes))))
}

/// Writes a region of `length` bytes, which the transport sends by itself.
#[unsafe(no_mangle)]
pub extern "C" fn limekeel_managed_write_region(managed: &mut Managed, length: u64) -> Written
    ensures { WritesFor managed.old.value (AsRegion length) result managed.new.value }
{
    Written::of(managed.write(|connection| write(connection, Message::Region(length))))
}

/// Writes any other message, by a number that means something to the application alone.
#[unsafe(no_mangle)]
pub extern "C" fn limekeel_managed_write_other(managed: &mut Managed, value: u32) -> Written
    ensures { WritesFor managed.old.value (AsOther value) result managed.new.value }
{
    Written::of(managed.write(|connection| write(connection, Message::Other(value))))
}

/// Writes a message, of which a refusal tells the reason alone: the caller of C has what it is made of.
#[inline(always)]
fn write(
    connection: &mut ManagedConnection,
    message: Message,
) -> Result<ob_connection::Written, WriteFault>
    ensures { WritesTo (λ why. why) message connection.old result connection.new }
{
    match connection.write(message) {
        Ok(written) => Ok(written),
        Err(not) => Err(not.why),
    }
}
