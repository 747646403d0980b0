//! The writes.

ghost use Rattle.std.specs.Prelude.{◌≡◌, IfSome, Some};
ghost use Rattle.ob_types.specs.declared.command.Command.TheVariants.{Write};
ghost use Rattle.ob_types.specs.declared.message.Message.TheVariants.{Block as AsBlock, Region as AsRegion, Other as AsOther};
ghost use Rattle.ob_connection.specs.Obeying.{Obeys, written_reply};
ghost use Rattle.ob_c.specs.Calls.{WritesBlock, ObeysFor};
ghost use Rattle.ob_c.specs.Replies.{written_in_c};

use crate::block::Block;
use crate::handle::Handle;
use crate::numbers::{NO_BLOCK, NOT_OPEN};
use crate::replies::Written;
use bytes::Bytes;
use ob_connection::Connection;
use ob_types::{Message, Refusal};

/// Writes a copy of these bytes.
///
/// The status is 12 if it is out of memory, and nothing else refuses the write; the connection is as it was then.
#[unsafe(no_mangle)]
pub extern "C" fn limekeel_write_bytes(handle: &mut Handle, bytes: &[u8]) -> Written
    ensures { ObeysFor handle.old.value (Write (AsBlock bytes.now)) written_reply written_in_c result handle.new.value }
{
    Written::of(handle.command(|connection| connection.write_copy(bytes)))
}

/// Writes the bytes of a block, which the message shares: no byte is copied.
///
/// The status is 13 if the handle holds no connection, then 16 if the block holds no bytes; 12 also if the block has more
/// owners than can be counted.
#[unsafe(no_mangle)]
pub extern "C" fn limekeel_write_block(handle: &mut Handle, block: &mut Block) -> Written
    ensures writes { WritesBlock handle.old.value block.old.value result handle.new.value }
    ensures block { block.new.value ≡ block.old.value }
{
    // Shared before anything is asked: what the handle holds would be read once more behind that.
    if let Some(shared) = shared(block)
        && takes_at_once(handle, shared.len())
    {
        return Written::of(handle.command(|connection| write(connection, Message::Block(shared))));
    }
    let Written { status, change, id } = share_at_length(handle, block);
    Written { status, change, id }
}

/// The bytes of a block, which both share, unless it holds none or has more owners than can be counted.
#[inline(always)]
fn shared(block: &mut Block) -> Option<Bytes>
    ensures shares { IfSome result (λ shared. block.old.value ≡ Some shared) }
    ensures block { block.new.value ≡ block.old.value }
{
    if !block.is_open() {
        return None;
    }
    let bytes: &Bytes = block.reach();
    bytes.clone().ok()
}

/// The same of a connection that grows by it or refuses it, or if one of the two holds nothing.
// As `lend_at_length`.
#[cold]
#[inline(never)]
fn share_at_length(handle: &mut Handle, block: &mut Block) -> Written
    ensures writes { WritesBlock handle.old.value block.old.value result handle.new.value }
    ensures block { block.new.value ≡ block.old.value }
{
    if !handle.is_open() {
        return Written::of(Err(NOT_OPEN));
    }
    if !block.is_open() {
        return Written::of(Err(NO_BLOCK));
    }
    let bytes: &Bytes = block.reach();
    Written::of(handle.command(|connection| connection.write_shared(bytes)))
}

/// Writes these bytes where they lie: the message is lent their memory, and no byte is copied.
///
/// Their type says that they stay as they are for good. What is asked of C is less: that they do until a call takes the
/// message away, or the handle is freed. The status is 12 if it is out of memory.
#[unsafe(no_mangle)]
pub extern "C" fn limekeel_write_lent_bytes(handle: &mut Handle, bytes: &'static [u8]) -> Written
    ensures { ObeysFor handle.old.value (Write (AsBlock bytes.now)) written_reply written_in_c result handle.new.value }
{
    if !takes_at_once(handle, bytes.len()) {
        // Returned as it is, the answer of a write goes through memory too, and is read there by other pieces than it was
        // written in, for which the processor waits.
        let Written { status, change, id } = lend_at_length(handle, bytes);
        return Written { status, change, id };
    }
    Written::of(handle.command(|connection| write(connection, lent(bytes))))
}

/// The same of a connection that grows by it, of one that refuses it, or of none.
// It is rare: apart, a write saves no registers for it. Each of the two has a closure of its own, and so in one piece with it.
#[cold]
#[inline(never)]
fn lend_at_length(handle: &mut Handle, bytes: &'static [u8]) -> Written
    ensures { ObeysFor handle.old.value (Write (AsBlock bytes.now)) written_reply written_in_c result handle.new.value }
{
    Written::of(handle.command(|connection| write(connection, lent(bytes))))
}

/// Whether there is a connection that takes in a block of *n* bytes without growing.
// A write asks the same. Asked before, nothing is left there but to write, and what tells refusals apart takes none of its registers.
#[inline(always)]
fn takes_at_once(handle: &mut Handle, n: usize) -> bool
    ensures { handle.new.value ≡ handle.old.value }
{
    if !handle.is_open() {
        return false;
    }
    let connection = handle.reach();
    connection.has_place() && connection.refusal_of_length(n).is_none()
}

/// Writes a region of `length` bytes, which the transport sends by itself.
#[unsafe(no_mangle)]
pub extern "C" fn limekeel_write_region(handle: &mut Handle, length: u64) -> Written
    ensures { ObeysFor handle.old.value (Write (AsRegion length)) written_reply written_in_c result handle.new.value }
{
    Written::of(handle.command(|connection| write(connection, Message::Region(length))))
}

/// Writes any other message, by a number that means something to the application alone.
#[unsafe(no_mangle)]
pub extern "C" fn limekeel_write_other(handle: &mut Handle, value: u32) -> Written
    ensures { ObeysFor handle.old.value (Write (AsOther value)) written_reply written_in_c result handle.new.value }
{
    Written::of(handle.command(|connection| write(connection, Message::Other(value))))
}

/// A message of bytes that are lent.
pub(crate) fn lent(bytes: &'static [u8]) -> Message
    ensures { result ≡ AsBlock bytes.now }
{
    Message::Block(Bytes::from_static(bytes))
}

/// Writes a message, of which a refusal tells the reason alone: the caller of C has what it is made of.
// Else the message goes through memory once more: a third more instructions for a block that is shared.
#[inline(always)]
fn write(connection: &mut Connection, message: Message) -> Result<ob_connection::Written, Refusal>
    ensures { Obeys connection.old (Write message) written_reply result connection.new }
{
    connection.write(message).map_err(|refused| refused.refusal)
}
