//! What threads do with a connection that they share.

ghost use Rattle.ob_types.specs.declared.message.Message.TheVariants.{Block};
ghost use Rattle.ob_shared_connection.specs.Calls.{UnderLock, WritesAndFlushes};

use bytes::Bytes;
use ob_shared_connection::{Handle, NotWritten, WrittenAndFlushed};
use ob_types::Message;
use std::sync::Wait;

/// Writes an answer and flushes it, from any thread, under one lock; the transport that waits for work is woken. Whoever
/// reads `Unwritable` as the change of the write stops its own work until `Handle::wait_writable`.
///
/// The refusals are those of `write`, and the answer comes back; each leaves the connection as it was.
pub fn respond_from_any_thread<R: Wait>(
    rt: &R,
    handle: &mut Handle,
    answer: Bytes,
) -> Result<WrittenAndFlushed, NotWritten>
    ensures { UnderLock handle.old (WritesAndFlushes (Block answer) result) handle.new }
{
    handle.write_and_flush(rt, Message::Block(answer))
}
