//! The calls of a handle of a shared connection. Each tries the lock once, and does nothing if another call has it.

ghost use Rattle.std.specs.Prelude.{◌≡◌, ⊤, IfErr, IfOk};
ghost use Rattle.ob_types.specs.Marks.{water_mark_of};
ghost use Rattle.ob_types.specs.declared.command.Command.TheVariants as command;
ghost use Rattle.ob_types.specs.declared.message.Message.TheVariants.{Block as AsBlock, Region as AsRegion, Other as AsOther};
ghost use Rattle.ob_types.specs.declared.promise.Outcome.TheVariants.{Failed};
ghost use Rattle.ob_connection.specs.Connected.{Shows, Tells};
ghost use Rattle.ob_connection.specs.Obeying.{bit_reply, cancelled_reply, flushed_reply};
ghost use Rattle.ob_shared_connection.specs.Calls.{Makes, ObeyingFreely, Puts, PutsAndFlushes, TakingQuietly};
ghost use Rattle.ob_c.specs.Looks.{look_or_status, promise_or_status};
ghost use Rattle.ob_c.specs.Replies.{no_memory, put_and_flushed_in_c, put_in_c};
ghost use Rattle.ob_c.specs.Replies.{cancelled_in_c, changed_in_c, flushed_in_c, taken_in_c};
ghost use Rattle.ob_c.specs.Sharing.{GlancesFor, MessageOf, Tries, TriesTo, TriesToLook, TriesToSetMarks, TriesToWithBlock};
ghost use Rattle.ob_c.specs.Sharing.{TriesToWithMemory};

use crate::block::Block;
use crate::numbers::{DONE, NO_BLOCK, NO_MEMORY, NOT_OPEN, status_of};
use crate::replies::{Cancelled, Changed, Flushed, Taken, Written, WrittenAndFlushed};
use crate::shared::Shared;
use crate::views::{Look, Promise};
use crate::writes::lent;
use bytes::Bytes;
use ob_shared_connection::writes::{Put, PutAndFlush, WriteCopy, WriteCopyAndFlush};
use ob_shared_connection::{Wakes, commands, looks};
use ob_types::{Cause, Message, WaterMark};
use std::alloc::Global;

/// How many bytes are copied under the lock: as many as share memory with other messages.
pub(crate) const FEW_BYTES: usize = 2048;

/// What is seen without the lock.
#[repr(C)]
#[derive(Clone, Copy)]
pub struct Glance {
    /// 0, or why there is nothing to see.
    pub status: u32,
    /// Bit 0 is the mark, bit i the user bit i. The connection is writable if the word is 0.
    pub word: u32,
    /// The pending bytes.
    pub total: u32,
}

/// Writes a copy of these bytes. Few are copied under the lock, into memory that messages share, and many before it, so that
/// nobody waits for that.
///
/// The status is 13 if there is no handle, 12 if it is out of memory, and 18 if another call has the lock.
#[unsafe(no_mangle)]
pub extern "C" fn limekeel_shared_write_bytes(
    alloc: Global,
    shared: &mut Shared,
    bytes: &[u8],
) -> Written
    ensures { TriesToWithMemory shared.old.value (Puts (AsBlock bytes.now)) put_in_c result shared.new.value }
{
    if bytes.len() <= FEW_BYTES {
        return Written::put(shared.make(WriteCopy(bytes)));
    }
    if !shared.is_open() {
        return Written::of(Err(NOT_OPEN));
    }
    match copied(alloc, bytes) {
        Ok(copy) => Written::put(shared.make(Put(copy))),
        Err(status) => Written::of(Err(status)),
    }
}

/// Writes as `limekeel_shared_write_bytes`, and flushes behind it, under one lock.
///
/// The statuses are those of that. A write that is accepted is flushed, and one that is refused is not.
#[unsafe(no_mangle)]
pub extern "C" fn limekeel_shared_write_and_flush_bytes(
    alloc: Global,
    shared: &mut Shared,
    bytes: &[u8],
) -> WrittenAndFlushed
    ensures { TriesToWithMemory shared.old.value (PutsAndFlushes (AsBlock bytes.now)) put_and_flushed_in_c result
        shared.new.value }
{
    if bytes.len() <= FEW_BYTES {
        return WrittenAndFlushed::put(shared.make(WriteCopyAndFlush(bytes)));
    }
    if !shared.is_open() {
        return WrittenAndFlushed::of(Err(NOT_OPEN));
    }
    match copied(alloc, bytes) {
        Ok(copy) => WrittenAndFlushed::put(shared.make(PutAndFlush(copy))),
        Err(status) => WrittenAndFlushed::of(Err(status)),
    }
}

/// Writes the bytes of a block, which the message shares: no byte is copied.
///
/// The status is 13 if there is no handle, then 16 if the block holds no bytes, then 12 if the block has more owners than
/// can be counted, then 18 if another call has the lock.
#[unsafe(no_mangle)]
pub extern "C" fn limekeel_shared_write_block(shared: &mut Shared, block: &mut Block) -> Written
    ensures writes { TriesToWithBlock shared.old.value block.old.value Puts put_in_c result shared.new.value }
    ensures block { block.new.value ≡ block.old.value }
{
    if !shared.is_open() {
        return Written::of(Err(NOT_OPEN));
    }
    match bytes_of(block) {
        Ok(message) => Written::put(shared.make(Put(message))),
        Err(status) => Written::of(Err(status)),
    }
}

/// Writes as `limekeel_shared_write_block`, and flushes behind it, under one lock.
#[unsafe(no_mangle)]
pub extern "C" fn limekeel_shared_write_and_flush_block(
    shared: &mut Shared,
    block: &mut Block,
) -> WrittenAndFlushed
    ensures writes { TriesToWithBlock shared.old.value block.old.value PutsAndFlushes put_and_flushed_in_c result
        shared.new.value }
    ensures block { block.new.value ≡ block.old.value }
{
    if !shared.is_open() {
        return WrittenAndFlushed::of(Err(NOT_OPEN));
    }
    match bytes_of(block) {
        Ok(message) => WrittenAndFlushed::put(shared.make(PutAndFlush(message))),
        Err(status) => WrittenAndFlushed::of(Err(status)),
    }
}

/// Writes these bytes where they lie, as `limekeel_write_lent_bytes`: no byte is copied.
#[unsafe(no_mangle)]
pub extern "C" fn limekeel_shared_write_lent_bytes(
    shared: &mut Shared,
    bytes: &'static [u8],
) -> Written
    ensures { TriesTo shared.old.value (Puts (AsBlock bytes.now)) put_in_c result shared.new.value }
{
    Written::put(shared.make(Put(lent(bytes))))
}

/// Writes a region of `length` bytes, which whoever has the transport sends by itself.
#[unsafe(no_mangle)]
pub extern "C" fn limekeel_shared_write_region(shared: &mut Shared, length: u64) -> Written
    ensures { TriesTo shared.old.value (Puts (AsRegion length)) put_in_c result shared.new.value }
{
    Written::put(shared.make(Put(Message::Region(length))))
}

/// Writes any other message, by a number that means something to the application alone.
#[unsafe(no_mangle)]
pub extern "C" fn limekeel_shared_write_other(shared: &mut Shared, value: u32) -> Written
    ensures { TriesTo shared.old.value (Puts (AsOther value)) put_in_c result shared.new.value }
{
    Written::put(shared.make(Put(Message::Other(value))))
}

/// Lets the transport have all that was written so far.
#[unsafe(no_mangle)]
pub extern "C" fn limekeel_shared_flush(shared: &mut Shared) -> Flushed
    ensures { Tries shared.old.value (Makes (ObeyingFreely flushed_reply) command.Flush) flushed_in_c result shared.new.value }
{
    Flushed::of(shared.obey(commands::Flush))
}

/// Takes a promise back.
#[unsafe(no_mangle)]
pub extern "C" fn limekeel_shared_cancel(shared: &mut Shared, id: u64) -> Cancelled
    ensures { Tries shared.old.value (Makes (ObeyingFreely (cancelled_reply id)) (command.Cancel (record { 0 = id })))
        cancelled_in_c result shared.new.value }
{
    Cancelled::of(shared.obey(commands::Cancel(id)))
}

/// Closes the connection for good: fails the messages that no flush has reached for this cause, and returns which they
/// were.
#[unsafe(no_mangle)]
pub extern "C" fn limekeel_shared_close(shared: &mut Shared, cause: u32) -> Taken
    ensures { Tries shared.old.value
        (Makes (TakingQuietly (Failed (record { 0 = cause })) ⊤) (command.Close (record { 0 = cause }))) taken_in_c result
        shared.new.value }
{
    Taken::of(shared.obey(commands::Close(Cause(cause))))
}

/// Sets the user bit of this index, or clears it if `writable` is set.
#[unsafe(no_mangle)]
pub extern "C" fn limekeel_shared_user_bit(
    shared: &mut Shared,
    index: u32,
    writable: bool,
) -> Changed
    ensures { Tries shared.old.value (Makes (ObeyingFreely bit_reply) (command.UserBit index writable)) changed_in_c result
        shared.new.value }
{
    Changed::of(shared.obey(commands::UserBit(index, writable)))
}

/// Sets the marks that are in force from now on.
#[unsafe(no_mangle)]
pub extern "C" fn limekeel_shared_set_marks(shared: &mut Shared, low: u32, high: u32) -> u32
    ensures { TriesToSetMarks shared.old.value (water_mark_of low high) result shared.new.value }
{
    if !shared.is_open() {
        return NOT_OPEN;
    }
    match WaterMark::new(low, high) {
        Ok(marks) => status_of(shared.obey(commands::SetMarks(marks))),
        Err(refusal) => u32::from(refusal.number()),
    }
}

/// What is pending now, as `limekeel_look`, under the lock.
///
/// The status is 13 if there is no handle, and 18 if another call has the lock.
#[unsafe(no_mangle)]
pub extern "C" fn limekeel_shared_look(shared: &mut Shared) -> Look
    ensures { TriesToLook shared.old.value Shows look_or_status result shared.new.value }
{
    Look::tried(shared.ask(looks::Look))
}

/// What has become of a promise, as `limekeel_promise`, under the lock.
#[unsafe(no_mangle)]
pub extern "C" fn limekeel_shared_promise(shared: &mut Shared, id: u64) -> Promise
    ensures { TriesToLook shared.old.value (λ connected. Tells connected id) promise_or_status result shared.new.value }
{
    Promise::tried(shared.ask(looks::Promise(id)))
}

/// The word and the total after accepted calls that begin with all that this handle has seen. It takes no lock.
#[unsafe(no_mangle)]
pub extern "C" fn limekeel_shared_glance(shared: &mut Shared) -> Glance
    ensures { GlancesFor shared.old.value result shared.new.value }
{
    if !shared.is_open() {
        return Glance {
            status: NOT_OPEN,
            word: 0,
            total: 0,
        };
    }
    let glance = shared.reach().glance();
    Glance {
        status: DONE,
        word: glance.word,
        total: glance.total,
    }
}

/// A message of a copy of these bytes.
pub(crate) fn copied(alloc: Global, bytes: &[u8]) -> Result<Message, u32>
    ensures copy { IfOk result (λ message. message ≡ AsBlock bytes.now) }
    ensures no_memory { IfErr result (λ status. status ≡ no_memory) }
{
    match Bytes::copy_from_slice(alloc, bytes) {
        Ok(copy) => Ok(Message::Block(copy)),
        Err(_) => Err(NO_MEMORY),
    }
}

/// A message that shares the bytes of a block.
pub(crate) fn bytes_of(block: &mut Block) -> Result<Message, u32>
    ensures message { MessageOf block.old.value result }
    ensures block { block.new.value ≡ block.old.value }
{
    if !block.is_open() {
        return Err(NO_BLOCK);
    }
    let bytes: &Bytes = block.reach();
    match bytes.clone() {
        Ok(shared) => Ok(Message::Block(shared)),
        Err(_) => Err(NO_MEMORY),
    }
}

/// Takes apart whom to wake: nobody sleeps, since each call of this library tries the lock, and none waits.
pub(crate) fn wake_nobody(wakes: Wakes) {
    let Wakes {
        next: _,
        writers: _,
        work: _,
    } = wakes;
}
