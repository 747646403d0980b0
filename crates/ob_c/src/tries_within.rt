//! The calls of a shared connection within a budget. Each tries the lock once, and does nothing if another call has it.

ghost use Rattle.std.specs.Prelude.{◌≡◌, ◌≤◌, IfErr, IfOk, None, nat_eq};
ghost use Rattle.ob_types.specs.Limits.{greatest_overhead, greatest_unknown};
ghost use Rattle.ob_types.specs.declared.message.Message.TheVariants.{Block as AsBlock, Region as AsRegion, Other as AsOther};
ghost use Rattle.ob_shared_connection.specs.Calls.{Settles, ShowsHeld};
ghost use Rattle.ob_c.specs.Calls.{settings_for, settings_of};
ghost use Rattle.ob_c.specs.Sharing.{TriesTo, TriesToWithBlock, TriesToWithMemory};
ghost use Rattle.ob_c.specs.Within.{KeepsSharedWithin, OpensSharedWithin, PutsAndFlushesWithin, PutsWithin};
ghost use Rattle.ob_c.specs.Within.{gave_in_c, seat_told_in_c, within_and_flushed_in_c, within_in_c};

use crate::block::Block;
use crate::budget::Budget;
use crate::numbers::{ALREADY_OPEN, DONE, EDGE, NO_MEMORY, NOT_OPEN};
use crate::pressed::{PressedDone, PressedWritten, PressedWrittenAndFlushed};
use crate::settings::{Settings, settings_for};
use crate::shared::Shared;
use crate::transport::Transport;
use crate::tries::{FEW_BYTES, bytes_of, copied};
use crate::writes::lent;
use ob_covered::{Cover, NoSeat};
use ob_shared_connection::Handle;
use ob_shared_connection::writes::{Put, PutAndFlush, WriteCopy, WriteCopyAndFlush};
use ob_types::{Estimate, Message, WaterMark};
use std::alloc::Global;

/// Opens a connection for several threads within this budget, as `limekeel_shared_open_for` opens one, and gives its first
/// handle, which sends. It holds nothing of the budget before its first write.
///
/// The statuses are those of `limekeel_shared_open_for`, and then 13 if there is no budget; 12 also if this handle of the
/// budget has opened more connections than can be counted.
#[unsafe(no_mangle)]
pub extern "C" fn limekeel_shared_open_within_for(
    alloc: Global,
    transport: &mut Transport,
    edge: u32,
    low: u32,
    high: u32,
    overhead: u32,
    unknown: u32,
    budget: &mut Budget,
) -> u32
    ensures { OpensSharedWithin transport.old.value (settings_for (nat_eq edge EDGE) (settings_of low high overhead unknown))
        budget.old.value result transport.new.value budget.new.value }
{
    if transport.is_open() {
        return ALREADY_OPEN;
    }
    let Settings { marks, estimate } = match settings_for(edge, low, high, overhead, unknown) {
        Ok(settings) => settings,
        Err(status) => return status,
    };
    if !budget.is_open() {
        return NOT_OPEN;
    }
    keep_within(alloc, marks, estimate, budget.reach().split(), transport)
}

/// Opens a connection under a cover that was cut off, in a struct that holds none.
fn keep_within(
    alloc: Global,
    marks: WaterMark,
    estimate: Estimate,
    made: Result<Cover, NoSeat>,
    transport: &mut Transport,
) -> u32
    requires none { transport.old.value ≡ None }
    requires overhead { estimate.overhead ≤ greatest_overhead }
    requires unknown { estimate.unknown ≤ greatest_unknown }
    ensures { KeepsSharedWithin (record { marks = marks; estimate = estimate }) made result transport.new.value }
{
    let Ok(cover) = made else {
        return NO_MEMORY;
    };
    let Ok(first) = Handle::open_within(alloc, marks, estimate, cover) else {
        return NO_MEMORY;
    };
    match Box::new(alloc, first.into_transport()) {
        Ok(first) => {
            transport.keep(first);
            DONE
        }
        Err(_) => NO_MEMORY,
    }
}

/// Writes a copy of these bytes as `limekeel_shared_write_bytes`, once the seat of the connection holds what they count, and
/// tells the turn of pressure that the call made. Of a connection within no budget it is that call.
///
/// The status is 21 if the budget has no room for them, and 18 also if other seats came in between 65,536 times.
#[unsafe(no_mangle)]
pub extern "C" fn limekeel_shared_write_bytes_within(
    alloc: Global,
    shared: &mut Shared,
    bytes: &[u8],
) -> PressedWritten
    ensures { TriesToWithMemory shared.old.value (PutsWithin (AsBlock bytes.now)) within_in_c result shared.new.value }
{
    if bytes.len() <= FEW_BYTES {
        return PressedWritten::put(shared.make_within(WriteCopy(bytes)));
    }
    if !shared.is_open() {
        return PressedWritten::put(Err(NOT_OPEN));
    }
    match copied(alloc, bytes) {
        Ok(copy) => PressedWritten::put(shared.make_within(Put(copy))),
        Err(status) => PressedWritten::put(Err(status)),
    }
}

/// Writes as `limekeel_shared_write_bytes_within`, and flushes behind it, under one lock.
#[unsafe(no_mangle)]
pub extern "C" fn limekeel_shared_write_and_flush_bytes_within(
    alloc: Global,
    shared: &mut Shared,
    bytes: &[u8],
) -> PressedWrittenAndFlushed
    ensures { TriesToWithMemory shared.old.value (PutsAndFlushesWithin (AsBlock bytes.now)) within_and_flushed_in_c result
        shared.new.value }
{
    if bytes.len() <= FEW_BYTES {
        return PressedWrittenAndFlushed::put(shared.make_within(WriteCopyAndFlush(bytes)));
    }
    if !shared.is_open() {
        return PressedWrittenAndFlushed::put(Err(NOT_OPEN));
    }
    match copied(alloc, bytes) {
        Ok(copy) => PressedWrittenAndFlushed::put(shared.make_within(PutAndFlush(copy))),
        Err(status) => PressedWrittenAndFlushed::put(Err(status)),
    }
}

/// Writes the bytes of a block as `limekeel_shared_write_block`, within the budget as `limekeel_shared_write_bytes_within`.
#[unsafe(no_mangle)]
pub extern "C" fn limekeel_shared_write_block_within(
    shared: &mut Shared,
    block: &mut Block,
) -> PressedWritten
    ensures writes { TriesToWithBlock shared.old.value block.old.value PutsWithin within_in_c result shared.new.value }
    ensures block { block.new.value ≡ block.old.value }
{
    if !shared.is_open() {
        return PressedWritten::put(Err(NOT_OPEN));
    }
    match bytes_of(block) {
        Ok(message) => PressedWritten::put(shared.make_within(Put(message))),
        Err(status) => PressedWritten::put(Err(status)),
    }
}

/// Writes as `limekeel_shared_write_block_within`, and flushes behind it, under one lock.
#[unsafe(no_mangle)]
pub extern "C" fn limekeel_shared_write_and_flush_block_within(
    shared: &mut Shared,
    block: &mut Block,
) -> PressedWrittenAndFlushed
    ensures writes { TriesToWithBlock shared.old.value block.old.value PutsAndFlushesWithin within_and_flushed_in_c result
        shared.new.value }
    ensures block { block.new.value ≡ block.old.value }
{
    if !shared.is_open() {
        return PressedWrittenAndFlushed::put(Err(NOT_OPEN));
    }
    match bytes_of(block) {
        Ok(message) => PressedWrittenAndFlushed::put(shared.make_within(PutAndFlush(message))),
        Err(status) => PressedWrittenAndFlushed::put(Err(status)),
    }
}

/// Writes these bytes where they lie, as `limekeel_shared_write_lent_bytes`, within the budget as
/// `limekeel_shared_write_bytes_within`.
#[unsafe(no_mangle)]
pub extern "C" fn limekeel_shared_write_lent_bytes_within(
    shared: &mut Shared,
    bytes: &'static [u8],
) -> PressedWritten
    ensures { TriesTo shared.old.value (PutsWithin (AsBlock bytes.now)) within_in_c result shared.new.value }
{
    PressedWritten::put(shared.make_within(Put(lent(bytes))))
}

/// Writes a region of `length` bytes, within the budget as `limekeel_shared_write_bytes_within`.
#[unsafe(no_mangle)]
pub extern "C" fn limekeel_shared_write_region_within(
    shared: &mut Shared,
    length: u64,
) -> PressedWritten
    ensures { TriesTo shared.old.value (PutsWithin (AsRegion length)) within_in_c result shared.new.value }
{
    PressedWritten::put(shared.make_within(Put(Message::Region(length))))
}

/// Writes any other message, within the budget as `limekeel_shared_write_bytes_within`.
#[unsafe(no_mangle)]
pub extern "C" fn limekeel_shared_write_other_within(
    shared: &mut Shared,
    value: u32,
) -> PressedWritten
    ensures { TriesTo shared.old.value (PutsWithin (AsOther value)) within_in_c result shared.new.value }
{
    PressedWritten::put(shared.make_within(Put(Message::Other(value))))
}

/// Has the seat of the connection give back what it holds above two quanta beside what is pending, down to one.
///
/// The status is 13 if there is no handle, and 18 if another call has the lock.
#[unsafe(no_mangle)]
pub extern "C" fn limekeel_shared_settle(shared: &mut Shared) -> PressedDone
    ensures { TriesTo shared.old.value (Settles 2) gave_in_c result shared.new.value }
{
    PressedDone::gave(shared.settle())
}

/// Has the seat of the connection give back all that it holds above what is pending, for one that is idle or closed.
#[unsafe(no_mangle)]
pub extern "C" fn limekeel_shared_rest(shared: &mut Shared) -> PressedDone
    ensures { TriesTo shared.old.value (Settles 0) gave_in_c result shared.new.value }
{
    PressedDone::gave(shared.rest())
}

/// The same as `limekeel_shared_settle`, after a sending: the calls of a transport leave the seat as it is.
#[unsafe(no_mangle)]
pub extern "C" fn limekeel_transport_settle(transport: &mut Transport) -> PressedDone
    ensures { TriesTo transport.old.value (Settles 2) gave_in_c result transport.new.value }
{
    PressedDone::gave(transport.settle())
}

/// The same as `limekeel_shared_rest`.
#[unsafe(no_mangle)]
pub extern "C" fn limekeel_transport_rest(transport: &mut Transport) -> PressedDone
    ensures { TriesTo transport.old.value (Settles 0) gave_in_c result transport.new.value }
{
    PressedDone::gave(transport.rest())
}

/// What is told of the seat of a shared connection.
#[repr(C)]
#[derive(Clone, Copy)]
pub struct SeatTold {
    /// 0, or why there is nothing to see.
    pub status: u32,
    /// Whether the connection was opened within a budget.
    pub is_within: bool,
    /// The bytes that its seat holds: at least those that are pending.
    pub held: u64,
}

impl SeatTold {
    /// What C gets for this.
    fn of(told: Result<Option<u64>, u32>) -> SeatTold
        ensures { result ≡ seat_told_in_c told }
    {
        match told {
            Err(status) => SeatTold {
                status,
                is_within: false,
                held: 0,
            },
            Ok(None) => SeatTold {
                status: DONE,
                is_within: false,
                held: 0,
            },
            Ok(Some(held)) => SeatTold {
                status: DONE,
                is_within: true,
                held,
            },
        }
    }
}

/// The bytes that the seat of the connection holds, under the lock.
///
/// The status is 13 if there is no handle, and 18 if another call has the lock.
#[unsafe(no_mangle)]
pub extern "C" fn limekeel_shared_held(shared: &mut Shared) -> SeatTold
    ensures { TriesTo shared.old.value ShowsHeld seat_told_in_c result shared.new.value }
{
    SeatTold::of(shared.held())
}
