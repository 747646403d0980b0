//! A message that C has in parts.

ghost use Rattle.std.specs.Prelude.{◌≡◌, ◌≤◌, ◌<◌, ℕ, List, length, IfSome, IfOk, Some, None};
ghost use Rattle.ob_types.specs.Limits.{greatest_pending_size};
ghost use Rattle.ob_types.specs.declared.command.Command.TheVariants.{Write};
ghost use Rattle.ob_types.specs.declared.message.Message.TheVariants.{Block as AsBlock};
ghost use Rattle.ob_connection.specs.Connected.{Refuses};
ghost use Rattle.ob_connection.specs.Obeying.{Obeys, written_reply, joined};
ghost use Rattle.ob_c.specs.Calls.{ObeysFor, slices_of};
ghost use Rattle.ob_c.specs.Replies.{written_in_c};

use crate::handle::Handle;
use crate::numbers::{NOT_OPEN, accepted};
use crate::replies::Written;
use ob_connection::Connection;
use ob_types::Refusal;
use std::alloc::{AllocError, Global};

/// How many parts are handed on without a list of them in memory.
const FEW_PARTS: usize = 16;

/// A part of a message: `struct iovec` of POSIX.
#[repr(C)]
#[derive(Clone, Copy)]
pub struct Part<'a> {
    /// Its bytes.
    pub bytes: &'a [u8],
}

/// Writes a copy of these parts, one behind the other, as one message.
///
/// The status is 12 if it is out of memory, and nothing else refuses the write; the connection is as it was then.
#[unsafe(no_mangle)]
pub extern "C" fn limekeel_write_pieces(
    alloc: Global,
    handle: &mut Handle,
    parts: &[Part<'_>],
) -> Written
    ensures { ObeysFor handle.old.value (Write (AsBlock (joined (slices_of parts.now)))) written_reply written_in_c result
        handle.new.value }
{
    if !handle.is_open() {
        return Written::of(Err(NOT_OPEN));
    }
    let answer = write_parts(alloc, handle.reach(), parts);
    Written::of(accepted(Some(answer)))
}

/// Writes a copy of these parts.
fn write_parts(
    alloc: Global,
    connection: &mut Connection,
    parts: &[Part<'_>],
) -> Result<ob_connection::Written, Refusal>
    ensures { Obeys connection.old (Write (AsBlock (joined (slices_of parts.now)))) written_reply result connection.new }
{
    if parts.len() <= FEW_PARTS {
        return write_few(connection, parts);
    }
    if let Some(refusal) = refusal_of(connection, parts) {
        return Err(refusal);
    }
    let list = listed(alloc, parts)?;
    connection.write_parts(&list)
}

/// Writes a copy of a few parts.
fn write_few(
    connection: &mut Connection,
    parts: &[Part<'_>],
) -> Result<ob_connection::Written, Refusal>
    requires { length parts.now ≤ 16 }
    ensures { Obeys connection.old (Write (AsBlock (joined (slices_of parts.now)))) written_reply result connection.new }
{
    let mut few = [[0u8; 0].as_slice(); FEW_PARTS];
    for at in 0..parts.len() {
        few[at] = parts[at].bytes;
    }
    connection.write_parts(&few[..parts.len()])
}

/// Why a write of these parts would be refused, or nothing if it would be accepted while there is memory.
fn refusal_of(connection: &Connection, parts: &[Part<'_>]) -> Option<Refusal>
    ensures first { Refuses connection.now (Write (AsBlock (joined (slices_of parts.now)))) result }
    ensures other { ¬ (result ≡ Some Refusal.NoMemory) }
{
    match length_of(parts) {
        Some(count) => connection.refusal_of_length(count),
        None => Some(refusal_of_too_long(connection)),
    }
}

/// Why a block is refused that is longer than any message may be.
fn refusal_of_too_long(connection: &Connection) -> Refusal
    ensures first { (bytes : List ℕ) → greatest_pending_size < length bytes
        → Refuses connection.now (Write (AsBlock bytes)) (Some result) }
    ensures other { ¬ (result ≡ Refusal.NoMemory) }
{
    if connection.is_closed() {
        Refusal::Closed
    } else {
        Refusal::Oversize
    }
}

/// How many bytes these parts are together, unless no message is so long.
fn length_of(parts: &[Part<'_>]) -> Option<usize>
    ensures some { IfSome result (λ count. count ≡ length (joined (slices_of parts.now))) }
    ensures none { result ≡ None → greatest_pending_size < length (joined (slices_of parts.now)) }
{
    let mut count: usize = 0;
    for part in parts {
        let Some(more) = count.checked_add(part.bytes.len()) else {
            return None;
        };
        count = more;
    }
    Some(count)
}

/// A list of parts.
fn listed<'a>(alloc: Global, parts: &[Part<'a>]) -> Result<Vec<&'a [u8]>, AllocError>
    ensures { IfOk result (λ list. list.items ≡ slices_of parts.now) }
{
    let mut list = Vec::new(alloc);
    list.reserve(parts.len())?;
    for part in parts {
        list.push(part.bytes)?;
    }
    Ok(list)
}
