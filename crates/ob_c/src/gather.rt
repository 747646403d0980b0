//! What can be sent at once, as pieces for `writev`.

ghost use Rattle.std.specs.Option.{option_copied};
ghost use Rattle.std.specs.Prelude.{◌≡◌, length, drop, Some};
ghost use Rattle.ob_c.specs.Calls.{Gathers, front_number, gathered_as};
ghost use Rattle.ob_c.specs.Replies.{not_open};

use crate::handle::Handle;
use crate::numbers::{DONE, NOT_OPEN};
use crate::pieces::Piece;
use ob_connection::Connection;
use ob_types::Message;

/// What was gathered.
#[repr(C)]
#[derive(Clone, Copy)]
pub struct Gathered {
    /// 0, or why nothing was gathered.
    pub status: u32,
    /// What stands in front. 0: nothing. 1: blocks. 2: empty blocks. 3: a region. 4: another message.
    pub front: u32,
    /// How many pieces were filled.
    pub count: usize,
}

impl Gathered {
    /// What C gets if there is no connection.
    pub(crate) fn not_open() -> Gathered
        ensures { result ≡ record { status = not_open; front = 0; count = 0 } }
    {
        Gathered {
            status: NOT_OPEN,
            front: 0,
            count: 0,
        }
    }
}

/// Fills pieces with where the flushed blocks in front lie that hold a byte, as many as there are pieces, and together at
/// most `max_bytes` bytes, but the first in any case. The other pieces stay as they were.
#[unsafe(no_mangle)]
pub extern "C" fn limekeel_gather_pieces(
    handle: &mut Handle,
    pieces: &mut [Piece],
    max_bytes: u32,
) -> Gathered
    ensures gathers { Gathers handle.old.value (length pieces.old) max_bytes result pieces.new handle.new.value }
    ensures rest { drop result.count pieces.new ≡ drop result.count pieces.old }
{
    if !handle.is_open() {
        return Gathered::not_open();
    }
    fill(handle.reach(), pieces, max_bytes)
}

/// Fills pieces from a connection.
// Apart, its answer goes through memory, and is read there by other pieces than it was written in, for which the processor
// waits: as long as to fill one.
#[inline(always)]
pub(crate) fn fill(connection: &Connection, pieces: &mut [Piece], max_bytes: u32) -> Gathered
    ensures gathers { Gathers (Some connection.now) (length pieces.old) max_bytes result pieces.new (Some connection.now) }
    ensures rest { drop result.count pieces.new ≡ drop result.count pieces.old }
{
    let count = lay(connection, pieces, max_bytes);
    Gathered {
        status: DONE,
        front: front_number(connection.current(), count),
        count,
    }
}

/// Fills pieces from a connection, and returns how many.
fn lay(connection: &Connection, pieces: &mut [Piece], max_bytes: u32) -> usize
    ensures laid { gathered_as connection.now (length pieces.old) max_bytes result pieces.new }
    ensures rest { drop result pieces.new ≡ drop result pieces.old }
{
    let mut count = 0;
    let mut room = u64::from(max_bytes);
    for message in connection.flushed() {
        let Message::Block(bytes) = message else {
            break;
        };
        let length = bytes.len() as u64;
        if length > 0 {
            if count >= pieces.len() {
                break;
            }
            if length > room {
                // The first goes in any case, and none behind it: to end here leaves the loop its registers.
                if count == 0 {
                    pieces[0] = Piece::of(bytes.as_slice());
                    return 1;
                }
                break;
            }
            pieces[count] = Piece::of(bytes.as_slice());
            count += 1;
            room -= length;
        }
    }
    count
}

/// The number of what stands in front, if `count` pieces were filled.
fn front_number(message: Option<&Message>, count: usize) -> u32
    ensures { result ≡ front_number (option_copied message.entry) count }
{
    match message {
        None => 0,
        Some(Message::Block(bytes)) if count == 0 && bytes.is_empty() => 2,
        Some(Message::Block(_)) => 1,
        Some(Message::Region(_)) => 3,
        Some(Message::Other(_)) => 4,
    }
}
