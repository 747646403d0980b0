//! The calls of the handle of a shared connection that sends. Each tries the lock once, and does nothing if another call
//! has it.

ghost use Rattle.std.specs.Prelude.{◌≡◌, ◌≤◌, false, length, min, take, drop};
ghost use Rattle.ob_types.specs.declared.command.Command.TheVariants as command;
ghost use Rattle.ob_types.specs.declared.promise.Outcome.TheVariants.{Failed, Success};
ghost use Rattle.ob_connection.specs.Calls.{most_pieces};
ghost use Rattle.ob_connection.specs.Obeying.{done_reply, removed_reply};
ghost use Rattle.ob_shared_connection.specs.Calls.{AlwaysCovered, GivingUp, IsCall, Makes, ObeyingFreely, Taking, TakingQuietly, giving_up};
ghost use Rattle.ob_c.specs.Calls.{AreAt};
ghost use Rattle.ob_c.specs.Looks.{ShowsLeft, current_or_status};
ghost use Rattle.ob_c.specs.Replies.{status_in_c, removed_in_c, taken_in_c};
ghost use Rattle.ob_c.specs.Sharing.{IsTakenIfInFront, Tries, TriesToGather, TriesToLook};

use crate::numbers::{BUSY, DONE, NOT_OPEN, accepted, status_of};
use crate::pieces::Piece;
use crate::replies::{Removed, Taken};
use crate::transport::Transport;
use crate::tries::wake_nobody;
use crate::views::Current;
use bytes::Bytes;
use ob_connection::Connection;
use ob_shared_connection::{Ask, commands};
use ob_types::Cause;

/// As many blocks are gathered at once at most: as many as Linux takes in one `sendmsg`.
const MOST_PIECES: usize = 1024;

/// What was gathered of a shared connection.
#[repr(C)]
#[derive(Clone, Copy)]
pub struct Laid {
    /// 0, or why nothing was gathered.
    pub status: u32,
    /// How many pieces were filled.
    pub count: usize,
}

/// Fills pieces with where the flushed blocks in front lie that hold a byte, as many as there are pieces, 1024 at most, and
/// together at most `max_bytes` bytes, but the first in any case. The other pieces stay as they were.
///
/// The list of the blocks is made under the lock, and let go after it: the status is 12 if there is no memory for it, and 18
/// if another call has the lock. The blocks stay where they lie until they are taken away, through this handle alone.
#[unsafe(no_mangle)]
pub extern "C" fn limekeel_transport_gather_pieces(
    transport: &mut Transport,
    pieces: &mut [Piece],
    max_bytes: u32,
) -> Laid
    ensures gathers { TriesToGather transport.old.value (min (length pieces.old) most_pieces) max_bytes result pieces.new
        transport.new.value }
    ensures rest { drop result.count pieces.new ≡ drop result.count pieces.old }
{
    if !transport.is_open() {
        return Laid {
            status: NOT_OPEN,
            count: 0,
        };
    }
    let most = pieces.len().min(MOST_PIECES) as u32;
    let Some((answer, wakes)) = transport.reach().try_gather(most, max_bytes) else {
        return Laid {
            status: BUSY,
            count: 0,
        };
    };
    wake_nobody(wakes);
    match answer {
        Err(refusal) => Laid {
            status: u32::from(refusal.number()),
            count: 0,
        },
        Ok(blocks) => {
            lay(blocks.as_slice(), pieces);
            Laid {
                status: DONE,
                count: blocks.len(),
            }
        }
    }
}

/// Takes *n* bytes off the flushed blocks in front, as sent, and returns which messages it took away.
#[unsafe(no_mangle)]
pub extern "C" fn limekeel_transport_take_sent(transport: &mut Transport, n: u64) -> Taken
    ensures takes { Tries transport.old.value (Makes (Taking Success) (command.RemoveBytes n)) taken_in_c result
        transport.new.value }
    ensures accepted { IsTakenIfInFront transport.old.value n result.status }
{
    if !transport.is_open() {
        return Taken::of(Err(NOT_OPEN));
    }
    match transport.reach().try_take_sent(n) {
        None => Taken::of(Err(BUSY)),
        Some((answer, wakes)) => {
            wake_nobody(wakes);
            Taken::of(accepted(Some(answer)))
        }
    }
}

/// Takes the first flushed message away, as sent.
#[unsafe(no_mangle)]
pub extern "C" fn limekeel_transport_remove(transport: &mut Transport) -> Removed
    ensures { Tries transport.old.value (Makes (ObeyingFreely removed_reply) command.Remove) removed_in_c result
        transport.new.value }
{
    Removed::of(transport.obey(commands::Remove))
}

/// Takes the first flushed message away, as failed for this cause.
#[unsafe(no_mangle)]
pub extern "C" fn limekeel_transport_remove_with(transport: &mut Transport, cause: u32) -> Removed
    ensures { Tries transport.old.value
        (Makes (ObeyingFreely removed_reply) (command.RemoveWith (record { 0 = cause }))) removed_in_c result
        transport.new.value }
{
    Removed::of(transport.obey(commands::RemoveWith(Cause(cause))))
}

/// Adds *n* bytes to the progress of the first flushed message.
#[unsafe(no_mangle)]
pub extern "C" fn limekeel_transport_progress(transport: &mut Transport, n: u64) -> u32
    ensures { Tries transport.old.value (Makes (ObeyingFreely done_reply) (command.Progress n)) status_in_c result
        transport.new.value }
{
    status_of(transport.obey(commands::Progress(n)))
}

/// Takes all flushed messages away, as failed for this cause, and returns which they were.
#[unsafe(no_mangle)]
pub extern "C" fn limekeel_transport_fail_flushed(
    transport: &mut Transport,
    cause: u32,
    notify: bool,
) -> Taken
    ensures { Tries transport.old.value
        (Makes (TakingQuietly (Failed (record { 0 = cause })) (notify ≡ false)) (command.FailFlushed (record { 0 = cause }) notify))
        taken_in_c result transport.new.value }
{
    Taken::of(transport.obey(commands::FailFlushed(Cause(cause), notify)))
}

/// What is left to send of the first flushed message, as `limekeel_current`, under the lock.
#[unsafe(no_mangle)]
pub extern "C" fn limekeel_transport_current(transport: &mut Transport) -> Current
    ensures { TriesToLook transport.old.value ShowsLeft current_or_status result transport.new.value }
{
    Current::tried(transport.ask(Left))
}

/// Gives the connection up: fails what is flushed for this cause without notice, closes for it, and returns which messages
/// were pending. It is refused if the connection is closed, and does nothing if another call has the lock.
#[unsafe(no_mangle)]
pub extern "C" fn limekeel_transport_give_up(transport: &mut Transport, cause: u32) -> Taken
    ensures { Tries transport.old.value
        (λ answer before after. IsCall AlwaysCovered (GivingUp (record { 0 = cause })) (giving_up (record { 0 = cause })) before answer after)
        taken_in_c result transport.new.value }
{
    Taken::of(transport.obey(commands::GiveUp(Cause(cause))))
}

/// A look at what is left to send of the first flushed message.
#[derive(Drop)]
pub(crate) struct Left;

impl Ask for Left {
    type Answer = Current;

    ghost shows = { λ _. ShowsLeft };

    fn ask(self, connection: &Connection) -> Current {
        Current::of(connection.current(), connection.look().current_progress)
    }
}

/// Fills as many pieces as there are blocks with where these lie.
fn lay(blocks: &[Bytes], pieces: &mut [Piece])
    requires { length blocks.now ≤ length pieces.old }
    ensures laid { AreAt blocks.now (take (length blocks.now) pieces.new) }
    ensures rest { drop (length blocks.now) pieces.new ≡ drop (length blocks.now) pieces.old }
{
    'lays: for at in 0..blocks.len() {
        pieces[at] = Piece::of(blocks[at].as_slice());
    }
}
