//! What a write adds to what is pending, and whether a seat holds that beside it.
ghost use Rattle.std.specs.Prelude.{◌≡◌, ◌≤◌, ◌<◌, ◌+◌, ℕ, true, false, List, [], ◌∷◌, Some};
ghost use Rattle.ob_types.specs.PendingSize.{counted_bytes};
ghost use Rattle.ob_types.specs.declared.command.Command.TheVariants.{Write};
ghost use Rattle.ob_types.specs.declared.message.Message.{Message};
ghost use Rattle.ob_types.specs.declared.message.Message.TheVariants.{Block};
ghost use Rattle.ob_connection.specs.Obeying.{Accepts, joined};
ghost use Rattle.ob_covered.specs.Budgeted.{IsPending};
ghost use Rattle.ob_shared_connection.specs.Values.{CountsAs, FitsIn, Passes, PassesRoom};

use ob_connection::{Connection, length_of_parts};
use ob_types::{Message, pending_size, pending_size_of_length};

/// The bytes that a message adds which counts as many as a block of *n* bytes, if it is accepted while there is memory;
/// else none.
pub fn bytes_added_by(connection: &Connection, n: usize) -> u64
    ensures small { result < 4294967296 }
    ensures accepted { 0 < result → (message : Message) → CountsAs connection.now n message → Accepts connection.now (Write message) }
    ensures exact { (message : Message) → CountsAs connection.now n message → Accepts connection.now (Write message)
        → result ≡ counted_bytes connection.now.unsent.settings.estimate message }
{
    connection.stands_for_some_commands();
    let Ok(size) = pending_size_of_length(n as u64, connection.estimate()) else {
        return 0;
    };
    match connection.refusal_of_length(n) {
        Some(_) => 0,
        None => u64::from(size),
    }
}

/// The same of a message.
pub fn bytes_added(connection: &Connection, message: &Message) -> u64
    ensures small { result < 4294967296 }
    ensures accepted { 0 < result → Accepts connection.now (Write message.now) }
    ensures exact { Accepts connection.now (Write message.now)
        → result ≡ counted_bytes connection.now.unsent.settings.estimate message.now }
{
    connection.stands_for_some_commands();
    let estimate = connection.estimate();
    let Ok(size) = pending_size(message, estimate) else {
        return 0;
    };
    bytes_added_by(connection, (size - estimate.overhead) as usize)
}

/// The same of a block of these parts.
pub fn bytes_added_by_parts(connection: &Connection, parts: &[&[u8]]) -> u64
    ensures small { result < 4294967296 }
    ensures accepted { 0 < result → Accepts connection.now (Write (Block (joined parts.now))) }
    ensures exact { Accepts connection.now (Write (Block (joined parts.now)))
        → result ≡ counted_bytes connection.now.unsent.settings.estimate (Block (joined parts.now)) }
{
    connection.stands_for_some_commands();
    match length_of_parts(parts) {
        Some(n) => bytes_added_by(connection, n),
        None => 0,
    }
}

/// Whether these bytes and those that are pending are more than the seat holds.
fn passes(connection: &Connection, bytes: u64, room: u64) -> bool
    ensures some { result ≡ true → 0 < bytes }
    ensures more { result ≡ true → Passes connection.now bytes room }
    ensures fits { result ≡ false → (before : ℕ) → IsPending connection.now before → before ≤ room → before + bytes ≤ room }
{
    connection.stands_for_some_commands();
    let pending = u64::from(connection.look().total);
    bytes > 0 && bytes > room.saturating_sub(pending)
}

/// Whether a connection accepts a message, and its seat does not hold it beside what is pending.
pub fn room_lacks(connection: &Connection, message: &Message, room: Option<u64>) -> bool
    ensures lacks { result ≡ true → PassesRoom connection.now (Write message.now ∷ []) room }
    ensures fits { result ≡ false → (bytes : ℕ) → room ≡ Some bytes → Accepts connection.now (Write message.now)
        → FitsIn connection.now (Write message.now ∷ []) bytes }
{
    match room {
        None => false,
        Some(room) => passes(connection, bytes_added(connection, message), room),
    }
}

/// The same of a message that counts as many as a block of *n* bytes.
pub fn room_lacks_block(connection: &Connection, n: usize, room: Option<u64>) -> bool
    ensures lacks { result ≡ true → (message : Message) → CountsAs connection.now n message
        → PassesRoom connection.now (Write message ∷ []) room }
    ensures fits { result ≡ false → (bytes : ℕ) → room ≡ Some bytes → (message : Message) → CountsAs connection.now n message
        → Accepts connection.now (Write message) → FitsIn connection.now (Write message ∷ []) bytes }
{
    match room {
        None => false,
        Some(room) => passes(connection, bytes_added_by(connection, n), room),
    }
}

/// The same of a block of these parts.
pub fn room_lacks_parts(connection: &Connection, parts: &[&[u8]], room: Option<u64>) -> bool
    ensures lacks { result ≡ true → PassesRoom connection.now (Write (Block (joined parts.now)) ∷ []) room }
    ensures fits { result ≡ false → (bytes : ℕ) → room ≡ Some bytes → Accepts connection.now (Write (Block (joined parts.now)))
        → FitsIn connection.now (Write (Block (joined parts.now)) ∷ []) bytes }
{
    match room {
        None => false,
        Some(room) => passes(connection, bytes_added_by_parts(connection, parts), room),
    }
}
