ghost use Rattle.ob_patterns.specs.Broadcasting.{Broadcasts, IsHanded};

use bytes::Bytes;
use ob_connection::Connection;
use ob_types::{Message, Refusal};

/// Whom a broadcast reached. Each connection counts once.
#[derive(Clone, Copy, Debug, PartialEq, Eq)]
pub struct Reached {
    /// How many connections got the message.
    pub got: u64,
    /// How many were left out since they were not writable.
    pub unwritable: u64,
    /// How many were writable and refused it: they were closed, say.
    pub refused: u64,
}

/// Why a connection was left out.
#[derive(Clone, Copy, Debug, PartialEq, Eq)]
pub enum LeftOut {
    /// It is not writable.
    Unwritable,
    /// It is writable and refused the bytes.
    Refused(Refusal),
}

/// Hands the same bytes to each connection that is writable, without a copy. A connection that refuses them, or is
/// closed, is left out as one that reads slowly: it stays as it was, and the others get the message all the same.
pub fn broadcast(connections: &mut [Connection], bytes: &Bytes) -> Reached
    ensures { Broadcasts connections.old bytes.now result connections.new }
{
    let mut reached = Reached {
        got: 0,
        unwritable: 0,
        refused: 0,
    };
    for connection in connections.iter_mut() {
        match hand(connection, bytes) {
            Ok(()) => reached.got += 1,
            Err(LeftOut::Unwritable) => reached.unwritable += 1,
            Err(LeftOut::Refused(_)) => reached.refused += 1,
        }
    }
    reached
}

/// Writes and flushes bytes if the connection is writable and accepts them. If not, it returns why, and the connection
/// is as it was.
///
/// The refusals are those of `write`. `NoMemory` comes besides if there is none for a second handle to the bytes.
pub fn hand(connection: &mut Connection, bytes: &Bytes) -> Result<(), LeftOut>
    ensures { IsHanded connection.old bytes.now result connection.new }
{
    if !connection.is_writable() {
        return Err(LeftOut::Unwritable);
    }
    let Ok(handle) = bytes.clone() else {
        return Err(LeftOut::Refused(Refusal::NoMemory));
    };
    if let Err(refused) = connection.write(Message::Block(handle)) {
        return Err(LeftOut::Refused(refused.refusal));
    }
    // what accepted a write accepts a flush
    let _flushed = connection.flush();
    Ok(())
}
