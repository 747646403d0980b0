//! Managed connections with marks of 200 and 400 and a cap of 1000 bytes. A block of four bytes counts 100.
ghost use Rattle.std.specs.Prelude.{◌≤◌};

mod caps;
mod copies;
mod ends;
mod numbers;
mod stalls;

use bytes::Bytes;
use ob_lifecycle::{Limits, ManagedConnection, NotWritten, WriteFault};
use ob_types::{Estimate, Message, Refusal, WaterMark};
use std::alloc::Global;
use std::test::Fail;

/// A connection that counts this many bytes for each entry.
fn opened(alloc: Global, overhead: u32) -> Result<ManagedConnection, Fail>
    requires { overhead ≤ 65535 }
{
    let estimate = Estimate {
        overhead,
        unknown: 8,
    };
    let limits = Limits {
        most_pending: 1000,
        window: 30,
        least_bytes: 10,
    };
    Ok(ManagedConnection::new(alloc, WaterMark::new(200, 400)?, estimate, limits, 0))
}

/// Writes a block of four bytes, or says why not.
fn write(connection: &mut ManagedConnection) -> Result<(), WriteFault> {
    put(connection, Message::Block(Bytes::from_static(b"four")))
}

/// Writes a message, or says why not. If memory was refused, no more than that may be told, and it is written again.
fn put(connection: &mut ManagedConnection, message: Message) -> Result<(), WriteFault> {
    let mut before = connection.numbers();
    before.refusals.no_memory = before.refusals.no_memory.saturating_add(1);
    let Err(refused) = connection.write(message) else {
        return Ok(());
    };
    let NotWritten { why, message } = refused;
    if why != WriteFault::Refused(Refusal::NoMemory) || connection.numbers() != before {
        return Err(why);
    }
    match connection.write(message) {
        Ok(_written) => Ok(()),
        Err(NotWritten { why, message: _ }) => Err(why),
    }
}
