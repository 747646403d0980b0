//! The first program of a stranger, as `docs/calls.md` shows it.

use bytes::Bytes;
use ob_connection::Connection;
use ob_types::{Estimate, Message, Refusal, WaterMark};
use std::alloc::Global;
use std::test::Fail;

fn send_one(alloc: Global) -> Result<(), Refusal> {
    let estimate = Estimate {
        overhead: 96,
        unknown: 8,
    };
    let mut connection = Connection::new(alloc, WaterMark::new(32768, 65536)?, estimate);
    let _written = connection.write(Message::Block(Bytes::copy_from_slice(alloc, b"hello")?))?;
    let _flushed = connection.flush()?;
    let _taken = connection.take_sent(5)?;
    Ok(())
}

#[test]
fn the_first_program_sends_its_block(rt: HostRuntime) -> Result<(), Fail> {
    send_one(rt.alloc())?;
    Ok(())
}
