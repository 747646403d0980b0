//! Writes of bytes.

use super::{opened, write};
use ob_lifecycle::{Count, ManagedConnection, WriteFault};
use ob_types::{Cause, Message, Refusal};
use std::test::Fail;

/// Writes a copy of four bytes, once more if memory was refused.
fn copy(connection: &mut ManagedConnection) -> Result<(), WriteFault> {
    match connection.write_copy(b"four") {
        Ok(_written) => Ok(()),
        Err(WriteFault::Refused(Refusal::NoMemory)) => connection.write_copy(b"four").map(|_| ()),
        Err(why) => Err(why),
    }
}

#[test]
fn a_copy_is_refused_as_a_block_is(rt: HostRuntime) -> Result<(), Fail> {
    let mut connection = opened(rt.alloc(), 96)?;
    for _ in 0..9u32 {
        write(&mut connection)?;
    }
    assert_eq!(rt;
        connection.write_copy(b"fives").err(),
        Some(WriteFault::Full)
    );
    assert_eq!(rt; copy(&mut connection), Ok(()));
    let ten = Count {
        messages: 10,
        bytes: 1000,
    };
    assert_eq!(rt; connection.numbers().accepted, ten);
    assert!(rt; !connection.finish());
    assert_eq!(rt;
        connection.write_copy(b"four").err(),
        Some(WriteFault::Finishing)
    );
    assert!(rt; connection.give_up(Cause(1)).finished);
    assert_eq!(rt;
        connection.write_copy(b"four").err(),
        Some(WriteFault::Refused(Refusal::Closed))
    );
    Ok(())
}

/// Writes parts of four bytes as one message, once more if memory was refused.
fn put_parts(connection: &mut ManagedConnection) -> Result<(), WriteFault> {
    let parts: [&[u8]; 3] = [b"fo", b"", b"ur"];
    match connection.write_parts(&parts) {
        Ok(_written) => Ok(()),
        Err(WriteFault::Refused(Refusal::NoMemory)) => connection.write_parts(&parts).map(|_| ()),
        Err(why) => Err(why),
    }
}

#[test]
fn parts_are_one_message(rt: HostRuntime) -> Result<(), Fail> {
    let mut connection = opened(rt.alloc(), 96)?;
    let put = put_parts(&mut connection);
    let _flushed = connection.flush().answer;
    let front = match connection.connection().current() {
        Some(Message::Block(block)) => block.as_slice() == b"four".as_slice(),
        _ => false,
    };
    let long: [&[u8]; 2] = [&[0; 800], b"five."];
    let past = connection.write_parts(&long).err();
    let numbers = connection.numbers();
    let told = (
        put,
        front,
        past,
        numbers.accepted.messages,
        numbers.accepted.bytes,
        numbers.refusals.full,
    );
    assert_eq!(rt; told, (Ok(()), true, Some(WriteFault::Full), 1, 100, 1));
    Ok(())
}
