//! The cap, and the order of refusals.

use super::{opened, write};
use bytes::Bytes;
use ob_lifecycle::{NotWritten, WriteFault};
use ob_types::{Cause, Message, Refusal};
use std::test::Fail;

#[test]
fn a_write_past_the_cap_comes_back(rt: HostRuntime) -> Result<(), Fail> {
    let mut connection = opened(rt.alloc(), 96)?;
    for _ in 0..10u32 {
        write(&mut connection)?;
    }
    assert_eq!(rt; connection.connection().look().total, 1000);
    let Err(NotWritten { why, message }) = connection.write(Message::Block(Bytes::from_static(b"")))
    else {
        return Err(Fail::new("1000 bytes are pending"));
    };
    assert_eq!(rt; why, WriteFault::Full);
    assert!(rt; matches!(message, Message::Block(_)));
    assert!(rt; connection.flush().answer.is_ok());
    assert!(rt; connection.take_sent(4).answer.is_ok());
    assert_eq!(rt; write(&mut connection), Ok(()));
    assert_eq!(rt; write(&mut connection), Err(WriteFault::Full));
    Ok(())
}

#[test]
fn refusals_come_in_their_order(rt: HostRuntime) -> Result<(), Fail> {
    let mut connection = opened(rt.alloc(), 96)?;
    for _ in 0..10u32 {
        write(&mut connection)?;
    }
    let Err(NotWritten { why, message: _ }) = connection.write(Message::Region(1 << 63)) else {
        return Err(Fail::new("it is too long"));
    };
    assert_eq!(rt; why, WriteFault::Refused(Refusal::Oversize));
    assert!(rt; !connection.finish());
    assert_eq!(rt; write(&mut connection), Err(WriteFault::Finishing));
    assert!(rt; connection.give_up(Cause(1)).finished);
    assert_eq!(rt;
        write(&mut connection),
        Err(WriteFault::Refused(Refusal::Closed))
    );
    Ok(())
}
