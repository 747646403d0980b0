//! Of `ob_connection`: its looks, and why a write would be refused.

use super::{ESTIMATE, four_bytes, marks};
use bytes::Bytes;
use ob_connection::{Connection, length_of_parts};
use ob_types::{Cause, Message, Refusal};
use std::alloc::Global;
use std::io::IoSlice;
use std::test::Fail;

/// Two blocks of four bytes that are flushed, of which three bytes are sent.
fn three_sent(alloc: Global) -> Result<Connection, Refusal> {
    let mut connection = Connection::new(alloc, marks()?, ESTIMATE);
    let _first = connection.write(four_bytes())?;
    let _second = connection.write(four_bytes())?;
    let _flushed = connection.flush()?;
    let _taken = connection.take_sent(3)?;
    Ok(connection)
}

/// The pieces for a vectored write are of what is left, in order.
#[test]
fn a_vectored_write_is_given_what_is_left(rt: HostRuntime) -> Result<(), Fail> {
    let connection = three_sent(rt.alloc())?;
    let mut pieces = [IoSlice::new(b""), IoSlice::new(b""), IoSlice::new(b"")];
    let count = connection.gather_into(&mut pieces, 1000);
    assert_eq!(rt;
        (connection.is_empty(), connection.front(), count),
        (false, Some(0), 2)
    );
    assert!(rt; connection.current() == Some(&Message::Block(Bytes::from_static(b"r"))));
    assert_eq!(rt;
        [pieces[0].as_slice(), pieces[1].as_slice()],
        [&b"r"[..], &b"four"[..]]
    );
    Ok(())
}

/// A write is asked about before its bytes are copied.
#[test]
fn a_write_is_refused_before_its_bytes_are_copied(rt: HostRuntime) -> Result<(), Fail> {
    let mut connection = Connection::new(rt.alloc(), marks()?, ESTIMATE);
    assert_eq!(rt;
        (
            connection.refusal_of_block(b"four"),
            connection.refusal_of_length(2147483552),
            length_of_parts(&[b"he", b"", b"ad"]),
            connection.close(Cause(1)).is_ok(),
            connection.refusal_of_block(b"four"),
        ),
        (
            None,
            Some(Refusal::Oversize),
            Some(4),
            true,
            Some(Refusal::Closed)
        )
    );
    drop(connection);
    Ok(())
}
