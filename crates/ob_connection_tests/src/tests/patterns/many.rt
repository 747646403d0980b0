//! The same to many, and from several threads.

use crate::tests::connection::sending::Slow;
use crate::tests::connection::{four_bytes, open};
use bytes::Bytes;
use ob_patterns::{
    Reached, broadcast, forward, forwarded, most_frame_bytes, respond_from_any_thread,
};
use ob_shared_connection::{Handle, WriteFault};
use ob_types::{Cause, Estimate, Refusal, WaterMark};
use std::test::Fail;

#[test]
fn a_closed_and_a_slow_one_are_left_out(rt: HostRuntime) -> Result<(), Fail> {
    let mut all = [
        open(rt.alloc())?,
        open(rt.alloc())?,
        open(rt.alloc())?,
        open(rt.alloc())?,
    ];
    let _closed = all[1].close(Cause(7))?;
    for _ in 0..3 {
        let _written = all[2].write(four_bytes())?;
    }
    let reached = broadcast(&mut all, &Bytes::from_static(b"four"));
    let [first, second, third, last] = &all;
    let totals = [first, second, third, last].map(|one| one.look().total);
    let sizes = [first, second, third, last].map(|one| one.look().size);
    assert_eq!(rt;
        (reached, totals, sizes),
        (
            Reached {
                got: 2,
                unwritable: 1,
                refused: 1
            },
            [100, 0, 300, 100],
            [1, 0, 0, 1]
        )
    );
    drop(all);
    Ok(())
}

#[test]
fn a_thread_writes_and_the_one_with_the_socket_sends(rt: HostRuntime) -> Result<(), Fail> {
    let estimate = Estimate {
        overhead: 96,
        unknown: 8,
    };
    let mut transport = Handle::open(
        rt.alloc(),
        WaterMark::new(100, 200)?,
        estimate,
    )?.into_transport();
    let mut socket = Slow::new(rt.alloc(), false);
    let four = || Bytes::from_static(b"four");
    let mut writer = transport.another()?;
    let first = respond_from_any_thread(&rt, &mut writer, four());
    let mut other = transport.another()?;
    let second = respond_from_any_thread(&rt, &mut other, four());
    let sent = [0; 3].map(|_| {
        transport
            .send_once(&rt, &mut socket, 64, 65536)
            .map(|sent| sent.bytes)
            .ok()
    });
    let _closed = transport.give_up(&rt, Cause(7))?;
    let late = respond_from_any_thread(&rt, &mut writer, four());
    assert_eq!(rt;
        (
            [first, second].map(|done| done.map(|done| done.written.id).ok()),
            sent,
            socket.log.as_slice(),
            late.err().map(|refused| refused.why),
        ),
        (
            [Some(0), Some(1)],
            [Some(3), Some(1), Some(1)],
            b"fourf".as_slice(),
            Some(WriteFault::Refused(Refusal::Closed)),
        )
    );
    drop((transport, writer, other, socket));
    Ok(())
}

#[test]
fn the_send_that_makes_the_other_side_writable_is_told(rt: HostRuntime) -> Result<(), Fail> {
    let mut connection = open(rt.alloc())?;
    let mut socket = Slow::new(rt.alloc(), false);
    socket.room = 100;
    let room = most_frame_bytes(&connection, 96);
    let _reads = [0; 3].map(|_| forward(&mut connection, Bytes::from_static(b"four")).ok());
    let none = most_frame_bytes(&connection, 0);
    // three bytes and one for each message: below 100 once the third is gone
    let told = [0; 6].map(|_| {
        connection
            .send_once(&mut socket, 8, 100)
            .map(|sent| forwarded(&sent))
            .ok()
    });
    let (no, yes) = (Some(false), Some(true));
    assert_eq!(rt;
        (room, none, told),
        (Some(104), None, [no, no, no, no, no, yes])
    );
    drop((connection, socket));
    Ok(())
}
