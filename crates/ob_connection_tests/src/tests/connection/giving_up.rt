//! What lack of memory leaves, and what giving up reports.

use super::{flushed, four_bytes, open};
use ob_connection::Taken;
use ob_types::{Cause, Message, Refusal};
use std::test::Fail;

#[test]
fn a_refused_write_changes_nothing_and_all_is_given_up(rt: HostRuntime) -> Result<(), Fail> {
    let mut connection = open(rt.alloc())?;
    let mut accepted = 0u64;
    for _ in 0..40 {
        let before = connection.look();
        match connection.write(four_bytes()) {
            Ok(_written) => accepted = accepted.saturating_add(1),
            Err(refused) => {
                let is_back = matches!(refused.message, Message::Block(_));
                assert_eq!(rt;
                    (refused.refusal, is_back, connection.look()),
                    (Refusal::NoMemory, true, before)
                );
            }
        }
    }
    let told = |all: Taken| (all.ids(), all.count, all.change);
    assert_eq!(rt;
        (
            connection.flush(),
            connection.give_up(Cause(7)).map(told),
            connection.give_up(Cause(7)).map(told),
        ),
        (
            flushed(accepted),
            Ok((0..accepted, accepted, None)),
            Err(Refusal::Closed),
        )
    );
    drop(connection);
    Ok(())
}
