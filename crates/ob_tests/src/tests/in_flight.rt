//! Bytes in flight of two connections, as `docs/calls.md` shows them.

use ob_callers::in_flight::two_connections;
use std::test::Fail;

/// Each of two words ends by its own lane, one while the other is charged.
#[test]
fn two_connections_end(rt: HostRuntime) -> Result<(), Fail> {
    assert_eq!(rt; two_connections(&rt, rt.alloc()), Ok(true));
    Ok(())
}
