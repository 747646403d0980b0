//! Where threads of a test wait for one another.

use std::sync::atomic::{AtomicU64, Ordering};
use std::thread::sleep;
use std::time::{Clock, Duration};

/// What was waited for did not come.
#[derive(Clone, Copy, Debug, PartialEq, Eq)]
pub struct Late;

/// Asks each millisecond whether a number has come that is not less, ten thousand times.
pub fn wait_for<R: Clock>(rt: &R, number: &AtomicU64, least: u64) -> Result<(), Late> {
    for _ in 0..10_000u32 {
        if number.load(Ordering::SeqCst) >= least {
            return Ok(());
        }
        sleep(rt, Duration::from_millis(1));
    }
    Err(Late)
}
