//! An example of each call of `docs/calls.md` that no other test shows, with what it returns.

mod buffer;
mod connection;
mod words;

use bytes::Bytes;
use ob_types::{Estimate, Message, Refusal, WaterMark};

/// A message that counts 100 bytes: four, and the overhead.
fn four_bytes() -> Message {
    Message::Block(Bytes::from_static(b"four"))
}

/// What each message counts beside its own bytes.
const ESTIMATE: Estimate = Estimate {
    overhead: 96,
    unknown: 8,
};

/// Stop above 200 bytes, and go on below 100.
fn marks() -> Result<WaterMark, Refusal> {
    WaterMark::new(100, 200)
}
