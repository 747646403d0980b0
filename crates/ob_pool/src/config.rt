use ob_transport::Limits;
use ob_types::{Estimate, WaterMark};

/// The bytes that a hand-off adds to the estimate of a message, unless a drive is told otherwise (Netty's
/// `DEFAULT_WRITE_TASK_SIZE_OVERHEAD`).
pub const TASK_OVERHEAD: u32 = 32;

/// What a drive is given beside its plans and its sink.
#[derive(Clone, Copy, Debug, PartialEq, Eq)]
pub struct Config {
    /// The water marks, in bytes: those that the buffer is opened with, and those of the bytes that are handed off. A
    /// plan that sets marks sets the buffer's alone: what is handed off goes by these for the whole drive.
    pub marks: WaterMark,
    /// How messages are counted. Each of its two numbers is at most 65535 bytes.
    pub estimate: Estimate,
    /// The bytes that a hand-off adds to the estimate of a message, at most 65535 (Netty's write task size overhead,
    /// `TASK_OVERHEAD` by default).
    pub task: u32,
    /// The most records of the history, 1 to 1048576. Our own.
    pub limit: u32,
    /// How much a pass of the transport offers to the sink at once, both at least 1.
    pub limits: Limits,
    /// The most passes that the transport makes. Our own.
    pub turns: u64,
    /// Whether the writers heed the marks: each, before it writes, waits while the buffer is unwritable and something is
    /// flushed that the transport may still send. It goes on if nothing is flushed, if the buffer is closed, and when
    /// the transport has ended, so each plan is carried out all the same. Our own.
    pub heed: bool,
}
