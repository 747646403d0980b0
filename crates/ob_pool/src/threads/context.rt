use ob_lanes::Words;
use ob_shared::{Named, SharedBuffer};
use ob_transport::Limits;
use ob_types::Estimate;
use std::alloc::Global;
use std::sync::atomic::AtomicBool;
use std::thread::Parker;

/// What all writers of a drive use together, and its transport.
#[derive(Drop)]
pub struct Context<L: Named> {
    pub alloc: Global,
    pub shared: SharedBuffer<L>,
    pub words: Words,
    pub estimate: Estimate,
    /// The bytes that a hand-off adds to the estimate of a message.
    pub task: u32,
    /// Whether a writer waits, before it writes, while writers are stopped.
    pub heed: bool,
    /// How much a pass of the transport offers at once.
    pub limits: Limits,
    /// The most passes of the transport.
    pub turns: u64,
    /// How many writers there are.
    pub writers: u32,
    /// Whether the transport has begun.
    pub begun: AtomicBool,
    /// Whether the transport sends no more beside the writers.
    pub stopped: AtomicBool,
    /// Whether all writers have ended.
    pub ended: AtomicBool,
    /// Where the transport rests, until it is told that all writers have ended.
    pub rested: Parker,
}
