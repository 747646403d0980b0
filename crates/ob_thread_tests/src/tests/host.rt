//! What a test is given of the machine.

use ob_shared::{Named, SharedBuffer};
use std::alloc::AllocGlobal;
use std::process::Abort;
use std::sync::Wait;
use std::thread::Threads;
use std::time::Clock;

/// A handle by which threads are started, wait and sleep, with the global allocator.
pub trait Host: Threads + Wait + Clock + Abort + AllocGlobal + Sync {}

impl<R: Threads + Wait + Clock + Abort + AllocGlobal + Sync> Host for R {}

/// A shared buffer, and the handle by which those who play over it wait.
#[derive(Drop)]
pub struct Hosted<'b, L: Named, R> {
    pub rt: &'b R,
    pub buffer: &'b SharedBuffer<L>,
}
