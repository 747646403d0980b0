//! Gates that say in one place what is done at which moment of which writer.

use ob_pool::{Gate, Stuck};
use std::sync::Wait;
use std::time::Clock;

/// When a gate is asked: by which writer, and at which of its steps.
#[derive(Clone, Copy)]
pub enum Moment {
    /// Before a command.
    Before(u32, usize),
    /// Between the charge of a write and its call, with what all writers have handed off then.
    During(u32, usize, u64),
    /// After the answer to a command.
    After(u32, usize),
}

/// Whether a writer goes on. `Stuck` ends it, unless its command is answered by then.
pub type GoesOn = Result<(), Stuck>;

/// What is done at the moments of a drive.
pub trait Moments {
    /// Does what is to be done at a moment.
    fn at<R: Wait + Clock>(&self, rt: &R, moment: Moment) -> GoesOn;
}

/// The gate of these moments.
#[derive(Drop)]
pub struct GateOf<M>(pub M);

impl<M: Moments> Gate for GateOf<M> {
    fn before<R: Wait + Clock>(&self, rt: &R, writer: u32, step: usize) -> GoesOn {
        self.0.at(rt, Moment::Before(writer, step))
    }

    fn during<R: Wait + Clock>(&self, rt: &R, writer: u32, step: usize, total: u64) -> GoesOn {
        self.0.at(rt, Moment::During(writer, step, total))
    }

    fn after<R: Wait + Clock>(&self, rt: &R, writer: u32, step: usize) {
        let _ = self.0.at(rt, Moment::After(writer, step));
    }
}
