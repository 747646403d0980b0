ghost use Rattle.std.specs.Prelude.{IsOk};

use std::sync::Wait;
use std::time::Clock;

/// A gate held a writer for too long. It ends the writer.
#[derive(Clone, Copy, Debug, PartialEq, Eq)]
pub struct Stuck;

/// Where writers can be held, so that a test can bring two threads to one point. Our own.
///
/// Writers and steps are counted from 0. A call may wait, and may not wait for ever: a writer that is held holds up the
/// end of its drive. An implementation may leave out a call, which then is that of [`OpenGate`].
pub trait Gate {
    /// Before each command of a writer. `Stuck` ends the writer.
    fn before<R: Wait + Clock>(&self, rt: &R, writer: u32, step: usize) -> Result<(), Stuck> {
        OpenGate.before(rt, writer, step)
    }

    /// Between the charge of a write and its call, with the bytes that are handed off then by all writers together.
    /// `Stuck` ends the writer, and its charge is discharged.
    fn during<R: Wait + Clock>(
        &self,
        rt: &R,
        writer: u32,
        step: usize,
        total: u64,
    ) -> Result<(), Stuck> {
        OpenGate.during(rt, writer, step, total)
    }

    /// After the answer to each command of a writer.
    fn after<R: Wait + Clock>(&self, _rt: &R, _writer: u32, _step: usize) {}
}

/// A gate that never holds.
#[derive(Clone, Copy, Debug, PartialEq, Eq)]
pub struct OpenGate;

impl Gate for OpenGate {
    fn before<R: Wait + Clock>(&self, _rt: &R, _writer: u32, _step: usize) -> Result<(), Stuck>
        ensures { IsOk result }
    {
        Ok(())
    }

    fn during<R: Wait + Clock>(
        &self,
        rt: &R,
        writer: u32,
        step: usize,
        _total: u64,
    ) -> Result<(), Stuck>
        ensures { IsOk result }
    {
        self.before(rt, writer, step)
    }
}
