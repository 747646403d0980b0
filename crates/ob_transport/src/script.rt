ghost use Rattle.std.specs.List.{concat};
ghost use Rattle.std.specs.Prelude.{◌≡◌, ◌<◌, ◌≤◌, ◌+◌, ◌-◌, ◌^◌, ◌++◌, drop, length, min, take, IfErr, IfOk, IsErrOf, OnErr};
ghost use Rattle.std.specs.Prelude.{OnOk, vec_len};
ghost use Rattle.ob_transport.specs.Sent.{Plays, new_script, next_step, with_step_used, with_failure, with_more_bytes};
ghost use Rattle.ob_transport.specs.Sent.{with_more_units, OfBytes, OfUnits};

use crate::sink::{Sink, SinkFault};
use bytes::Bytes;
use std::alloc::AllocError;
use std::marker::Model;

/// The number of the fault that stands for a refusal of the allocator.
const NO_MEMORY: u32 = 12;

/// What a sink of a script does in one call.
#[derive(Clone, Copy, Debug, PartialEq, Eq)]
pub enum SinkStep {
    /// It takes at most *n* of what is offered: bytes of blocks, or units of a region.
    Take(u64),
    /// It fails with this number.
    Fail(u32),
}

/// A sink in memory that does what a script says, and keeps what it took.
#[derive(Debug, Drop)]
pub struct ScriptSink {
    steps: Vec<SinkStep>,
    /// How many of the steps are used.
    used: usize,
    /// How much is taken at most once all steps are used.
    after: u64,
    taken: Vec<u8>,
    units: u128,
    failures: u64,
}

impl Model for ScriptSink {
    ghost use Rattle.ob_transport.specs.Sent.{Script};

    ghost Value = { Script };

    ghost use Rattle.ob_transport.specs.Inside.{script_of};

    ghost view = { script_of };
}

impl ScriptSink {
    /// A sink whose calls do one of these steps each, and which takes at most `after` in a call once they are used up.
    /// It does not allocate.
    pub fn new(steps: Vec<SinkStep>, after: u64) -> ScriptSink
        ensures { result ≡ new_script steps.items after }
    {
        let taken = Vec::new(*steps.allocator());
        ScriptSink {
            steps,
            used: 0,
            after,
            taken,
            units: 0,
            failures: 0,
        }
    }

    /// The bytes that were taken, in order. It does not allocate.
    pub fn taken(&self) -> &[u8]
        ensures { result.now ≡ self.now.content.bytes }
    {
        self.taken.as_slice()
    }

    /// How many units of regions were taken. It does not allocate.
    pub fn units(&self) -> u128
        ensures { result ≡ self.now.content.units }
    {
        self.units
    }

    /// How many calls failed. It does not allocate.
    pub fn failures(&self) -> u64
        ensures { result ≡ self.now.content.failures }
    {
        self.failures
    }

    /// Uses the next step.
    fn next_step(&mut self) -> SinkStep
        ensures step { result ≡ next_step self.old }
        ensures used { self.new ≡ with_step_used self.old }
    {
        if self.used < self.steps.len() {
            let step = self.steps[self.used];
            self.used += 1;
            step
        } else {
            SinkStep::Take(self.after)
        }
    }

    /// Fails with this number and counts it, unless the count is at its top.
    fn fail(&mut self, number: u32) -> Result<(), SinkFault>
        ensures counted { IfErr result (λ fault. (fault.0 ≡ number)
            × (self.new ≡ record self.old { content = with_failure self.old.content })) }
        ensures at_top { OnOk result ((self.old.content.failures ≡ 18446744073709551615) × (self.new ≡ self.old)) }
    {
        if self.failures < u64::MAX {
            self.failures += 1;
            return Err(SinkFault(number));
        }
        Ok(())
    }

    /// Keeps at most `most` bytes of the beginning of blocks, and returns how many.
    fn keep(&mut self, blocks: &[Bytes], most: u64) -> Result<usize, AllocError>
        ensures count { IfOk result (λ count. count ≡ min most (length (concat blocks.now))) }
        ensures kept { OnOk result (self.new ≡ record self.old {
          content = with_more_bytes (take most (concat blocks.now)) self.old.content;
        }) }
        ensures refused { OnErr result (self.new ≡ self.old) }
    {
        let before = self.taken.len();
        if let Err(error) = push_beginning(&mut self.taken, blocks, most) {
            self.taken.truncate(before);
            return Err(error);
        }
        Ok(self.taken.len() - before)
    }
}

/// Adds at most `most` bytes of the beginning of blocks. If memory is refused, some of them may stand there.
fn push_beginning(bytes: &mut Vec<u8>, blocks: &[Bytes], most: u64) -> Result<(), AllocError>
    ensures added { OnOk result (bytes.new.items ≡ bytes.old.items ++ take most (concat blocks.now)) }
    ensures before { take (vec_len bytes.old) bytes.new.items ≡ bytes.old.items }
    ensures longer { vec_len bytes.old ≤ vec_len bytes.new }
{
    let mut left = most;
    for block in blocks {
        let count = left.min(block.len() as u64);
        bytes.extend_from_slice(&block.as_slice()[..count as usize])?;
        left -= count;
    }
    Ok(())
}

impl Sink for ScriptSink {
    ghost content = { λ sink. sink.content };

    ghost does = { Plays };

    /// Does what the next step says of all bytes of the blocks. `SinkFault(12)` comes also if memory was refused. A
    /// failure that can no longer be counted takes nothing, and reports no fault.
    fn take(&mut self, blocks: &[Bytes]) -> Result<usize, SinkFault>
        ensures within { IfOk result (λ count. count ≤ length (concat blocks.now)) }
        ensures taken { IfOk result (λ count. self.new.content
            ≡ with_more_bytes (take count (concat blocks.now)) self.old.content) }
        ensures failed { OnErr result (self.new.content ≡ with_failure self.old.content) }

        ensures plays { Plays self.old (OfBytes (concat blocks.now)) result self.new }
    {
        match self.next_step() {
            SinkStep::Take(most) => match self.keep(blocks, most) {
                Ok(count) => Ok(count),
                Err(_) => {
                    self.fail(NO_MEMORY)?;
                    Ok(0)
                }
            },
            SinkStep::Fail(number) => {
                self.fail(number)?;
                Ok(0)
            }
        }
    }

    /// Does what the next step says of the units. Units that can no longer be counted are not taken, and a failure that
    /// cannot takes nothing, and reports no fault.
    fn take_region(&mut self, units: u64) -> Result<u64, SinkFault>
        ensures within { IfOk result (λ count. count ≤ units) }
        ensures taken { IfOk result (λ count. self.new.content ≡ with_more_units count self.old.content) }
        ensures failed { OnErr result (self.new.content ≡ with_failure self.old.content) }

        ensures plays { Plays self.old (OfUnits units) result self.new }
    {
        match self.next_step() {
            SinkStep::Take(most) => {
                let count = most.min(units);
                let Some(sum) = self.units.checked_add(u128::from(count)) else {
                    return Ok(0);
                };
                self.units = sum;
                Ok(count)
            }
            SinkStep::Fail(number) => {
                self.fail(number)?;
                Ok(0)
            }
        }
    }
}
