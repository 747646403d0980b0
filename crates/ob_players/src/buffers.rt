//! The buffers that play the lines of `run`.

ghost use Rattle.std.specs.Prelude.{◌≤◌};
ghost use Rattle.ob_types.specs.Limits.{greatest_overhead, greatest_unknown};

use crate::words::{MOST, NoAnswer, Words};
use ob_history::Recorded;
use ob_seq::Buffer;
use ob_types::{Command, Estimate, Refusal, Reply, WaterMark};
use std::alloc::Global;

/// A buffer, however it is kept.
pub trait Kept {
    /// Gives a command. `HistoryFull` means that the buffer was not given it.
    fn give(&mut self, command: Command) -> Result<Reply, Refusal>;
    /// The buffer, to be looked at.
    fn buffer(&self) -> &Buffer;
}

/// By `apply`, which makes the calls of the commands' names.
impl Kept for Buffer {
    fn give(&mut self, command: Command) -> Result<Reply, Refusal> {
        self.apply(command)
    }

    fn buffer(&self) -> &Buffer {
        self
    }
}

/// The options of a command line.
#[derive(Clone, Copy)]
pub struct Options {
    pub low: u32,
    pub high: u32,
    pub overhead: u32,
    pub unknown: u32,
    pub limit: u32,
    pub task: Option<u32>,
    pub callers: u32,
}

impl Options {
    /// The options that these words give; any other is what `ob_tool` takes without it, by the table of `docs/formats.md`.
    pub fn of(command: &str) -> Result<Options, NoAnswer> {
        let mut options = Options {
            low: 32768,
            high: 65536,
            overhead: 96,
            unknown: 8,
            limit: 1048576,
            task: None,
            callers: 2,
        };
        let mut words = Words::of(command);
        for _ in 0..MOST {
            let word = words.word();
            if word.starts_with("--") {
                options.set(word, words.small()?);
            }
        }
        Ok(options)
    }

    /// Sets the option of a name, if it is one of these.
    fn set(&mut self, name: &str, value: u32) {
        match name {
            "--low" => self.low = value,
            "--high" => self.high = value,
            "--overhead" => self.overhead = value,
            "--unknown" => self.unknown = value,
            "--limit" => self.limit = value,
            "--task" => self.task = Some(value),
            "--callers" => self.callers = value,
            _ => {}
        }
    }

    pub fn marks(self) -> Result<WaterMark, Refusal> {
        WaterMark::new(self.low, self.high)
    }

    pub fn estimate(self) -> Estimate
        ensures overhead { result.overhead ≤ greatest_overhead }
        ensures unknown { result.unknown ≤ greatest_unknown }
    {
        Estimate {
            overhead: self.overhead.min(65535),
            unknown: self.unknown.min(65535),
        }
    }

    /// A recorded buffer with these options.
    pub fn recorded(self, alloc: Global) -> Result<Recorded, Refusal> {
        let limit = self.limit.clamp(1, 1048576);
        Ok(Recorded::new(alloc, self.marks()?, self.estimate(), limit))
    }

    pub fn buffer(self, alloc: Global) -> Result<Buffer, Refusal> {
        Ok(Buffer::new(alloc, self.marks()?, self.estimate()))
    }
}
