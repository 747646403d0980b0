ghost use Rattle.std.specs.Prelude.{◌≡◌, ◌++◌, List, [], ◌∷◌, true, not, IfOk};
ghost use Rattle.ob_transport.specs.Sent.{new_script};
ghost use Rattle.ob_cli.specs.Drive.{drive_grammar, most_after, most_passes, steps_of};
ghost use Rattle.ob_cli.specs.Inside.{HasKept};
ghost use Rattle.ob_cli.specs.declared.drive.line.DriveLine.{DriveLine};

use crate::drive::line::{DriveLine, WriterLine};
use crate::drive::words::DriveWord;
use ob_script::{Grammar, LineFault, read_line};
use ob_transport::{ScriptSink, SinkStep};
use std::alloc::{AllocError, Global};

/// How much a call of the sink takes if no line tells it: all that can be offered.
const ALL: u64 = u64::MAX;

/// How many passes the transport makes at most if no line tells it.
const MOST_PASSES: u32 = 1000000;

/// What is kept of the lines of a drive script, while they are read.
#[derive(Drop)]
pub struct DriveSession {
    /// The lines of the writers.
    pub writers: Vec<WriterLine>,
    /// What the sink does in its first calls.
    pub steps: Vec<SinkStep>,
    /// How much each later call of the sink takes at most, if a line tells it.
    pub after: Option<u64>,
    /// How many passes the transport makes at most, if a line tells it.
    pub turns: Option<u32>,
}

impl DriveSession {
    /// A session before its first line.
    pub fn new(alloc: Global) -> DriveSession
        ensures fresh { HasKept result [] }
    {
        DriveSession {
            writers: Vec::new(alloc),
            steps: Vec::new(alloc),
            after: None,
            turns: None,
        }
    }

    /// How many passes the transport makes at most.
    pub fn most_passes(&self) -> u32
        ensures { (lines : List DriveLine) → HasKept self.now lines → result ≡ most_passes lines }
    {
        self.turns.unwrap_or(MOST_PASSES)
    }

    /// The sink of the script, before its first call.
    pub fn into_sink(self) -> ScriptSink
        ensures { (lines : List DriveLine) → HasKept self lines
            → result ≡ new_script (steps_of lines) (most_after lines) }
    {
        ScriptSink::new(self.steps, self.after.unwrap_or(ALL))
    }

    /// Keeps what a line tells, or returns `false` if the line is misplaced. It fails only out of memory. Of
    /// itself nothing is said then, nor after a misplaced line.
    pub fn keep(&mut self, line: DriveLine) -> Result<bool, AllocError>
        ensures fits { IfOk result (λ fits. (before : List DriveLine) → HasKept self.old before
            → fits ≡ not (drive_grammar.is_misplaced before line)) }
        ensures done { IfOk result (λ fits. fits ≡ true → (before : List DriveLine) → HasKept self.old before
            → HasKept self.new (before ++ line ∷ [])) }
    {
        match line {
            DriveLine::Writer(own) => self.writers.push(own)?,
            DriveLine::Sink(step) => self.steps.push(step)?,
            DriveLine::Then(most) => {
                if self.after.is_some() {
                    return Ok(false);
                }
                self.after = Some(most);
            }
            DriveLine::Turns(count) => {
                if self.turns.is_some() {
                    return Ok(false);
                }
                self.turns = Some(count);
            }
        }
        Ok(true)
    }
}

impl Grammar for DriveSession {
    type Line = DriveLine;

    ghost grammar = { drive_grammar };

    fn read(line: &[u8]) -> Result<DriveLine, LineFault> {
        read_line::<DriveWord>(line)
    }
}
