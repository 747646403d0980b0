ghost use Rattle.std.specs.Prelude.{◌≡◌, ◌≢◌, ◌∷◌, ◌++◌, [], drop, length, replicate, OnErr, OnOk};

use ob_types::Command;
use std::alloc::{AllocError, Global};
use std::marker::Model;

/// A command, and how often a writer gives it in a row.
#[derive(Debug, Drop)]
pub(crate) struct Run {
    pub command: Command,
    pub count: u32,
}

/// What one writer is to do, in this order: writes, flushes, cancellations, user bits, and marks that are set. Contracts
/// see it as the list of its commands, each of them a step. A command that is given several times in a row is kept once.
#[derive(Debug, Drop)]
pub struct Plan {
    pub(crate) runs: Vec<Run>,
    /// How many commands these are.
    count: usize,
}

impl Model for Plan {
    ghost use Rattle.std.specs.Prelude.{List};
    ghost use Rattle.ob_types.specs.declared.command.Command.{Command};
    ghost use Rattle.ob_pool.specs.Inside.{HasRuns, commands_of};

    ghost Value = { List Command };

    ghost view = { λ plan. commands_of plan.runs.items };

    ghost invariant = { λ plan. HasRuns plan.runs.items plan.count };
}

impl Plan {
    /// A plan without a command. It does not allocate.
    pub fn new(alloc: Global) -> Plan
        ensures { result ≡ [] }
    {
        Plan {
            runs: Vec::new(alloc),
            count: 0,
        }
    }

    /// Adds `count` times the same command. It fails only if it is out of memory, or there would be more commands than can
    /// be counted; then the plan is as it was.
    pub fn push(&mut self, command: Command, count: u32) -> Result<(), AllocError>
        ensures ok { OnOk result (self.new ≡ self.old ++ replicate count command) }
        ensures err { OnErr result (self.new ≡ self.old) }
    {
        if count == 0 {
            return Ok(());
        }
        let Some(all) = self.count.checked_add(count as usize) else {
            return Err(AllocError);
        };
        self.runs.push(Run { command, count })?;
        self.count = all;
        Ok(())
    }

    /// How many commands there are.
    pub(crate) fn len(&self) -> usize
        ensures { result ≡ length self.now }
    {
        self.count
    }

    /// The plan as it is carried out, before its first step.
    pub(crate) fn begin(self) -> Rest
        ensures { result ≡ self }
    {
        Rest {
            runs: self.runs,
            at: 0,
            done: 0,
        }
    }
}

/// What is left of a plan that is carried out. Contracts see it as the list of its commands.
#[derive(Drop)]
pub(crate) struct Rest {
    runs: Vec<Run>,
    /// The run of the next command.
    at: usize,
    /// How often that was given already.
    done: u32,
}

impl Model for Rest {
    ghost use Rattle.std.specs.Prelude.{List};
    ghost use Rattle.ob_types.specs.declared.command.Command.{Command};
    ghost use Rattle.ob_pool.specs.Inside.{IsWithinRun, commands_from};

    ghost Value = { List Command };

    ghost view = { λ rest. commands_from rest.runs.items rest.at rest.done };

    ghost invariant = { λ rest. IsWithinRun rest.runs.items rest.at rest.done };
}

impl Rest {
    /// The next command.
    pub fn command(&self) -> &Command
        requires { self.now ≢ [] }
        ensures { self.now ≡ result.now ∷ drop 1 self.now }
    {
        &self.runs[self.at].command
    }

    /// Goes past the next command.
    pub fn advance(&mut self)
        requires { self.old ≢ [] }
        ensures { self.new ≡ drop 1 self.old }
    {
        let left = self.runs[self.at].count - self.done;
        if left > 1 {
            self.done += 1;
        } else {
            self.at += 1;
            self.done = 0;
        }
    }
}
