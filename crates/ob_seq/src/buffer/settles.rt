ghost use Rattle.std.specs.Prelude.{◌≡◌, ◌≤◌, not, count_by, length, take};
ghost use Rattle.ob_types.specs.declared.promise.Cause.{Cause};
ghost use Rattle.ob_types.specs.declared.promise.Outcome.{Outcome};
ghost use Rattle.ob_seq.specs.Pending.{Settles};
ghost use Rattle.ob_seq.specs.Steps.Commands.{bytes_step, cancel_step, closing_step, removal_step, step_of};
ghost use Rattle.ob_seq.specs.Steps.Step.{settled_by_step, settled_open};

use crate::buffer::Buffer;
use ob_types::{Command, PromiseId};

impl Buffer {
    /// How many promises a command would settle: the number of settlements in its reply, and 0 if it would be refused.
    /// It changes nothing, does not allocate, and goes no further than the command would. A command that is no write
    /// and settles at most four promises does not allocate either. Our own.
    pub fn settles(&self, command: &Command) -> u32
        ensures { Settles self.now command.now result }
    {
        self.step_settles(command)
    }

    /// How many promises the step of a command would settle.
    fn step_settles(&self, command: &Command) -> u32
        ensures { result ≡ settled_by_step self.now (step_of command.now self.now) }
    {
        if self.contents.is_closed() {
            return 0;
        }
        match command {
            Command::Write(_) => 0,
            Command::Flush => 0,
            Command::Remove => self.removal_settles(),
            Command::RemoveWith(_) => self.removal_settles(),
            Command::RemoveBytes(n) => self.bytes_settle(*n),
            Command::Progress(_) => 0,
            Command::Cancel(id) => self.cancel_settles(*id),
            Command::FailFlushed(_, _) => self.unvoided(self.contents.line_count()),
            Command::Close(_) => self.closing_settles(),
            Command::UserBit(_, _) => 0,
            Command::SetMarks(_) => 0,
        }
    }

    /// How many promises a removal of the front would settle: none if it was voided, or if nothing is in line.
    fn removal_settles(&self) -> u32
        ensures { (outcome : Outcome) → result ≡ settled_open (removal_step outcome self.now) }
    {
        if self.contents.line_count() == 0 {
            return 0;
        }
        u32::from(!self.contents.is_taken_back(0))
    }

    /// How many promises a cancellation would settle: none if the promise does not wait, or is unknown.
    fn cancel_settles(&self, id: PromiseId) -> u32
        ensures { result ≡ settled_open (cancel_step id.0 self.now) }
    {
        let at = id.0 as usize;
        if at < self.promise_count() && self.state_at(at).is_waiting() {
            return 1;
        }
        0
    }

    /// How many promises a removal of *n* bytes would settle: none if the blocks in front hold fewer.
    fn bytes_settle(&self, n: u64) -> u32
        ensures { result ≡ settled_open (bytes_step n self.now) }
    {
        match self.contents.find_cut(n) {
            Some(cut) => self.unvoided(cut.whole),
            None => 0,
        }
    }

    /// How many promises a close would settle: none if a flushed message is left.
    fn closing_settles(&self) -> u32
        ensures { (cause : Cause) → result ≡ settled_open (closing_step cause self.now) }
    {
        if self.contents.line_count() > 0 {
            return 0;
        }
        self.contents.to_settle_count(self.contents.count()) as u32
    }

    /// How many of the first `count` in line were not voided.
    fn unvoided(&self, count: usize) -> u32
        requires { count ≤ length self.now.line }
        ensures { result ≡ count_by (λ entry. not entry.voided) (take count self.now.line) }
    {
        self.contents.to_settle_count(count) as u32
    }
}
