//! The commands of a history, given to a new buffer.

ghost use Rattle.std.specs.Prelude.{◌≡◌, ◌<◌, ◌≤◌, ◌↔◌, List, length, take, IsTrue, IfOk, IsOk, IsOkUnless, OnOk};
ghost use Rattle.ob_types.specs.declared.command.Command.{Command};
ghost use Rattle.ob_seq.specs.Looks.{look_after};
ghost use Rattle.ob_seq.specs.Pending.{StandsFor};
ghost use Rattle.ob_history.specs.Inside.{IsReplay};
ghost use Rattle.ob_history.specs.History.{accepted_commands, IsLegal, IsSeenIn};

use crate::answer;
use crate::record::Record;
use crate::recorded::Recorded;
use crate::seen::Seen;
use ob_seq::{Buffer, Look};
use ob_types::Refusal;
use std::alloc::AllocError;

/// A buffer that was given the commands of the first `place` records of a history.
#[derive(Drop)]
pub struct Replay {
    buffer: Buffer,
    place: usize,
}

impl Recorded {
    /// A replay before the first record. It does not allocate.
    pub(crate) fn replay(&self) -> Replay
        ensures start { result.place ≡ 0 }
        ensures replay { IsReplay self.now.settings self.now.records result }
    {
        Replay {
            buffer: Buffer::new(*self.records.allocator(), self.marks, self.estimate),
            place: 0,
        }
    }

    /// Starts the replay again if it is past this place.
    fn turn_back(&self, replay: &mut Replay, place: usize)
        requires { IsReplay self.now.settings self.now.records replay.old }
        ensures kept { IsReplay self.now.settings self.now.records replay.new }
        ensures not_past { replay.new.place ≤ place }
    {
        if replay.place > place {
            *replay = self.replay();
        }
    }

    /// What `check_seen` returns. The replay goes on to the look, and from the first record only if it is past it.
    pub(crate) fn check_along(&self, replay: &mut Replay, seen: &Seen) -> Result<bool, Refusal>
        requires replay { IsReplay self.now.settings self.now.records replay.old }
        ensures kept { OnOk result (IsReplay self.now.settings self.now.records replay.new) }
        ensures answer { IfOk result (λ answer. IsTrue answer ↔ IsSeenIn self.now.settings self.now.records seen.now) }
        ensures no_memory { IsOkUnless result Refusal.NoMemory }
        ensures frugal { length self.now.records < seen.now.place → IsOk result }
    {
        let place = seen.place as usize;
        if place > self.records.len() {
            return Ok(false);
        }
        self.turn_back(replay, place);
        go_on(&mut replay.buffer, &self.records, replay.place, place)?;
        replay.place = place;
        Ok(shows(&replay.buffer, seen.look))
    }
}

/// Whether a buffer shows a look.
fn shows(buffer: &Buffer, look: Look) -> bool
    ensures { (commands : List Command) → StandsFor buffer.now commands
        → IsTrue result ↔ (look ≡ look_after buffer.now.settings commands) }
{
    buffer.look() == look
}

/// Gives a buffer the commands of the records of a legal history from one place to another. It fails only if it is out
/// of memory.
fn go_on(buffer: &mut Buffer, records: &[Record], from: usize, to: usize) -> Result<(), AllocError>
    requires legal { IsLegal buffer.old.settings records.now }
    requires stands { StandsFor buffer.old (accepted_commands (take from records.now)) }
    requires forward { from ≤ to }
    requires within { to ≤ length records.now }
    ensures settings { OnOk result (buffer.new.settings ≡ buffer.old.settings) }
    ensures stands { OnOk result (StandsFor buffer.new (accepted_commands (take to records.now))) }
{
    for index in from..to {
        let _answer = answer::give(buffer, records[index].command.copy()?)?;
    }
    Ok(())
}
