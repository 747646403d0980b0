ghost use Rattle.std.specs.Prelude.{◌≡◌, ◌≤◌, false, [], List, IsTrue, IsErrOf};
ghost use Rattle.ob_types.specs.Limits.{greatest_overhead, greatest_unknown};
ghost use Rattle.ob_types.specs.Traits.{is_write};
ghost use Rattle.ob_types.specs.declared.command.Command.{Command};
ghost use Rattle.ob_seq.specs.Kept.{pending_of, IsKept};
ghost use Rattle.ob_seq.specs.Pending.{Pending, StandsFor, Obeys, takes_no_memory, SparesMemory};

mod commands;
mod looks;
mod settles;
mod take;

use crate::contents::Contents;
use crate::outcomes::Outcomes;
use ob_types::{Command, Estimate, Refusal, Reply, WaterMark};
use std::alloc::Global;
use std::marker::Model;

/// The most writes that a buffer accepts. Our own limit.
const MAX_WRITES: usize = 1048576;

/// What an application has written to a channel and the transport has not yet sent (Netty's
/// `ChannelOutboundBuffer`), for one thread.
#[derive(Debug, Drop)]
pub struct Buffer {
    contents: Contents,
    /// The outcomes of the messages that are gone, oldest first. A write takes the room for its own.
    gone: Outcomes,
}

/// Each buffer holds what some list of accepted commands leaves.
impl Model for Buffer {
    ghost Value = { Pending };

    ghost view = { pending_of };

    ghost invariant = { λ buffer. IsKept buffer.gone buffer.contents };
}

impl Buffer {
    /// An empty buffer. It does not allocate. The overhead and the size of unknown messages are at most 65535
    /// bytes.
    pub fn new(alloc: Global, marks: WaterMark, estimate: Estimate) -> Buffer
        requires overhead { estimate.overhead ≤ greatest_overhead }
        requires unknown { estimate.unknown ≤ greatest_unknown }
        ensures settings { result.settings ≡ record { marks = marks; estimate = estimate } }
        ensures stands { StandsFor result [] }
    {
        Buffer {
            contents: Contents::new(alloc, marks, estimate),
            gone: Outcomes::new(alloc),
        }
    }

    /// Each buffer stands for some list of accepted commands, so what its calls promise is promised of some list. It
    /// does nothing.
    pub fn stands_for_some_commands(&self)
        ensures { (commands : List Command) × StandsFor self.now commands }
    {
        let _contents = &self.contents;
    }

    /// Gives one command: the call of the same name.
    ///
    /// A refused command leaves the buffer as it was, and `Closed` refuses each one once the buffer is closed.
    /// `NoMemory` comes only if the allocator refused, and only for a write and for another command that settles more
    /// than four promises.
    pub fn apply(&mut self, command: Command) -> Result<Reply, Refusal>
        ensures obeys { Obeys self.old command result self.new }

        // Only some commands allocate.
        ensures frugal { IsTrue (takes_no_memory command) → ¬ IsErrOf result Refusal.NoMemory }
        ensures spares { is_write command ≡ false → SparesMemory self.old command result }
    {
        match command {
            Command::Write(message) => self.write(message),
            Command::Flush => self.flush(),
            Command::Remove => self.remove(),
            Command::RemoveWith(cause) => self.remove_with(cause),
            Command::RemoveBytes(n) => self.remove_bytes(n),
            Command::Progress(n) => self.progress(n),
            Command::Cancel(id) => self.cancel(id),
            Command::FailFlushed(cause, notify) => self.fail_flushed(cause, notify),
            Command::Close(cause) => self.close(cause),
            Command::UserBit(index, writable) => self.user_bit(index, writable),
            Command::SetMarks(marks) => self.set_marks(marks),
        }
    }
}
