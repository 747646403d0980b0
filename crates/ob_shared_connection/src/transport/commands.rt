//! The calls that take flushed messages away, each of which takes the lock for it.
ghost use Rattle.std.specs.Prelude.{◌≡◌, false, IsOk};
ghost use Rattle.ob_types.specs.declared.command.Command.TheVariants as command;
ghost use Rattle.ob_types.specs.declared.promise.Outcome.TheVariants.{Success, Failed};
ghost use Rattle.ob_connection.specs.Obeying.{removed_reply};
ghost use Rattle.ob_shared_connection.specs.Calls.{AlwaysCovered, GivingUp, IsCall, Makes, ObeyingFreely, Taking};
ghost use Rattle.ob_shared_connection.specs.Calls.{TakingQuietly, UnderLock, giving_up};
ghost use Rattle.ob_shared_connection.specs.Sending.{AreInFront};

use crate::commands;
use crate::transport::Transport;
use ob_connection::{Removed, Taken};
use ob_types::{Cause, Refusal};
use std::sync::Wait;

impl Transport {
    /// Takes the first flushed message away, as sent, as `Connection::remove`.
    pub fn remove<R: Wait>(&mut self, rt: &R) -> Result<Removed, Refusal>
        ensures { UnderLock self.old (Makes (ObeyingFreely removed_reply) command.Remove result) self.new }
    {
        self.caller.call(rt, commands::Remove)
    }

    /// Takes the first flushed message away, as failed, as `Connection::remove_with`.
    pub fn remove_with<R: Wait>(&mut self, rt: &R, cause: Cause) -> Result<Removed, Refusal>
        ensures { UnderLock self.old (Makes (ObeyingFreely removed_reply) (command.RemoveWith cause) result) self.new }
    {
        self.caller.call(rt, commands::RemoveWith(cause))
    }

    /// Takes *n* bytes off the flushed blocks in front, as sent, as `Connection::take_sent`.
    ///
    /// It is accepted if as many bytes were in front when this transport had the lock last, as when it gathered them:
    /// nobody else takes a flushed message away, and none can close the connection meanwhile. So gather, let go, write to
    /// the socket, and then take away what it took.
    pub fn take_sent<R: Wait>(&mut self, rt: &R, n: u64) -> Result<Taken, Refusal>
        ensures takes { UnderLock self.old (Makes (Taking Success) (command.RemoveBytes n) result) self.new }
        ensures accepted { AreInFront self.old n → IsOk result }
    {
        self.caller.call(rt, commands::TakeSent(n))
    }

    /// Takes all flushed messages away, as failed, as `Connection::fail_flushed`.
    pub fn fail_flushed<R: Wait>(
        &mut self,
        rt: &R,
        cause: Cause,
        notify: bool,
    ) -> Result<Taken, Refusal>
        ensures { UnderLock self.old (Makes (TakingQuietly (Failed cause) (notify ≡ false)) (command.FailFlushed cause notify) result) self.new }
    {
        self.caller.call(rt, commands::FailFlushed(cause, notify))
    }

    /// Fails what is flushed and closes the connection, as `Connection::give_up`: two calls of the list.
    pub fn give_up<R: Wait>(&mut self, rt: &R, cause: Cause) -> Result<Taken, Refusal>
        ensures { UnderLock self.old
            (λ before after. IsCall AlwaysCovered (GivingUp cause) (giving_up cause) before result after) self.new }
    {
        self.caller.call(rt, commands::GiveUp(cause))
    }
}
