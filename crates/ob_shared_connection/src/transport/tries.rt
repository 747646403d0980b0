//! The calls of a transport that are made if the lock is free. They wait for nobody, and wake nobody: each tells whom to
//! wake.
ghost use Rattle.std.specs.Prelude.{◌≡◌, ◌≢◌, ◌<◌, IfErr, IfOk, IfSome, IsOk, None, OnErr};
ghost use Rattle.ob_types.specs.declared.command.Command.TheVariants as command;
ghost use Rattle.ob_types.specs.declared.promise.Outcome.TheVariants.{Success};
ghost use Rattle.ob_seq.specs.Effect.{bytes_in};
ghost use Rattle.ob_shared_connection.specs.Calls.{IsCall, Makes, Taking, UnderLock, Gathers, IsLook};
ghost use Rattle.ob_shared_connection.specs.Sending.{AreInFront};
ghost use Rattle.ob_shared_connection.specs.Values.{Waited};
ghost use Rattle.ob_shared_connection.specs.declared.bell.Waiter.TheVariants as waiter;

use crate::act::Act;
use crate::ask::Ask;
use crate::bell::Work;
use crate::moment::Moment;
use crate::transport::Transport;
use crate::wakes::Wakes;
use crate::{commands, looks};
use bytes::Bytes;
use ob_connection::Taken;
use ob_types::Refusal;

impl Transport {
    /// Makes the call of an act, one of `commands` or of `writes`, if the lock is free; else the act comes back.
    pub fn try_act<A: Act>(&mut self, act: A) -> Result<(Result<A::Answer, A::Fault>, Wakes), A>
        ensures under { IfOk result (λ told. UnderLock self.old
            (λ before after. IsCall A.uncovered (A.does act) (A.commands act) before told.0 after) self.new) }
        ensures covered { IfOk result (λ told. IfErr told.0 (λ fault. A.uncovered fault → self.old.budget ≢ None)) }
        ensures busy { OnErr result (self.new ≡ self.old) }
        ensures back { IfErr result (λ again. again ≡ act) }
    {
        self.caller.try_call(act)
    }

    /// Takes one of `looks` if the lock is free; else what was asked comes back.
    pub fn try_ask<A: Ask>(&mut self, ask: A) -> Result<(A::Answer, Wakes), A>
        ensures under { IfOk result (λ told. UnderLock self.old (IsLook (A.shows ask) told.0) self.new) }
        ensures busy { OnErr result (self.new ≡ self.old) }
        ensures back { IfErr result (λ again. again ≡ ask) }
    {
        self.caller.try_look(ask)
    }

    /// The flushed blocks in front that can be sent at once, as `gather`. None if the lock is taken.
    pub fn try_gather(
        &mut self,
        max_count: u32,
        max_bytes: u32,
    ) -> Option<(Result<Vec<Bytes>, Refusal>, Wakes)>
        ensures under { IfSome result (λ told. UnderLock self.old
            (IsLook (Gathers (λ blocks. blocks.items) max_count max_bytes) told.0) self.new) }
        ensures in_front { IfSome result (λ told. IfOk told.0 (λ blocks.
            0 < bytes_in blocks.items → AreInFront self.new (bytes_in blocks.items))) }
        ensures busy { result ≡ None → self.new ≡ self.old }
    {
        let Ok(told) = self.caller.try_look(looks::Gather(max_count, max_bytes)) else {
            return None;
        };
        Some(told)
    }

    /// Takes *n* bytes off the flushed blocks in front, as sent, as `take_sent`, and is accepted if that is. None if the
    /// lock is taken.
    pub fn try_take_sent(&mut self, n: u64) -> Option<(Result<Taken, Refusal>, Wakes)>
        ensures under { IfSome result (λ told. UnderLock self.old
            (Makes (Taking Success) (command.RemoveBytes n) told.0) self.new) }
        ensures accepted { AreInFront self.old n → IfSome result (λ told. IsOk told.0) }
        ensures busy { result ≡ None → self.new ≡ self.old }
    {
        let Ok(told) = self.caller.try_call(commands::TakeSent(n)) else {
            return None;
        };
        Some(told)
    }

    /// Whether a flushed message is there or the connection is closed, for a poll in place of a wait. If neither is so, it
    /// leaves word that the transport waits: once one is, the next to let the lock go is told so by the `work` of its
    /// `Wakes`, as `Handle::try_wait_writable` has it. None if the lock is taken.
    pub fn try_wait_for_work(&mut self) -> Option<(Moment, Wakes)>
        ensures waits { IfSome result (λ told. UnderLock self.old (Waited waiter.Sender told.0) self.new) }
        ensures busy { result ≡ None → self.new ≡ self.old }
    {
        self.caller.try_wait::<Work>()
    }

    /// Wakes whom a call has told.
    pub fn wake(&self, wakes: Wakes) {
        wakes.pay(&self.caller.shared);
    }
}
