//! The looks, each of which takes the lock.
ghost use Rattle.ob_shared_connection.specs.Calls.{UnderLock, IsLook};

use crate::ask::Ask;
use crate::handle::Handle;
use std::sync::Wait;

impl Handle {
    /// Takes one of `looks`, as `ask(rt, looks::IsWritable)`: what the look of that name of a `Connection` returns.
    pub fn ask<R: Wait, A: Ask>(&mut self, rt: &R, ask: A) -> A::Answer
        ensures { UnderLock self.old (IsLook (A.shows ask) result) self.new }
    {
        self.caller.look(rt, ask)
    }
}
