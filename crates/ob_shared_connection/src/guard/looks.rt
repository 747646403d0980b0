//! The looks, under the lock.
ghost use Rattle.ob_shared_connection.specs.Calls.{IsLook};

use crate::ask::Ask;
use crate::guard::Guard;

impl Guard {
    /// Takes one of `looks`, as `ask(looks::IsWritable)`: what the look of that name of a `Connection` returns.
    pub fn ask<A: Ask>(&mut self, ask: A) -> A::Answer
        ensures { IsLook (A.shows ask) result self.old self.new }
    {
        self.caller.ask(ask)
    }
}
