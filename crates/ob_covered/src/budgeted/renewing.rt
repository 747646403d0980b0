//! What a budgeted connection does with its seat alone.

ghost use Rattle.std.specs.Prelude.{◌≡◌, ◌≤◌, []};
ghost use Rattle.ob_types.specs.Limits.{greatest_overhead, greatest_unknown};
ghost use Rattle.ob_connection.specs.Connected.{StandsFor};
ghost use Rattle.ob_budget.specs.Calls.{HasLooked};
ghost use Rattle.ob_budget.specs.Account.{is_pressed, total_of};
ghost use Rattle.ob_covered.specs.Cover.{Tells, HoldsAtMost};

use super::Budgeted;
use ob_budget::{Look, Pressure};
use ob_connection::Connection;
use ob_types::{Estimate, WaterMark};
use std::alloc::Global;

impl Budgeted {
    /// Lets the connection go, with all that is pending of it, and puts one with nothing written in its place, as `new`
    /// makes it. It gives back all that the seat holds, unless other seats come in between 65,536 times.
    pub fn renew(&mut self, alloc: Global, marks: WaterMark, estimate: Estimate) -> Option<Pressure>
        requires overhead { estimate.overhead ≤ greatest_overhead }
        requires unknown { estimate.unknown ≤ greatest_unknown }
        ensures settings { self.new.connection.unsent.settings ≡ record { marks = marks; estimate = estimate } }
        ensures stands { StandsFor self.new.connection [] }
        ensures told { Tells self.old.cover result self.new.cover }
        ensures given { HoldsAtMost 0 self.old.cover self.new.cover }
    {
        let connection = Connection::new(alloc, marks, estimate);
        let _look = connection.look();
        connection.stands_for_some_commands();
        self.connection = connection;
        self.cover.keep(0)
    }

    /// The bytes that all seats of its budget hold, and whether pressure stands, read in one load by its own seat.
    pub fn look_at_budget(&mut self) -> Look
        ensures connection { self.new.connection ≡ self.old.connection }
        ensures looked { HasLooked self.old.cover.seat self.new.cover.seat }
        ensures quantum { self.new.cover.quantum ≡ self.old.cover.quantum }
        ensures total { result.total ≡ total_of self.new.cover.seat.account.last }
        ensures is_pressed { result.is_pressed ≡ is_pressed self.new.cover.seat.account.last }
    {
        self.cover.look()
    }
}
