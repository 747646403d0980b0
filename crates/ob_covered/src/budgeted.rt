ghost use Rattle.std.specs.Prelude.{◌≡◌, ◌≤◌, [], IfOk};
ghost use Rattle.ob_types.specs.Limits.{greatest_overhead, greatest_unknown};
ghost use Rattle.ob_connection.specs.Connected.{StandsFor};
ghost use Rattle.ob_covered.specs.Budgeted.{BudgetedValue, IsWithin, IsPending};
ghost use Rattle.ob_covered.specs.Cover.{CoverValue, Tells, HoldsAtMost};

mod ahead;
mod commands;
mod copying;
mod giving_up;
mod renewing;
mod sending;
mod settled;
mod write;

use crate::cover::Cover;
use crate::fault::Told;
use ob_budget::Pressure;
use ob_connection::Connection;
use ob_types::{Estimate, WaterMark};
use std::alloc::Global;
use std::marker::Model;

/// A connection whose pending bytes a seat of its own covers. Its calls return what those of the connection do, and the
/// turn of pressure that they made.
#[repr(C)]
#[derive(Drop)]
pub struct Budgeted {
    /// First, as what it begins with.
    connection: Connection,
    cover: Cover,
}

/// At each moment what is pending is at most what the seat holds.
impl Model for Budgeted {
    ghost Value = { BudgetedValue };

    ghost view = { λ budgeted. record { connection = budgeted.connection; cover = budgeted.cover } };

    ghost invariant = { λ budgeted. IsWithin budgeted.connection budgeted.cover.seat.account.held };
}

impl Budgeted {
    /// A connection with nothing written, as `Connection::new` makes it, under this cover.
    pub fn new(alloc: Global, marks: WaterMark, estimate: Estimate, cover: Cover) -> Budgeted
        requires overhead { estimate.overhead ≤ greatest_overhead }
        requires unknown { estimate.unknown ≤ greatest_unknown }
        ensures settings { result.connection.unsent.settings ≡ record { marks = marks; estimate = estimate } }
        ensures stands { StandsFor result.connection [] }
        ensures cover { result.cover ≡ cover }
    {
        let connection = Connection::new(alloc, marks, estimate);
        let _look = connection.look();
        connection.stands_for_some_commands();
        Budgeted { connection, cover }
    }

    /// The connection, for all its looks.
    pub fn connection(&self) -> &Connection
        ensures { result.now ≡ self.now.connection }
    {
        &self.connection
    }

    /// Notes where the newest entry lies, as `Connection::note_newest`. It changes nothing else.
    #[inline(always)]
    pub fn note_newest(&mut self)
        ensures { self.new ≡ self.old }
    {
        self.connection.note_newest();
    }

    /// The bytes that its seat holds: at least those that are pending.
    pub fn held(&self) -> u64
        ensures value { result ≡ self.now.cover.seat.account.held }
        ensures within { IsWithin self.now.connection result }
    {
        self.cover.held()
    }

    /// Gives back all that the seat holds above what is pending: for a connection that is idle. It does so unless other
    /// seats come in between 65,536 times.
    pub fn rest(&mut self) -> Option<Pressure>
        ensures connection { self.new.connection ≡ self.old.connection }
        ensures told { Tells self.old.cover result self.new.cover }
        ensures given { (now : _) → IsPending self.old.connection now → HoldsAtMost now self.old.cover self.new.cover }
    {
        self.connection.stands_for_some_commands();
        let pending = u64::from(self.connection.look().total);
        self.cover.keep(pending)
    }

    /// Lets the connection go, with all that is pending of it, and gives back all that its seat holds, unless other seats
    /// come in between 65,536 times. The cover is for the next connection.
    pub fn retire(self) -> Told<Cover>
        ensures told { Tells self.cover result.pressure result.answer }
        ensures given { HoldsAtMost 0 self.cover result.answer }
    {
        let Budgeted {
            connection: _,
            mut cover,
        } = self;
        let pressure = cover.keep(0);
        Told {
            answer: cover,
            pressure,
        }
    }
}
