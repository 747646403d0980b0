ghost use Rattle.std.specs.Prelude.{◌≡◌, ◌≤◌, List, [], ◌∷◌};
ghost use Rattle.ob_types.specs.Limits.{greatest_overhead, greatest_unknown};
ghost use Rattle.ob_connection.specs.Connected.{Shrinks};
ghost use Rattle.ob_lifecycle.specs.Events.{Event, Finishing};
ghost use Rattle.ob_lifecycle.specs.Inside.{managed_of};
ghost use Rattle.ob_lifecycle.specs.Managed.{Brings, Managed, StandsFor, StandsForSome, opened_as};

mod commands;
mod copying;
mod giving_up;
mod looks;
mod parts;
mod sending;
mod ticking;
mod write;

use crate::ending::Ending;
use crate::limits::Limits;
use crate::strain::Strain;
use crate::tally::Tally;
use crate::watch::Watch;
use ob_connection::Connection;
use ob_types::{Estimate, WaterMark};
use std::alloc::Global;
use std::marker::Model;

/// A connection that ends in order, holds no more than its cap, names a peer that stalls, and counts what becomes of what
/// was written.
///
/// Its calls are those of `Connection`, and each promises besides which events it brings. A deadline is the caller's: once
/// it is over, `give_up` fails what is left.
#[repr(C)]
#[derive(Drop)]
pub struct ManagedConnection {
    /// First, as what it begins with.
    connection: Connection,
    limits: Limits,
    opened: u64,
    ending: Ending,
    tally: Tally,
    strain: Strain,
}

/// It stands for some list of events.
impl Model for ManagedConnection {
    ghost Value = { Managed };

    ghost view = { managed_of };

    ghost invariant = { λ managed. StandsForSome (managed_of managed) };
}

impl ManagedConnection {
    /// A connection with nothing written, as `Connection::new` makes it, held to these limits. The clock of the caller
    /// stands at `now`.
    pub fn new(
        alloc: Global,
        marks: WaterMark,
        estimate: Estimate,
        limits: Limits,
        now: u64,
    ) -> ManagedConnection
        requires overhead { estimate.overhead ≤ greatest_overhead }
        requires unknown { estimate.unknown ≤ greatest_unknown }
        ensures opened { opened_as result ≡ record {
          settings = record { marks = marks; estimate = estimate };
          limits = limits;
          now = now;
        } }
        ensures stands { StandsFor result [] }
    {
        ManagedConnection {
            connection: Connection::new(alloc, marks, estimate),
            limits,
            opened: now,
            ending: Ending {
                asked: false,
                over: false,
                watch: Watch::new(now),
            },
            tally: Tally::new(),
            strain: Strain::new(),
        }
    }

    /// Asks for the end: from now on no write is accepted, and everything else goes on. It returns whether the end is
    /// reached, since nothing is left; else the call returns it by which the last is gone that was accepted.
    pub fn finish(&mut self) -> bool
        ensures brings { Brings self.old (Finishing ∷ []) result self.new }
        ensures connection { self.new.connection ≡ self.old.connection }
    {
        self.ending.ask();
        self.ending.reach(self.connection.waiting_count())
    }

    /// As `Connection::shrink_to_fit`: for a connection that has sent all and is idle. It brings no event.
    pub fn shrink_to_fit(&mut self)
        ensures shrinks { Shrinks self.old.connection self.new.connection }
        ensures stands { (events : List Event) → StandsFor self.old events → StandsFor self.new events }
        ensures opened { opened_as self.new ≡ opened_as self.old }
    {
        self.connection.shrink_to_fit();
    }

    /// Notes where the newest entry lies, as `Connection::note_newest`. It changes nothing else.
    #[inline(always)]
    pub fn note_newest(&mut self)
        ensures { self.new ≡ self.old }
    {
        self.connection.note_newest();
    }

    /// Each managed connection stands for some list of events, so what its calls promise is promised of some list. It does
    /// nothing.
    pub fn stands_for_some_events(&self)
        ensures { StandsForSome self.now }
    {
        let _ending = &self.ending;
    }
}
