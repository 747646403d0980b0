//! What lies under the lock.
ghost use Rattle.std.specs.Prelude.{◌≡◌, ◌<◌, IfErr, IfOk, None, OnErr, OnOk};
ghost use Rattle.ob_shared_connection.specs.Calls.{Continues};
ghost use Rattle.ob_shared_connection.specs.Values.{HoldsFor, IsUnder, LacksRoom, PassesRoom, SparesAtMost, TakesFor};
ghost use Rattle.ob_shared_connection.specs.Values.{TellsIf, cover_of, held_by};

use crate::act::Act;
use ob_budget::{Pressure, RaiseFault};
use ob_connection::Connection;
use ob_covered::Cover;
use std::alloc::Global;

/// What lies under the lock: the connection, and the cover of what is pending of it, if it was opened within a budget.
#[derive(Drop)]
pub struct Carried {
    pub connection: Connection,
    pub cover: Option<Box<Cover, Global>>,
}

impl Carried {
    /// The bytes that may be pending, if the seat of a cover says it.
    pub fn room(&self) -> Option<u64>
        ensures { result ≡ held_by (cover_of self.now) }
    {
        match &self.cover {
            None => None,
            Some(cover) => Some(cover.held()),
        }
    }

    /// Does something to the connection, with what its seat holds.
    #[inline(always)]
    pub fn act<A: Act>(&mut self, act: A) -> Result<A::Answer, A::Fault>
        requires { IsUnder self.old.connection (cover_of self.old) }
        ensures does { A.does act self.old.connection result self.new.connection }
        ensures goes_on { OnOk result (Continues self.old.connection (A.commands act) self.new.connection) }
        ensures refused { OnErr result (self.new ≡ self.old) }
        ensures cover { cover_of self.new ≡ cover_of self.old }
        ensures under { IsUnder self.new.connection (cover_of self.new) }
        ensures lacks { IfErr result (λ fault. A.uncovered fault →
            PassesRoom self.old.connection (A.commands act) (held_by (cover_of self.old))) }
    {
        let room = self.room();
        self.connection.stands_for_some_commands();
        let _before = self.connection.look();
        let answer = act.act(&mut self.connection, room);
        let _after = self.connection.look();
        answer
    }

    /// Has the seat hold these bytes beside what is pending.
    pub fn take(&mut self, bytes: u64) -> Result<Option<Pressure>, RaiseFault>
        requires under { IsUnder self.old.connection (cover_of self.old) }
        requires small { bytes < 4294967296 }
        ensures connection { self.new.connection ≡ self.old.connection }
        ensures under { IsUnder self.new.connection (cover_of self.new) }
        ensures told { IfOk result (λ told. TellsIf (cover_of self.old) told (cover_of self.new)) }
        ensures enough { OnOk result (HoldsFor self.old.connection bytes (cover_of self.new)) }
        ensures sparing { TakesFor self.old.connection bytes (cover_of self.old) (cover_of self.new) }
        ensures untold { OnErr result (TellsIf (cover_of self.old) None (cover_of self.new)) }
        ensures short { IfErr result (λ fault.
            LacksRoom self.old.connection (cover_of self.old) bytes fault (cover_of self.new)) }
    {
        let Some(mut cover) = self.cover.take() else {
            return Ok(None);
        };
        self.connection.stands_for_some_commands();
        let needed = u64::from(self.connection.look().total) + bytes;
        let taken = cover.take(needed);
        self.cover = Some(cover);
        taken
    }

    /// Gives back what the seat holds above two quanta beside what is pending, down to one.
    pub fn settle(&mut self) -> Option<Pressure>
        requires { IsUnder self.old.connection (cover_of self.old) }
        ensures connection { self.new.connection ≡ self.old.connection }
        ensures under { IsUnder self.new.connection (cover_of self.new) }
        ensures told { TellsIf (cover_of self.old) result (cover_of self.new) }
        ensures spares { SparesAtMost 2 self.old.connection (cover_of self.old) (cover_of self.new) }
    {
        let Some(mut cover) = self.cover.take() else {
            return None;
        };
        self.connection.stands_for_some_commands();
        let pending = u64::from(self.connection.look().total);
        let told = cover.settle(pending);
        self.cover = Some(cover);
        told
    }

    /// Gives back all that the seat holds above what is pending.
    pub fn rest(&mut self) -> Option<Pressure>
        requires { IsUnder self.old.connection (cover_of self.old) }
        ensures connection { self.new.connection ≡ self.old.connection }
        ensures under { IsUnder self.new.connection (cover_of self.new) }
        ensures told { TellsIf (cover_of self.old) result (cover_of self.new) }
        ensures spares { SparesAtMost 0 self.old.connection (cover_of self.old) (cover_of self.new) }
    {
        let Some(mut cover) = self.cover.take() else {
            return None;
        };
        self.connection.stands_for_some_commands();
        let pending = u64::from(self.connection.look().total);
        let told = cover.keep(pending);
        self.cover = Some(cover);
        told
    }

    /// The connection, and its cover.
    pub fn into_parts(self) -> (Connection, Option<Cover>)
        ensures { result ≡ (self.connection, cover_of self) }
    {
        let Carried { connection, cover } = self;
        match cover {
            None => (connection, None),
            Some(cover) => (connection, Some(Box::into_inner(cover))),
        }
    }
}
