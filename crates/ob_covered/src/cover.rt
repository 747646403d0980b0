ghost use Rattle.std.specs.Prelude.{◌≡◌, ◌≤◌, ◌<◌, ◌+◌, ◌*◌, IfOk, IfErr, OnErr, None, Option};
ghost use Rattle.std.specs.Arc.{arc_value};
ghost use Rattle.ob_covered.specs.Cover.{CoverValue, Tells, IsShort, HoldsAtMost, TakesSparingly};
ghost use Rattle.ob_covered.specs.Inside.{cover_of, IsCover};

mod cuts;

use ob_budget::{Budget, Pressure, RaiseFault, Seat};
use std::marker::Model;
use std::sync::Arc;

/// A seat with its budget, which covers the bytes of one connection.
///
/// A raise takes the quantum, if what lacks is less and the room is there for it, so that most writes touch no atomic
/// word. What is spare above two quanta is given back, down to one.
#[derive(Drop)]
pub struct Cover {
    pub(crate) budget: Arc<Budget>,
    pub(crate) seat: Seat,
    pub(crate) quantum: u64,
}

impl Model for Cover {
    ghost Value = { CoverValue };

    ghost view = { cover_of };

    ghost invariant = { IsCover };
}

impl Cover {
    /// A cover by this seat, which is one of this budget. The quantum is in bytes.
    pub fn new(budget: Arc<Budget>, seat: Seat, quantum: u64) -> Cover
        requires { seat.budget ≡ arc_value budget }
        ensures { result ≡ record { seat = seat; quantum = quantum } }
    {
        Cover {
            budget,
            seat,
            quantum,
        }
    }

    /// The budget that its seat is of.
    pub fn budget(&self) -> &Arc<Budget>
        ensures { arc_value result.now ≡ self.now.seat.budget }
    {
        &self.budget
    }

    /// The bytes that the seat holds.
    pub fn held(&self) -> u64
        ensures { result ≡ self.now.seat.account.held }
    {
        self.seat.held()
    }

    /// Lets the seat hold this many bytes at least, and returns the turn of pressure that this made. It takes what it lacks,
    /// or the quantum, and nothing if it holds as many. The fault is that of a raise by what it lacked; then it holds what
    /// it held.
    #[inline(always)]
    pub fn take(&mut self, needed: u64) -> Result<Option<Pressure>, RaiseFault>
        ensures covered { IfOk result (λ _. needed ≤ self.new.seat.account.held) }
        ensures no_less { self.old.seat.account.held ≤ self.new.seat.account.held }
        ensures sparing { TakesSparingly needed self.old self.new }
        ensures told { IfOk result (λ told. Tells self.old told self.new) }
        ensures untold { OnErr result (Tells self.old None self.new) }
        ensures short { IfErr result (λ fault. IsShort needed fault self.old self.new) }
    {
        if needed <= self.seat.held() {
            return Ok(None);
        }
        self.raise(needed)
    }

    /// The same of a seat that holds less: most writes find the quantum.
    #[cold]
    #[inline(never)]
    fn raise(&mut self, needed: u64) -> Result<Option<Pressure>, RaiseFault>
        requires { self.old.seat.account.held < needed }
        ensures covered { IfOk result (λ _. needed ≤ self.new.seat.account.held) }
        ensures no_less { self.old.seat.account.held ≤ self.new.seat.account.held }
        ensures sparing { TakesSparingly needed self.old self.new }
        ensures told { IfOk result (λ told. Tells self.old told self.new) }
        ensures untold { OnErr result (Tells self.old None self.new) }
        ensures short { IfErr result (λ fault. IsShort needed fault self.old self.new) }
    {
        let lacks = needed - self.seat.held();
        if lacks >= self.quantum {
            return self.seat.raise(&self.budget, lacks);
        }
        if let Ok(pressure) = self.seat.raise(&self.budget, self.quantum) {
            return Ok(pressure);
        }
        self.seat.raise(&self.budget, lacks)
    }

    /// Lets the seat hold just this many bytes, if others do not come in between too often.
    #[cold]
    #[inline(never)]
    pub fn keep(&mut self, bytes: u64) -> Option<Pressure>
        requires { bytes ≤ self.old.seat.account.held }
        ensures covered { bytes ≤ self.new.seat.account.held }
        ensures told { Tells self.old result self.new }
        ensures given { HoldsAtMost bytes self.old self.new }
    {
        let spare = self.seat.held() - bytes;
        if spare == 0 {
            return None;
        }
        match self.seat.lower(&self.budget, spare) {
            Ok(pressure) => pressure,
            Err(_busy) => None,
        }
    }

    /// Gives back what is spare above two quanta beside these bytes, down to one.
    #[inline(always)]
    pub fn settle(&mut self, bytes: u64) -> Option<Pressure>
        requires { bytes ≤ self.old.seat.account.held }
        ensures covered { bytes ≤ self.new.seat.account.held }
        ensures told { Tells self.old result self.new }
        ensures thrifty { HoldsAtMost (bytes + 2 * self.new.quantum) self.old self.new }
    {
        if self.seat.held() - bytes <= self.quantum.saturating_mul(2) {
            return None;
        }
        self.keep(bytes + self.quantum)
    }
}
