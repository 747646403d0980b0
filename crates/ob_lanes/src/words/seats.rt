//! Seats that are cut in two and made one.
ghost use Rattle.std.specs.Prelude.{◌≡◌, [], None};
ghost use Rattle.ob_core.specs.Step.{IsFree};
ghost use Rattle.ob_lanes.specs.Calls.{split_fault};
ghost use Rattle.ob_lanes.specs.Inside.{kept_facts, given_facts, both_facts};
ghost use Rattle.ob_lanes.specs.Ruled.{IsSeatOf, IsSameSeat};

use super::Words;
use crate::facts::Facts;
use crate::parts::{Divide, Merge, Part, Spent};
use atomic_table::Seat;

impl Words {
    /// Gives this room and these bits to a new seat. Both are for the proof alone: no word changes.
    pub(crate) fn divide_seat<S: Part>(
        &self,
        seat: &mut Seat<(), Facts>,
        _room: u32,
        _bits: u32,
    ) -> Seat<(), Facts>
        requires words { IsSeatOf self.now seat.old }
        requires free { IsFree seat.old.me.0.lane }
        requires part { (S.room ≡ _room) × (S.bits ≡ _bits) }
        requires fits { split_fault seat.old.me.0.lane S.room S.bits ≡ None }
        ensures seat { IsSameSeat seat.old seat.new }
        ensures kept { seat.new.me ≡ (kept_facts _room _bits seat.old.me.0, seat.old.me.1) }
        ensures other { result.table_id ≡ seat.old.table_id }
        ensures given { result.me ≡ (given_facts _room _bits seat.old.me.0, []) }
    {
        self.table.shared.split_seat::<Divide<S>>(seat)
    }

    /// Takes another seat into this one. No word changes.
    pub(crate) fn merge_seats<S: Spent>(&self, seat: &mut Seat<(), Facts>, other: Seat<(), Facts>)
        requires words { IsSeatOf self.now seat.old }
        requires other { IsSeatOf self.now other }
        requires slots { other.me.1 ≡ [] }
        requires free { IsFree seat.old.me.0.lane × IsFree other.me.0.lane }
        requires spent { S.facts ≡ other.me.0 }
        ensures seat { IsSameSeat seat.old seat.new }
        ensures both { seat.new.me ≡ (both_facts seat.old.me.0 other.me.0, seat.old.me.1) }
    {
        self.table.shared.join_seat::<Merge<S>>(seat, other)
    }
}
