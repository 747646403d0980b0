//! Seats that are cut in two and made one. No word changes.
ghost use Rattle.std.specs.Prelude.{◌≡◌, ◌<◌, []};
ghost use Rattle.ob_budget.specs.Account.{kept_account, given_account, joined_account};
ghost use Rattle.ob_budget.specs.Ruled.{IsSeatOf, IsSameSeat};

use super::Budget;
use crate::account::Account;
use crate::parts::{Divide, Merge, Part, Spent};
use atomic_table::Seat;

impl Budget {
    /// Gives some of its seats to a new one. How many is for the proof alone.
    pub(crate) fn divide_seat<S: Part>(
        &self,
        seat: &mut Seat<(), Account>,
        _seats: u64,
    ) -> Seat<(), Account>
        requires budget { IsSeatOf self.now seat.old }
        requires part { S.seats ≡ _seats }
        requires given { 0 < _seats }
        requires kept { _seats < seat.old.me.0.seats }
        ensures seat { IsSameSeat seat.old seat.new }
        ensures kept { seat.new.me ≡ (kept_account _seats seat.old.me.0, seat.old.me.1) }
        ensures other { result.table_id ≡ seat.old.table_id }
        ensures given { result.me ≡ (given_account _seats seat.old.me.0, []) }
    {
        self.table.shared.split_seat::<Divide<S>>(seat)
    }

    /// Takes another seat into this one.
    pub(crate) fn merge_seats<S: Spent>(
        &self,
        seat: &mut Seat<(), Account>,
        other: Seat<(), Account>,
    )
        requires budget { IsSeatOf self.now seat.old }
        requires other { IsSeatOf self.now other }
        requires slots { other.me.1 ≡ [] }
        requires some_seat { 0 < seat.old.me.0.seats }
        requires spent { S.account ≡ other.me.0 }
        ensures seat { IsSameSeat seat.old seat.new }
        ensures both { seat.new.me ≡ (joined_account seat.old.me.0 other.me.0, seat.old.me.1) }
    {
        self.table.shared.join_seat::<Merge<S>>(seat, other)
    }
}
