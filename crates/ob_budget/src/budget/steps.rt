//! One atomic step each, made by the seat that is passed.
ghost use Rattle.std.specs.Prelude.{◌≡◌, ◌≢◌, ◌≤◌, []};
ghost use Rattle.ob_budget.specs.Account.{MayFind, most_seats, after_read, after_loss, after_move};
ghost use Rattle.ob_budget.specs.Ruled.{IsSeatOf, IsSameSeat, MayMove, glanced};

use super::Budget;
use crate::account::Account;
use crate::plays::{FirstRead, Move, Read};
use crate::rule::WORD;
use atomic_table::Seat;

impl Budget {
    /// Reads the word.
    pub(crate) fn load(&self, seat: &mut Seat<(), Account>) -> u64
        requires { IsSeatOf self.now seat.old }
        ensures seat { IsSameSeat seat.old seat.new }
        ensures read { seat.new.me ≡ (after_read result seat.old.me.0, seat.old.me.1) }
        ensures may { MayFind seat.old.me.0 result }
        ensures few { seat.old.me.0.seats ≤ most_seats }
    {
        self.table.shared.load::<Read>(seat, WORD)
    }

    /// Reads the word by a seat that is made for it.
    pub(crate) fn load_anew(&self) -> (u64, Seat<(), Account>)
        ensures budget { result.1.table_id ≡ self.now.table_id }
        ensures slots { result.1.me.1 ≡ [] }
        ensures read { result.1.me.0 ≡ glanced self.now.bounds result.0 }
        ensures may { MayFind result.1.me.0 result.0 }
    {
        self.table.shared.load_new_seat::<FirstRead>(WORD)
    }

    /// Puts the next word in the place of what the seat knows last, if that stands still; else it is a read, which is lost.
    pub(crate) fn exchange(&self, seat: &mut Seat<(), Account>, last: u64, next: u64) -> u64
        requires budget { IsSeatOf self.now seat.old }
        requires last { seat.old.me.0.last ≡ last }
        requires next { MayMove seat.old.me.0 next }
        ensures seat { IsSameSeat seat.old seat.new }
        ensures won { result ≡ last → seat.new.me ≡ (after_move next seat.old.me.0, seat.old.me.1) }
        ensures lost { result ≢ last → seat.new.me ≡ (after_loss result seat.old.me.0, seat.old.me.1) }
        ensures may { MayFind seat.old.me.0 result }
    {
        self.table
            .shared
            .compare_exchange::<Move>(seat, WORD, last, next)
    }
}
