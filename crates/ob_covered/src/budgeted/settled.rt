//! What each call does at its end that lets the pending bytes stay or fall.

ghost use Rattle.std.specs.Prelude.{◌≡◌, ◌≤◌, ℕ};
ghost use Rattle.ob_covered.specs.Budgeted.{BudgetedValue, IsPending, IsThrifty, IsWithin};
ghost use Rattle.ob_covered.specs.Cover.{Tells};

use crate::cover::Cover;
use crate::fault::Told;
use ob_connection::Connection;

/// Settles the cover by what is pending, after a call that answered this.
#[inline(always)]
pub fn settled<T>(connection: &Connection, cover: &mut Cover, answer: T) -> Told<T>
    requires { (now : ℕ) → IsPending connection.now now → now ≤ cover.old.seat.account.held }
    ensures answer { result.answer ≡ answer }
    ensures within { IsWithin connection.now cover.new.seat.account.held }
    ensures told { Tells cover.old result.pressure cover.new }
    ensures thrifty { (old : BudgetedValue) → old.cover ≡ cover.old
        → IsThrifty old (record { connection = connection.now; cover = cover.new }) }
{
    let pending = u64::from(connection.look().total);
    let pressure = cover.settle(pending);
    Told { answer, pressure }
}
