//! What each kind of step tells the seat that makes it.
ghost use Rattle.ob_budget.specs.Ruled.{ToldRead, ToldMove, ToldGlance};

use crate::account::Account;
use atomic_table::Play;

pub struct Read;

impl Play<(), Account> for Read {
    ghost then = { λ _ old found new. ToldRead old found new };
}

/// An exchange, by which a seat is raised or lowered.
pub struct Move;

impl Play<(), Account> for Move {
    ghost then = { ToldMove };
}

/// A read by a seat that is made for it.
pub struct FirstRead;

impl Play<(), Account> for FirstRead {
    ghost then = { λ _ first found new. ToldGlance first.0 found new.0 };
}
