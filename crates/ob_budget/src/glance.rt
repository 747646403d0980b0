ghost use Rattle.std.specs.Prelude.{◌≡◌};
ghost use Rattle.ob_budget.specs.Ruled.{glance_of, IsGlance};
ghost use Rattle.ob_budget.specs.Account.{GlanceValue, is_pressed, total_of};

use crate::account::Account;
use crate::pressure::Look;
use crate::word::look_of;
use atomic_table::Seat;
use std::marker::Model;

/// What a load with no seat has read. It is 8 bytes, and no call makes one but that which reads.
#[derive(Drop)]
pub struct Glance {
    pub(crate) seat: Seat<(), Account>,
    pub(crate) word: u64,
}

impl Model for Glance {
    ghost Value = { GlanceValue };

    ghost view = { glance_of };

    ghost invariant = { IsGlance };
}

impl Glance {
    /// The bytes that all seats held, and whether pressure stood.
    pub fn look(&self) -> Look
        ensures total { result.total ≡ total_of self.now.account.last }
        ensures is_pressed { result.is_pressed ≡ is_pressed self.now.account.last }
    {
        look_of(self.word)
    }
}
