ghost use Rattle.std.specs.Prelude.{◌≡◌, IfOk};
ghost use Rattle.ob_budget.specs.Account.{MayFind, first_account, BudgetValue};
ghost use Rattle.ob_budget.specs.Ruled.{budget_of, IsBudget, glanced};

mod end;
mod seats;
mod steps;

use crate::account::Account;
use crate::bounds::Bounds;
use crate::glance::Glance;
use crate::rule::Rule;
use crate::seat::Seat;
use atomic_table::Table;
use std::alloc::{AllocError, Global};
use std::marker::Model;

/// A budget that seats hold bytes of.
///
/// Threads share it by reference, or in an `Arc`. Which budget it is is part of what a contract sees of it and of a seat:
/// each call wants the one that its seat came from.
#[derive(Drop)]
pub struct Budget {
    pub(crate) table: Table<(), Account, Bounds, Rule, Global>,
    pub(crate) bounds: Bounds,
}

impl Model for Budget {
    ghost Value = { BudgetValue };

    ghost view = { budget_of };

    ghost invariant = { IsBudget };
}

impl Budget {
    /// A budget of which nothing is held, and the seat that is for all 2^62 seats. An `AllocError` comes only if the
    /// allocator refuses; no later call allocates.
    pub fn open(alloc: Global, bounds: Bounds) -> Result<(Budget, Seat), AllocError>
        ensures bounds { IfOk result (λ ok. ok.0.bounds ≡ bounds) }
        ensures budget { IfOk result (λ ok. ok.1.budget ≡ ok.0) }
        ensures account { IfOk result (λ ok. ok.1.account ≡ first_account bounds) }
    {
        let (table, seat) = Table::of_words(alloc, &[0; 16], &bounds)?;
        let budget = Budget { table, bounds };
        Ok((budget, Seat::first(seat)))
    }

    /// What it was opened with.
    pub fn bounds(&self) -> Bounds
        ensures { result ≡ self.now.bounds }
    {
        self.bounds
    }

    /// Reads the word, in one load, with no seat.
    pub fn glance(&self) -> Glance
        ensures budget { result.budget ≡ self.now }
        ensures read { result.account ≡ glanced self.now.bounds result.account.last }
        ensures may { MayFind result.account result.account.last }
    {
        let (word, seat) = self.load_anew();
        Glance { seat, word }
    }
}
