//! How a seat is cut in two and how two become one. Neither is told any number when the program runs, so the numbers
//! come as ghost members, which the caller picks.

use crate::account::Account;
use atomic_table::{Join, Split};
use std::marker::{Brand, PhantomData};

/// How many seats the new one is for.
pub trait Part {
    ghost use Rattle.std.specs.Prelude.{ℕ};

    ghost seats: { ℕ };
}

impl Part for Brand {
    ghost seats = { 0 };
}

pub struct Divide<S> {
    part: PhantomData<S>,
}

impl<S: Part> Split<Account> for Divide<S> {
    ghost use Rattle.ob_budget.specs.Account.{kept_account, given_account};

    ghost left = { kept_account S.seats };

    ghost right = { given_account S.seats };
}

/// The account of the seat that is joined to another.
pub trait Spent {
    ghost use Rattle.ob_budget.specs.declared.account.Account.{Account};

    ghost account: { Account };
}

impl Spent for Brand {
    ghost use Rattle.ob_budget.specs.Account.{no_account};

    ghost account = { no_account };
}

pub struct Merge<S> {
    spent: PhantomData<S>,
}

impl<S: Spent> Join<Account> for Merge<S> {
    ghost use Rattle.ob_budget.specs.Account.{joined_account, spent_account};

    ghost both = { joined_account };

    ghost spent = { spent_account S.account };
}
