//! How a seat is cut in two and how two become one. Neither is told any number when the program runs, so the numbers
//! come as ghost members, which the caller picks.

use crate::facts::Facts;
use atomic_table::{Join, Split};
use std::marker::{Brand, PhantomData};

/// What a new lane is given.
pub trait Part {
    ghost use Rattle.std.specs.Prelude.{ℕ};

    ghost room: { ℕ };

    ghost bits: { ℕ };
}

impl Part for Brand {
    ghost room = { 0 };

    ghost bits = { 0 };
}

pub struct Divide<S> {
    part: PhantomData<S>,
}

impl<S: Part> Split<Facts> for Divide<S> {
    ghost use Rattle.ob_lanes.specs.Inside.{kept_facts, given_facts};

    ghost left = { kept_facts S.room S.bits };

    ghost right = { given_facts S.room S.bits };
}

/// What the lane knew that is joined to another.
pub trait Spent {
    ghost use Rattle.ob_lanes.specs.declared.facts.Facts.{Facts};

    ghost facts: { Facts };
}

impl Spent for Brand {
    ghost use Rattle.ob_lanes.specs.Inside.{no_facts};

    ghost facts = { no_facts };
}

pub struct Merge<S> {
    spent: PhantomData<S>,
}

impl<S: Spent> Join<Facts> for Merge<S> {
    ghost use Rattle.ob_lanes.specs.Inside.{both_facts, spent_facts};

    ghost both = { both_facts };

    ghost spent = { spent_facts S.facts };
}
