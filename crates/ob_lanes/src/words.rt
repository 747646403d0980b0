ghost use Rattle.ob_lanes.specs.Inside.{words_of, AreWords};
ghost use Rattle.ob_lanes.specs.Run.{WordsValue};

mod end;
mod seats;
mod steps;
mod tries;

use crate::facts::Facts;
use crate::grant::Grant;
use crate::rule::Rule;
use atomic_table::Table;
use std::alloc::Global;
use std::marker::Model;

/// The one word that lanes step on, which holds the word of bits beside the total.
///
/// Threads share it by reference. Which word it is is part of what a contract sees of it and of a lane: each call wants
/// the one that its lane came from.
#[derive(Drop)]
pub struct Words {
    pub(crate) table: Table<(), Facts, Grant, Rule, Global>,
    pub(crate) grant: Grant,
}

impl Model for Words {
    ghost Value = { WordsValue };

    ghost view = { words_of };

    ghost invariant = { AreWords };
}
