use crate::carried::Carried;
use crate::view::View;
use atomic_table::TableRule;
use ob_budget::Budget;
use ob_types::{Estimate, WaterMark};
use std::sync::Arc;

/// How many words the table has.
pub const WORDS: usize = 6;

/// The word that is the lock.
pub const LOCK: usize = 0;

/// The word that counts the handles that there ever were.
pub const GIVEN: usize = 1;

/// The word that is published: the word and the total of the connection, as `ob_types::pack` lays them out.
pub const PUBLISHED: usize = 2;

/// The word at which those wait who wait until they may write.
pub const WRITERS: usize = 3;

/// The word at which the transport waits for flushed messages.
pub const WORK: usize = 4;

/// The word that tells if nobody sends.
pub const ROLE: usize = 5;

/// A handle sends, or was lost with the role.
pub const GIVEN_OUT: u64 = 0;

/// Nobody sends.
pub const VACANT: u64 = 1;

/// Nobody waits there.
pub const SILENT: u64 = 0;

/// Someone waits there.
pub const AWAITED: u64 = 1;

/// Nobody has the lock.
pub const FREE: u64 = 0;

/// A handle has it, and none sleeps for it.
pub const TAKEN: u64 = 1;

/// A handle has it, and others may sleep until it is free.
pub const WAITED: u64 = 2;

/// What a connection is opened with, and within which budget, if one.
#[derive(Drop)]
pub struct Opened {
    pub marks: WaterMark,
    pub estimate: Estimate,
    pub budget: Option<Arc<Budget>>,
}

/// What holds between any two steps.
pub struct Rule;

impl TableRule<Carried, View, Opened> for Rule {
    ghost use Rattle.ob_shared_connection.specs.Ruled.{Ruled, first_view};

    ghost holds = { λ _. Ruled };

    ghost first = { first_view };
}
