//! What a seat at the table knows. No value of it is made: it stands in contracts and proofs alone.

use crate::call::Call;
use ob_budget::Budget;
use ob_types::{Command, Estimate, WaterMark};
use std::collections::LinkedList;

/// What a seat knows, which no other seat changes.
pub struct View {
    /// The marks that the connection was opened with.
    pub marks: WaterMark,
    /// How it counts messages.
    pub estimate: Estimate,
    /// The budget that it was opened within, if one.
    pub budget: Option<Budget>,
    /// Whether it is the seat of a handle.
    pub named: bool,
    /// Whether another seat took it in.
    pub spent: bool,
    /// The number of its handle.
    pub caller: u64,
    /// Whether it is the one that takes messages away.
    pub sends: bool,
    /// Whether it has the lock.
    pub holds: bool,
    /// Whether what is published is after all calls, if it has the lock.
    pub shows: bool,
    /// What was accepted from its handle, in order.
    pub mine: LinkedList<Command>,
    /// The accepted calls that it has seen, which are a beginning of all.
    pub seen: LinkedList<Call>,
    /// What the seat had seen that it took in last.
    pub told: LinkedList<Call>,
    /// How many other handles it stands for, whose seats it took in.
    pub others: u64,
    /// How many calls were accepted from those.
    pub handed: u64,
    /// Its share of the connection: the parts that it has, of each how often it was halved.
    pub share: LinkedList<u64>,
    /// What it knows of the bells, if it has the lock.
    pub bells: Bells,
}

/// What the seat that has the lock knows of the bells.
pub struct Bells {
    /// Whether it knows that no writer waits.
    pub writers_silent: bool,
    /// Whether writers are to be woken.
    pub writers_owed: bool,
    /// Whether it knows that the transport does not wait.
    pub work_silent: bool,
    /// Whether the transport is to be woken.
    pub work_owed: bool,
}
