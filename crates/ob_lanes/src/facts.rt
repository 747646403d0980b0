//! What a lane knows of itself. No value of these is made: they stand in contracts and proofs alone.

use crate::grant::Grant;
use ob_core::{Lane, LaneStep};
use std::collections::LinkedList;

/// A step that a lane made, with the one word as it found it.
pub struct Made {
    pub step: LaneStep,
    pub found: u64,
}

/// A move of a run: what one lane did, or two did, by the places of the lanes.
pub enum Move {
    /// A lane made a step, and found the one word so.
    Steps(u64, LaneStep, u64),
    /// A lane became the first of these two, and the second is new and has this name.
    Divides(u64, Lane, Lane, LinkedList<u64>),
    /// A lane became this one, and the lane in the second place is spent.
    Merges(u64, u64, Lane),
}

/// A lane that was taken in by a join: its name, and its own steps.
pub struct Ended {
    pub name: LinkedList<u64>,
    pub made: LinkedList<Made>,
}

/// What a lane knows of itself, which no other lane changes.
pub struct Facts {
    /// What its word was opened with.
    pub grant: Grant,
    /// What the core knows of the lane: room, debt, held bits and raised bits.
    pub lane: Lane,
    /// Its own steps, in order. Neither a split nor a join is one.
    pub made: LinkedList<Made>,
    /// The runs that it has seen: the one up to its own last step, and those of the lanes that it took in since.
    pub seen: LinkedList<LinkedList<Move>>,
    /// Its name: for each lane that it was split off, the latest first, how many splits that had made before.
    pub name: LinkedList<u64>,
    /// How many lanes it has split off.
    pub splits: u64,
    /// The lanes that it has taken in.
    pub taken: LinkedList<Ended>,
    /// Whether it was taken in itself.
    pub spent: bool,
}
