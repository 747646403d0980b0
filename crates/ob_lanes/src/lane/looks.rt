ghost use Rattle.std.specs.Prelude.{◌≡◌};
ghost use Rattle.ob_lanes.specs.Calls.{IsTotalRead, IsWordRead};

use super::Lane;
use crate::both::{total_of, word_of};
use crate::words::Words;

impl Lane {
    /// The bytes that all lanes owe, read in one step: at least what this lane owes, and at most that and all room
    /// outside the lane. It is never older than what the lane has seen.
    pub fn total(&mut self, words: &Words) -> u64
        requires { self.old.words ≡ words.now }
        ensures { IsTotalRead self.old result self.new }
    {
        let found = words.load(&mut self.running.seat);
        self.running.last = Some(found);
        u64::from(total_of(found))
    }

    /// The word, read in one step: writable is 0. Of the bits that the lane holds, it shows exactly those that it set.
    pub fn word(&mut self, words: &Words) -> u32
        requires { self.old.words ≡ words.now }
        ensures { IsWordRead self.old result self.new }
    {
        let both = words.load(&mut self.running.seat);
        self.running.last = Some(both);
        word_of(both)
    }

    /// The most bytes that a charge of the lane may have.
    pub fn room(&self) -> u32
        ensures value { result ≡ self.now.lane.room }
    {
        self.running.room
    }

    /// The mask of the user bits that the lane holds.
    pub fn held(&self) -> u32
        ensures { result ≡ self.now.lane.held }
    {
        self.running.held
    }
}
