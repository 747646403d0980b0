ghost use Rattle.std.specs.Prelude.{◌≡◌};
ghost use Rattle.ob_core.specs.World.{owed_by};
ghost use Rattle.ob_lanes.specs.Calls.{IsTotalRead, IsWordRead};

use super::Charged;
use crate::both::{total_of, word_of};
use crate::words::Words;

impl Charged {
    /// The bytes that all lanes owe, read in one step as by `Lane::total`.
    pub fn total(&mut self, words: &Words) -> u64
        requires { self.old.words ≡ words.now }
        ensures { IsTotalRead self.old result self.new }
    {
        let found = words.load(&mut self.running.seat);
        self.running.last = Some(found);
        u64::from(total_of(found))
    }

    /// The word, read in one step as by `Lane::word`.
    pub fn word(&mut self, words: &Words) -> u32
        requires { self.old.words ≡ words.now }
        ensures { IsWordRead self.old result self.new }
    {
        let both = words.load(&mut self.running.seat);
        self.running.last = Some(both);
        word_of(both)
    }

    /// The bytes that it charged and has not taken back.
    pub fn owed(&self) -> u32
        ensures value { result ≡ owed_by self.now.lane }
    {
        self.owed
    }
}
