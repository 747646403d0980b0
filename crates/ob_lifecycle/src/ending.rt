ghost use Rattle.std.specs.Prelude.{◌≡◌, ◌||◌, ◌&&◌, ◌==◌, not, true};

use crate::watch::Watch;

/// Whether the end was asked for, whether it was reached, and the window of the peer until then.
#[derive(Drop)]
pub struct Ending {
    pub asked: bool,
    pub over: bool,
    pub watch: Watch,
}

impl Ending {
    /// From now on the end is asked for.
    pub fn ask(&mut self)
        ensures { self.new ≡ record self.old { asked = true } }
    {
        self.asked = true;
    }

    /// Whether the end is reached for the first time, while this many messages wait.
    #[inline(always)]
    pub fn reach(&mut self, waiting: u64) -> bool
        ensures reached { self.new ≡ record self.old { over = self.old.over || (self.old.asked && (waiting == 0)) } }
        ensures told { result ≡ (self.new.over && not self.old.over) }
    {
        if !self.asked || self.over || waiting != 0 {
            return false;
        }
        self.over = true;
        true
    }
}
