ghost use Rattle.std.specs.Prelude.{◌≡◌, ◌≤◌};
ghost use Rattle.ob_seq.specs.Unsent.{GivesBack, Shrinks, waiting_count};

use crate::contents::Contents;

/// For how many entries room is kept while it is open: as many as the first of a connection take.
// An idle connection takes 464 bytes with them: in Rust a small chunk beside, and all within 0.6 KiB.
const KEPT_ROOM: usize = 4;

impl Contents {
    /// Gives memory back if little of it is used: if all entries lie in one ring that has room for more than 4, and at most an
    /// eighth of that is used, it keeps room for twice as many as there are, and for 4 at least. If none is left it keeps none of
    /// 16 and 3 of more. Once it is closed it keeps none. It cannot fail: if the allocator refuses the smaller ring, the entries
    /// keep the one that they have.
    ///
    /// A ring with as many entries as half its room gives nothing back until three quarters of them are gone, and one that gave
    /// back and has *n* entries has places for *n* more at least; so each entry is moved a few times at most.
    // As at `Contents::add`, of the reply of a removal.
    #[inline(always)]
    pub fn give_back(&mut self)
        ensures { GivesBack self.old self.new }
    {
        let kept = if self.closed { 0 } else { KEPT_ROOM };
        self.entries.give_back(kept);
    }

    /// Keeps room for what waits and for no more, if all lies in one ring, as `VecDeque::shrink_to_fit`. It cannot fail
    /// either.
    pub fn shrink_to_fit(&mut self)
        ensures { Shrinks self.old self.new }
    {
        self.entries.shrink_to_fit();
    }
}
