ghost use Rattle.std.specs.Prelude.{◌≡◌, ◌<◌, true, false};
ghost use Rattle.ob_core.specs.World.{sum_owed, is_set};

use crate::lane::add_debts;
use crate::world::World;
use ob_types::Change;

impl World {
    /// The total, in bytes (Netty's `totalPendingSize`). It does not allocate.
    pub fn total(&self) -> u32
        ensures value { result ≡ self.now.core.total }
        ensures counted { result ≡ sum_owed self.now.core.lanes }
    {
        self.total
    }

    /// The word: bit 0 is the mark's, and bit i is the user bit with index i (Netty's `unwritable`). Bit 0 is set while
    /// the total is above the high mark, and clear while it is below the low mark. If the low mark is positive and
    /// nothing is owed, bit 0 is clear; at a low mark of 0 it may stay set. It does not allocate.
    pub fn word(&self) -> u32
        ensures value { result ≡ self.now.core.word }
        ensures above { self.now.core.marks.high < self.now.core.total → is_set result 0 ≡ true }
        ensures below { self.now.core.total < self.now.core.marks.low → is_set result 0 ≡ false }
        ensures at_rest { 0 < self.now.core.marks.low → sum_owed self.now.core.lanes ≡ 0 → is_set result 0 ≡ false }
    {
        self.word
    }

    /// What all lanes owe together, in bytes, added up anew. It does not allocate.
    pub fn owed(&self) -> u32
        ensures { result ≡ sum_owed self.now.core.lanes }
    {
        add_debts(&self.lanes) as u32
    }

    /// Whether no lane is in the middle of a call: always, as `World` says. It does not allocate.
    pub fn quiet(&self) -> bool
        ensures { result ≡ true }
    {
        true
    }

    /// How the last turn turned writability, if it did: `Unwritable` if the word was 0 before it and is not 0
    /// after it, `Writable` in the opposite case. There is none before the first turn. It does not allocate.
    pub fn last_change(&self) -> Option<Change>
        ensures { result ≡ self.now.last_change }
    {
        self.last_change
    }
}
