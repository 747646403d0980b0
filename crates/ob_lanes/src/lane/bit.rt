ghost use Rattle.std.specs.Prelude.{◌≡◌, ◌&&◌, nat_lt, false, true, IsErr, OnErr, IsOkAnd};
ghost use Rattle.ob_core.specs.World.{is_set};
ghost use Rattle.ob_core.specs.Step.{is_held};
ghost use Rattle.ob_lanes.specs.Calls.{IsBit, bit_step};

use super::Lane;
use crate::both::{after_clear, after_set, change_of};
use crate::fault::NotHeld;
use crate::words::Words;
use ob_types::Change;

impl Lane {
    /// Sets the user bit with this index, or clears it if it is to be `writable` (Netty's user-defined writability).
    ///
    /// The change is that between the word that it found and the word that it left. `NotHeld` comes exactly if the
    /// lane does not hold the bit, so also for an index outside 1 to 31, and changes nothing.
    pub fn bit(
        &mut self,
        words: &Words,
        index: u32,
        writable: bool,
    ) -> Result<Option<Change>, NotHeld>
        requires { self.old.words ≡ words.now }
        ensures not_held { is_held self.old.lane index ≡ false → IsErr result }
        ensures unchanged { OnErr result (self.new ≡ self.old) }
        ensures made { is_held self.old.lane index ≡ true → IsOkAnd result (λ change.
            IsBit (bit_step index writable) self.old self.new change) }
    {
        if !is_bit_held(self.running.held, index) {
            return Err(NotHeld);
        }
        let change = if writable {
            let found = words.clear_bit(&mut self.running.seat, index);
            let left = after_clear(found, index);
            self.running.last = Some(left);
            change_of(found, left)
        } else {
            let found = words.set_bit(&mut self.running.seat, index);
            let left = after_set(found, index);
            self.running.last = Some(left);
            change_of(found, left)
        };
        Ok(change)
    }
}

/// Whether a mask has the bit with this index. No mask has a bit with an index outside 1 to 31.
fn is_bit_held(held: u32, index: u32) -> bool
    ensures { result ≡ (nat_lt 0 index && nat_lt index 32 && is_set held index) }
{
    0 < index && index < 32 && (held >> index) & 1 == 1
}
