ghost use Rattle.std.specs.Prelude.{◌≡◌, ℕ, ◌<◌, ◌≤◌, false, IfOk, IsOk, IsErrAnd};
ghost use Rattle.std.specs.Int.{bit_at};
ghost use Rattle.ob_core.specs.World.{is_set};
ghost use Rattle.ob_lanes.specs.Run.{EndsRun, ShowsHeld};

use super::Lane;
use crate::both::{total_of, word_of};
use crate::fault::RoomOut;
use crate::words::Words;

impl Lane {
    /// Ends the word, and returns the total, which is 0 then, and the word.
    ///
    /// `RoomOut` comes exactly if the lane has less than the whole room, and hands back what came in. Bit 0 is clear
    /// if the low mark is positive; at a low mark of 0 nothing ever clears it.
    pub fn finish(self, words: Words) -> Result<(u64, u32), (Words, Lane, RoomOut)>
        requires { self.words ≡ words }
        ensures room_out { self.lane.room < words.grant.room →
            IsErrAnd result (λ refused. (refused.0 ≡ words) × (refused.1 ≡ self)) }
        ensures whole { words.grant.room ≤ self.lane.room → IsOk result }
        ensures total { IfOk result (λ ok. ok.0 ≡ 0) }
        ensures mark { 0 < words.grant.marks.low → IfOk result (λ ok. is_set ok.1 0 ≡ false) }
        ensures held { IfOk result (λ ok. ShowsHeld self.lane ok.1) }
        ensures foreign { IfOk result (λ ok. (index : ℕ) → 0 < index →
            bit_at words.grant.bits index ≡ 0 → bit_at ok.1 index ≡ 0) }
        ensures run { IfOk result (λ ok. EndsRun self ok.0 ok.1) }
    {
        if self.running.room < words.grant.room {
            return Err((words, self, RoomOut));
        }
        let Lane { running } = self;
        let both = words.end(running.seat);
        Ok((u64::from(total_of(both)), word_of(both)))
    }
}
