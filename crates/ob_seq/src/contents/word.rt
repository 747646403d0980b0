//! The word: its mark, bit 0, and the user bits.

ghost use Rattle.std.specs.Prelude.{◌≡◌, ◌≤◌, ◌==◌, ℕ, false, if◌then◌else◌};
ghost use Rattle.std.specs.Int.{bit_at};
ghost use Rattle.ob_seq.specs.Steps.Commands.{bit_step, with_user_bit};
ghost use Rattle.ob_seq.specs.Steps.Step.{word_after_rise, word_after_fall};
ghost use Rattle.ob_seq.specs.Steps.Within.{StepsWithin, bit_reply};

use crate::contents::Contents;
use ob_types::{Change, Refusal, WaterMark};

/// Bit 0 of the word, which is set while too much is pending.
const MARK: u32 = 1;

impl Contents {
    /// Sets the user bit of this index, or clears it if it is to be writable, and returns how that changed writability.
    #[inline(always)]
    pub fn user_bit(&mut self, index: u32, writable: bool) -> Result<Option<Change>, Refusal>
        ensures { StepsWithin (bit_step index writable) bit_reply self.old result self.new }
    {
        if self.closed {
            return Err(Refusal::Closed);
        }
        if index == 0 || index > 31 {
            return Err(Refusal::BadIndex);
        }
        let before = self.word;
        self.word = with_user_bit(before, index, writable);
        Ok(Change::between(before, self.word))
    }
}

/// The word after the pending bytes rose by `size` to `total`. A rise by 0 is none.
#[tactic(auto, using(crate::proofs::Word::bit_or_one))]
pub fn after_rise(marks: WaterMark, word: u32, size: u32, total: u32) -> u32
    ensures { result ≡ word_after_rise marks word size total }
{
    if size > 0 && total > marks.high() {
        word | MARK
    } else {
        word
    }
}

/// Whether a rise to `total` bytes can change a word: up to the high mark it cannot.
pub fn can_rise(marks: WaterMark, total: u32) -> bool
    ensures { (word size : ℕ) → result ≡ false → word_after_rise marks word size total ≡ word }
{
    total > marks.high()
}

/// The word after the pending bytes fell by `size` to `total`, with notice. A fall by 0 is none.
pub fn after_fall(marks: WaterMark, word: u32, size: u32, total: u32) -> u32
    ensures { result ≡ word_after_fall marks word size total }
{
    if size > 0 && total < marks.low() {
        word & !MARK
    } else {
        word
    }
}

/// The word after a removal let the pending bytes fall by `size` to `total`. Without notice it stays.
pub fn after_removal(marks: WaterMark, word: u32, size: u32, total: u32, notice: bool) -> u32
    ensures { result ≡ (if notice then word_after_fall marks word size total else word) }
{
    if notice {
        return after_fall(marks, word, size, total);
    }
    word
}

/// Whether the bit of this index is set.
pub fn has_bit(word: u32, index: u32) -> bool
    requires { index ≤ 31 }
    ensures { result ≡ (bit_at word index == 1) }
{
    word & (1 << index) != 0
}

/// The word with the user bit of this index set, or cleared if it is to be writable.
pub fn with_user_bit(word: u32, index: u32, writable: bool) -> u32
    requires { index ≤ 31 }
    ensures { result ≡ with_user_bit index writable word }
{
    let bit = 1 << index;
    if writable { word & !bit } else { word | bit }
}
