//! The two halves of the one word, and what a charge and a discharge make of them.

ghost use Rattle.std.specs.Prelude.{◌≡◌, ◌≤◌, ◌<◌, ◌+◌, ◌-◌};
ghost use Rattle.ob_types.specs.Marks.{change_between, packed, word_half, total_half};
ghost use Rattle.ob_core.specs.World.{with_bit, without_bit};
ghost use Rattle.ob_core.specs.Step.{raised_word, lowered_word};

use ob_types::{Change, WaterMark, unpack};

/// How many totals the low half can tell apart, which is bit 0 of the high half: that of `ob_types::packed`, and the
/// contracts below hold the two together.
pub const HALF: u64 = 1 << 32;

/// The word of both.
pub fn word_of(both: u64) -> u32
    ensures { result ≡ word_half both }
{
    unpack(both).0
}

/// The total of both, in bytes.
pub fn total_of(both: u64) -> u32
    ensures { result ≡ total_half both }
{
    unpack(both).1
}

/// The change between two values of the one word.
pub fn change_of(before: u64, after: u64) -> Option<Change>
    ensures { result ≡ change_between (word_half before) (word_half after) }
{
    Change::between(word_of(before), word_of(after))
}

/// Both after a charge: the total rises by its amount, and bit 0 of the word is set if it is above the high mark then.
pub fn after_add(marks: WaterMark, found: u64, amount: u32) -> u64
    requires { total_half found + amount < 4294967296 }
    ensures { result ≡ packed (raised_word marks (total_half found + amount) (word_half found)) (total_half found + amount) }
{
    let sum = found + u64::from(amount);
    if total_of(sum) > marks.high() {
        sum | HALF
    } else {
        sum
    }
}

/// Both after a discharge: the total falls by its amount, and bit 0 of the word is cleared if it is below the low mark
/// then.
pub fn after_subtract(marks: WaterMark, found: u64, amount: u32) -> u64
    requires { amount ≤ total_half found }
    ensures { result ≡ packed (lowered_word marks (total_half found - amount) (word_half found)) (total_half found - amount) }
{
    let rest = found - u64::from(amount);
    if total_of(rest) < marks.low() {
        rest & !HALF
    } else {
        rest
    }
}

/// Both after the bit of the word with this index was set.
pub fn after_set(found: u64, index: u32) -> u64
    requires { index < 32 }
    ensures word { word_half result ≡ with_bit (word_half found) index }
    ensures total { total_half result ≡ total_half found }
{
    found | (HALF << index)
}

/// Both after the bit of the word with this index was cleared.
pub fn after_clear(found: u64, index: u32) -> u64
    requires { index < 32 }
    ensures word { word_half result ≡ without_bit (word_half found) index }
    ensures total { total_half result ≡ total_half found }
{
    found & !(HALF << index)
}
