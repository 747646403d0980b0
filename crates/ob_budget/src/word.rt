//! The parts of the one word, and what a raise and a fall make of it.

ghost use Rattle.std.specs.Prelude.{◌≡◌, ◌≤◌, ◌+◌};
ghost use Rattle.ob_budget.specs.Bounds.{greatest_room};
ghost use Rattle.ob_budget.specs.Account.{is_pressed, total_of, word_of, raised, lowered, change_between};

use crate::bounds::Bounds;
use crate::pressure::{Look, Pressure};

/// The bit of pressure, which is above all totals.
const FLAG: u64 = 1 << 63;

/// Whether a word shows pressure.
pub fn is_pressed(word: u64) -> bool
    ensures { result ≡ is_pressed word }
{
    word >= FLAG
}

/// The bytes that all seats hold.
pub fn total_of(word: u64) -> u64
    ensures { result ≡ total_of word }
{
    if word >= FLAG { word - FLAG } else { word }
}

/// Both.
pub fn look_of(word: u64) -> Look
    ensures total { result.total ≡ total_of word }
    ensures is_pressed { result.is_pressed ≡ is_pressed word }
{
    Look {
        total: total_of(word),
        is_pressed: is_pressed(word),
    }
}

fn word_of(total: u64, pressed: bool) -> u64
    requires { total ≤ greatest_room }
    ensures { result ≡ word_of total pressed }
{
    if pressed { total + FLAG } else { total }
}

/// The word after a raise, which the room is there for.
pub fn raised(bounds: Bounds, found: u64, amount: u64) -> u64
    requires { total_of found + amount ≤ greatest_room }
    ensures { result ≡ raised bounds found amount }
{
    let total = total_of(found) + amount;
    word_of(total, is_pressed(found) || total > bounds.high())
}

/// The word after a fall.
pub fn lowered(bounds: Bounds, found: u64, amount: u64) -> u64
    requires held { amount ≤ total_of found }
    requires fits { total_of found ≤ greatest_room }
    ensures { result ≡ lowered bounds found amount }
{
    let total = total_of(found) - amount;
    word_of(total, is_pressed(found) && total >= bounds.low())
}

/// How pressure changed between two words.
pub fn change_between(before: u64, after: u64) -> Option<Pressure>
    ensures { result ≡ change_between (is_pressed before) (is_pressed after) }
{
    match (is_pressed(before), is_pressed(after)) {
        (true, false) => Some(Pressure::Ended),
        (false, true) => Some(Pressure::Began),
        _ => None,
    }
}
