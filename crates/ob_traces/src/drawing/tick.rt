//! The numbers on an axis of a picture.

ghost use Rattle.std.specs.Prelude.{◌≡◌, ◌≤◌, ◌*◌, IfOk, find, nat_lt};
ghost use Rattle.ob_traces.specs.Draw.{round_numbers, step_of, ticks_of};

use std::alloc::{AllocError, Global};

/// The numbers of one digit that are round, and these with zeros behind them, from the least on.
static ROUND: [u32; 28] = [
    1, 2, 5, 10, 20, 50, 100, 200, 500, 1000, 2000, 5000, 10000, 20000, 50000, 100000, 200000,
    500000, 1000000, 2000000, 5000000, 10000000, 20000000, 50000000, 100000000, 200000000,
    500000000, 1000000000,
];

/// The greatest of them, of which five are more than any number of 32 bits.
const GREATEST: u32 = 1000000000;

/// The numbers on an axis that shows up to this one.
pub fn ticks(alloc: Global, most: u32) -> Result<Vec<u32>, AllocError>
    ensures { IfOk result (λ ticks. ticks.items ≡ ticks_of most) }
{
    let step = step_of(most);
    let multiples = [0, step, 2 * step, 3 * step, 4 * step];
    multiples
        .iter()
        .copied()
        .filter(|tick| *tick <= most)
        .collect(alloc)
}

/// How far two numbers on an axis are apart that shows up to this one.
fn step_of(most: u32) -> u32
    ensures value { result ≡ step_of most }
    ensures small { result ≤ 1000000000 }
{
    first_round(most).unwrap_or(GREATEST)
}

/// The least round number of which five are more than this one, if 32 bits have it.
fn first_round(most: u32) -> Option<u32>
    ensures { result ≡ find (λ step. nat_lt most (5 * step)) round_numbers }
{
    // five of the greatest have more than 32 bits
    ROUND
        .iter()
        .copied()
        .find(|step| u64::from(most) < 5 * u64::from(*step))
}
