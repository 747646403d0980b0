ghost use Rattle.std.specs.Prelude.{◌≤◌, ◌+◌, length};
ghost use Rattle.ob_types.specs.Limits.{most_writes};
ghost use Rattle.ob_seq.specs.Kept.{LetsGo};
ghost use Rattle.ob_seq.specs.Unsent.{waiting_count};

use crate::contents::Contents;
use crate::outcomes::Outcomes;
use ob_types::{Outcome, Settlements};
use std::alloc::AllocError;

/// What the first `count` entries settle if they leave with this outcome: each promise that was not taken back. Their
/// outcomes are added to those of what is gone, for which there is room. It goes over the entries once, and once more if
/// some were taken back. The first four settlements need no allocation; if one is refused all is as it was.
pub fn let_go(
    gone: &mut Outcomes,
    contents: &Contents,
    count: usize,
    outcome: Outcome,
) -> Result<Settlements, AllocError>
    requires some { count ≤ waiting_count contents.now }
    requires few { length gone.old.list + count ≤ most_writes }
    requires room { count ≤ gone.old.room }
    ensures { LetsGo outcome count contents.now gone.old result gone.new }
{
    let settled = contents.settlements(gone.len(), count, outcome)?;
    if settled.as_slice().len() == count {
        gone.push_all(outcome, count);
        return Ok(settled);
    }
    for place in 0..count {
        gone.push(if contents.is_taken_back(place) {
            Outcome::Cancelled
        } else {
            outcome
        });
    }
    Ok(settled)
}
