ghost use Rattle.std.specs.Prelude.{◌≡◌, count_by, IfOk, map};
ghost use Rattle.std.specs.List.{range_with_len};
ghost use Rattle.ob_traces.specs.Summary.{is_accepted, is_refused, is_refused_as, pending_behind, tells_of};

use crate::traces::line::{Told, TraceLine};
use ob_types::Change;
use std::alloc::{AllocError, Global};

/// How many lines tell of an accepted command or turn.
pub fn count_accepted(lines: &[TraceLine]) -> usize
    ensures { result ≡ count_by is_accepted lines.now }
{
    lines
        .iter()
        .filter(|line| matches!(line.told, Told::Accepted))
        .count()
}

/// How many lines tell of a refusal.
pub fn count_refused(lines: &[TraceLine]) -> usize
    ensures { result ≡ count_by is_refused lines.now }
{
    lines
        .iter()
        .filter(|line| matches!(line.told, Told::Refused(_)))
        .count()
}

/// How often each refusal stands there, by its number, from 1 to 11.
pub fn count_refusals(alloc: Global, lines: &[TraceLine]) -> Result<Vec<(u8, usize)>, AllocError>
    ensures { IfOk result (λ counts. counts.items
        ≡ map (λ number. (number, count_by (is_refused_as number) lines.now)) (range_with_len 1 11)) }
{
    (1..12)
        .map(|number| (number, count_refusal(lines, number)))
        .collect(alloc)
}

/// How many lines tell of the refusal of this number.
fn count_refusal(lines: &[TraceLine], number: u8) -> usize
    ensures { result ≡ count_by (is_refused_as number) lines.now }
{
    lines
        .iter()
        .filter(|line| match line.told {
            Told::Refused(told) => told == number,
            Told::Accepted | Told::Look | Told::Bare => false,
        })
        .count()
}

/// How many lines tell of this change.
pub fn count_changes(lines: &[TraceLine], change: Change) -> usize
    ensures { result ≡ count_by (tells_of change) lines.now }
{
    lines
        .iter()
        .filter(|line| line.change == Some(change))
        .count()
}

/// The pending bytes behind the last line that shows them; 0 if none does.
pub fn pending(lines: &[TraceLine]) -> u32
    ensures { result ≡ pending_behind lines.now }
{
    let mut pending = 0;
    for line in lines {
        if line.shows_bytes() {
            pending = line.total;
        }
    }
    pending
}
