ghost use Rattle.std.specs.Prelude.{◌≤◌, IfOk, length};
ghost use Rattle.ob_script.specs.Reading.{greatest_script};
ghost use Rattle.ob_traces.specs.Summary.{Summarizes};

use crate::summing::count::{
    count_accepted, count_changes, count_refusals, count_refused, pending,
};
use crate::summing::settlements::{Settlements, count_settlements};
use crate::summing::top::{Top, longest_unwritable, peak};
use crate::traces::line::TraceLine;
use ob_types::Change;
use std::alloc::{AllocError, Global};

/// What the lines of a trace come to.
#[derive(Drop)]
pub struct Summary {
    pub lines: usize,
    pub accepted: usize,
    pub refused: usize,
    /// Each refusal by its number, with how often it stands there.
    pub refusals: Vec<(u8, usize)>,
    /// The most pending bytes.
    pub peak: Option<Top>,
    pub stops: usize,
    pub goes: usize,
    /// The most lines together behind which the buffer is not writable, at the last of them.
    pub longest: Option<Top>,
    /// The pending bytes at the end.
    pub pending: u32,
    pub settled: Settlements,
}

/// What these lines come to.
pub fn make_summary(alloc: Global, lines: &[TraceLine]) -> Result<Summary, AllocError>
    requires few { length lines.now ≤ greatest_script }
    ensures { IfOk result (λ summary. Summarizes lines.now summary) }
{
    Ok(Summary {
        lines: lines.len(),
        accepted: count_accepted(lines),
        refused: count_refused(lines),
        refusals: count_refusals(alloc, lines)?,
        peak: peak(lines),
        stops: count_changes(lines, Change::Unwritable),
        goes: count_changes(lines, Change::Writable),
        longest: longest_unwritable(lines),
        pending: pending(lines),
        settled: count_settlements(lines),
    })
}
