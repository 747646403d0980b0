ghost use Rattle.std.specs.Prelude.{◌≡◌, ◌+◌, ◌<◌, ◌≤◌, ℕ, length};
ghost use Rattle.ob_script.specs.Reading.{greatest_script};
ghost use Rattle.ob_traces.specs.Summary.{total_at, unwritable_at, IsTop};

use crate::traces::line::TraceLine;

/// The greatest of some numbers, one for each line.
#[derive(Clone, Copy)]
pub struct Top {
    pub value: u32,
    /// The place of the first line at which it stands, from 0 on.
    pub place: u32,
}

/// The most pending bytes that a line shows.
pub fn peak(lines: &[TraceLine]) -> Option<Top>
    requires few { length lines.now ≤ greatest_script }
    ensures { IsTop (length lines.now) (total_at lines.now) result }
{
    let mut top = None;
    for (place, line) in lines.iter().enumerate() {
        top = raised(top, place as u32, line.total);
    }
    top
}

/// The most lines that stand together and show no writable buffer, at the last of them.
pub fn longest_unwritable(lines: &[TraceLine]) -> Option<Top>
    requires few { length lines.now ≤ greatest_script }
    ensures { IsTop (length lines.now) (unwritable_at lines.now) result }
{
    let mut top = None;
    let mut together = 0;
    for (place, line) in lines.iter().enumerate() {
        together = if line.is_writable { 0 } else { together + 1 };
        top = raised(top, place as u32, together);
    }
    top
}

/// The greatest number once one line more has this one.
fn raised(top: Option<Top>, place: u32, value: u32) -> Option<Top>
    ensures { (values : ℕ → ℕ) → IsTop place values top → value ≡ values place → IsTop (place + 1) values result }
{
    match top {
        Some(top) if value <= top.value => Some(top),
        _ => Some(Top { value, place }),
    }
}
