ghost use Rattle.std.specs.Prelude.{◌≡◌, ◌≤◌, drop, filter, IfOk, length};
ghost use Rattle.std.specs.List.{position, position_or_len, slice_index_or};
ghost use Rattle.ob_traces.specs.Draw.{point_at, points_of, stretch_at};
ghost use Rattle.ob_script.specs.Reading.{greatest_script};
ghost use Rattle.ob_traces.specs.Traces.{bare, shows_bytes};

use crate::traces::line::TraceLine;
use crate::traces::read::bare_line;
use ob_types::Change;
use std::alloc::{AllocError, Global};

/// What is drawn of a line that shows bytes.
#[derive(Clone, Copy)]
pub struct Point {
    /// How many such lines stand before it.
    pub place: u32,
    pub total: u32,
    pub change: Option<Change>,
    /// How many lines one behind the other show no writable buffer, if it is the first of them, and else 0.
    pub stretch: u32,
}

/// The lines that show bytes.
pub fn shown(alloc: Global, lines: &[TraceLine]) -> Result<Vec<TraceLine>, AllocError>
    ensures { IfOk result (λ shown. shown.items ≡ filter shows_bytes lines.now) }
{
    lines
        .iter()
        .copied()
        .filter(|line| line.shows_bytes())
        .collect(alloc)
}

/// What is drawn of each of these lines.
pub fn points(alloc: Global, shown: &[TraceLine]) -> Result<Vec<Point>, AllocError>
    requires few { length shown.now ≤ greatest_script }
    ensures { IfOk result (λ points. points.items ≡ points_of shown.now) }
{
    (0..shown.len() as u32)
        .map(|place| make_point(shown, place))
        .collect(alloc)
}

/// What is drawn of the line of a place.
fn make_point(shown: &[TraceLine], place: u32) -> Point
    requires few { length shown.now ≤ greatest_script }
    ensures { result ≡ point_at shown.now place }
{
    let line = line_at(shown, place);
    Point {
        place,
        total: line.total,
        change: line.change,
        stretch: stretch_at(shown, place),
    }
}

/// The line of a place, or one that shows nothing.
fn line_at(shown: &[TraceLine], place: u32) -> TraceLine
    ensures { result ≡ slice_index_or shown.now place bare }
{
    match shown.get(place as usize) {
        Some(line) => *line,
        None => bare_line(),
    }
}

/// How many lines from this place on show no writable buffer, if the one before shows one.
fn stretch_at(shown: &[TraceLine], place: u32) -> u32
    requires few { length shown.now ≤ greatest_script }
    ensures { result ≡ stretch_at shown.now place }
{
    if place > 0 && !line_at(shown, place - 1).is_writable {
        return 0;
    }
    unwritable_from(shown, place)
}

/// How many lines one behind the other show no writable buffer from this place on.
fn unwritable_from(shown: &[TraceLine], place: u32) -> u32
    requires few { length shown.now ≤ greatest_script }
    ensures { result ≡ position_or_len (λ line. line.is_writable) (drop place shown.now) }
{
    count_unwritable(lines_from(shown, place as usize)) as u32
}

/// The lines from a place on.
fn lines_from(shown: &[TraceLine], place: usize) -> &[TraceLine]
    ensures lines { result.now ≡ drop place shown.now }
    ensures within { length result.now ≤ length shown.now }
{
    if place > shown.len() {
        return &[];
    }
    &shown[place..]
}

/// How many lines come before the first that shows a writable buffer, or how many there are.
fn count_unwritable(lines: &[TraceLine]) -> usize
    ensures count { result ≡ position_or_len (λ line. line.is_writable) lines.now }
    ensures within { result ≤ length lines.now }
{
    match first_writable(lines) {
        Some(place) => place,
        None => lines.len(),
    }
}

/// The place of the first line that shows a writable buffer, if there is one.
fn first_writable(lines: &[TraceLine]) -> Option<usize>
    ensures { result ≡ position (λ line. line.is_writable) lines.now }
{
    lines.iter().position(|line| line.is_writable)
}
