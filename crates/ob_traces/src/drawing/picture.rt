ghost use Rattle.std.specs.Prelude.{◌≡◌, ◌++◌, ◌≤◌, IfOk, OnOk, filter, length};
ghost use Rattle.ob_traces.specs.Draw.{axes_pieces, before_pieces, behind_pieces, curve_pieces, end_pieces};
ghost use Rattle.ob_traces.specs.Draw.{mark_pieces, picture_pieces, shade_pieces, below_pieces, beside_pieces};
ghost use Rattle.ob_traces.specs.Draw.{step_pieces, ticks_pieces, turn_pieces, points_of};
ghost use Rattle.ob_script.specs.Reading.{greatest_script};

use crate::drawing::drawn::{Drawn, push_each};
use crate::drawing::numbers::greater;
use crate::drawing::piece::{Fixed, Piece};
use crate::drawing::point::{Point, points};
use crate::drawing::scale::Scale;
use crate::drawing::tick::ticks;
use crate::traces::line::TraceLine;
use ob_types::{Change, WaterMark};
use std::alloc::{AllocError, Global};

/// The pieces of the picture of lines that show bytes, against these marks.
pub fn make_picture(
    alloc: Global,
    shown: &[TraceLine],
    marks: WaterMark,
) -> Result<Vec<Piece>, AllocError>
    requires few { length shown.now ≤ greatest_script }
    ensures { IfOk result (λ pieces. pieces.items ≡ picture_pieces marks shown.now) }
{
    let scale = Scale::new(shown, marks.high());
    let points = points(alloc, shown)?;
    let mut pieces = Vec::new(alloc);
    push_behind(alloc, &mut pieces, scale, marks, &points)?;
    push_before(&mut pieces, scale, &points)?;
    Ok(pieces)
}

/// Adds what stands behind the curve.
fn push_behind(
    alloc: Global,
    pieces: &mut Vec<Piece>,
    scale: Scale,
    marks: WaterMark,
    points: &[Point],
) -> Result<(), AllocError>
    ensures { OnOk result (pieces.new.items ≡ pieces.old.items ++ behind_pieces scale marks points.now) }
{
    pieces.push(Piece::Fixed(Fixed::Head))?;
    push_each::<Shades>(pieces, scale, points)?;
    push_ticks(alloc, pieces, scale)?;
    push_axes(pieces, scale, marks)
}

/// Adds the curve, and what stands before it.
fn push_before(pieces: &mut Vec<Piece>, scale: Scale, points: &[Point]) -> Result<(), AllocError>
    ensures { OnOk result (pieces.new.items ≡ pieces.old.items ++ before_pieces scale points.now) }
{
    push_curve(pieces, scale, points)?;
    push_each::<Turns>(pieces, scale, points)?;
    push_end(pieces, scale)
}

/// The shade of the stretch that begins with a line with a buffer that is not writable, if one does.
struct Shades;

impl Drawn for Shades {
    type Of = Point;

    ghost drawn = { shade_pieces };

    fn push(pieces: &mut Vec<Piece>, scale: Scale, point: Point) -> Result<(), AllocError> {
        if point.stretch == 0 {
            return Ok(());
        }
        let begin = scale.x(u64::from(point.place));
        let end = scale.x(u64::from(point.place) + u64::from(point.stretch));
        pieces.extend_from_slice(&[
            Piece::Fixed(Fixed::ShadeAt),
            Piece::Tenths(begin),
            Piece::Fixed(Fixed::ShadeWide),
            Piece::Tenths(end.saturating_sub(begin)),
            Piece::Fixed(Fixed::ShadeEnd),
        ])
    }
}

/// Adds the numbers on both axes.
fn push_ticks(alloc: Global, pieces: &mut Vec<Piece>, scale: Scale) -> Result<(), AllocError>
    ensures { OnOk result (pieces.new.items ≡ pieces.old.items ++ ticks_pieces scale) }
{
    let lines = ticks(alloc, greater(scale.lines, 1))?;
    push_each::<Below>(pieces, scale, &lines)?;
    let bytes = ticks(alloc, greater(scale.most, 1))?;
    push_each::<Beside>(pieces, scale, &bytes)
}

/// The number of a line below the axis, with its stroke.
struct Below;

impl Drawn for Below {
    type Of = u32;

    ghost drawn = { below_pieces };

    fn push(pieces: &mut Vec<Piece>, scale: Scale, line: u32) -> Result<(), AllocError> {
        let x = scale.x(u64::from(line));
        pieces.extend_from_slice(&[
            Piece::Fixed(Fixed::PathAt),
            Piece::Tenths(x),
            Piece::Fixed(Fixed::TickBelow),
            Piece::Tenths(x),
            Piece::Fixed(Fixed::TickBelowEnd),
            Piece::Number(u64::from(line)),
            Piece::Fixed(Fixed::TextEnd),
        ])
    }
}

/// A number of bytes beside the axis, with its stroke.
struct Beside;

impl Drawn for Beside {
    type Of = u32;

    ghost drawn = { beside_pieces };

    fn push(pieces: &mut Vec<Piece>, scale: Scale, bytes: u32) -> Result<(), AllocError> {
        let y = scale.y(bytes);
        pieces.extend_from_slice(&[
            Piece::Fixed(Fixed::TickBesideAt),
            Piece::Tenths(y),
            Piece::Fixed(Fixed::TickBeside),
            Piece::Tenths(y + 40),
            Piece::Fixed(Fixed::TickBesideEnd),
            Piece::Number(u64::from(bytes)),
            Piece::Fixed(Fixed::TextEnd),
        ])
    }
}

/// Adds the axes and the two marks.
fn push_axes(pieces: &mut Vec<Piece>, scale: Scale, marks: WaterMark) -> Result<(), AllocError>
    ensures { OnOk result (pieces.new.items ≡ pieces.old.items ++ axes_pieces scale marks) }
{
    pieces.push(Piece::Fixed(Fixed::Axes))?;
    push_mark(pieces, scale, Fixed::Low, marks.low())?;
    push_mark(pieces, scale, Fixed::High, marks.high())
}

/// Adds the line of a mark, with its name.
fn push_mark(
    pieces: &mut Vec<Piece>,
    scale: Scale,
    name: Fixed,
    mark: u32,
) -> Result<(), AllocError>
    ensures { OnOk result (pieces.new.items ≡ pieces.old.items ++ mark_pieces scale name mark) }
{
    let y = scale.y(mark);
    pieces.extend_from_slice(&[
        Piece::Fixed(Fixed::MarkAt),
        Piece::Tenths(y),
        Piece::Fixed(Fixed::MarkName),
        Piece::Tenths(y + 40),
        Piece::Fixed(name),
        Piece::Number(u64::from(mark)),
        Piece::Fixed(Fixed::TextEnd),
    ])
}

/// Adds the curve of the pending bytes, which keep their height up to the next line.
fn push_curve(pieces: &mut Vec<Piece>, scale: Scale, points: &[Point]) -> Result<(), AllocError>
    ensures { OnOk result (pieces.new.items ≡ pieces.old.items ++ curve_pieces scale points.now) }
{
    pieces.extend_from_slice(&[
        Piece::Fixed(Fixed::PathAt),
        Piece::Tenths(scale.x(0)),
        Piece::Fixed(Fixed::Space),
        Piece::Tenths(scale.y(0)),
    ])?;
    push_each::<Steps>(pieces, scale, points)?;
    Ok(pieces.push(Piece::Fixed(Fixed::CurveEnd))?)
}

/// A step of the curve: to the height of a line, and along to the next one.
struct Steps;

impl Drawn for Steps {
    type Of = Point;

    ghost drawn = { step_pieces };

    fn push(pieces: &mut Vec<Piece>, scale: Scale, point: Point) -> Result<(), AllocError> {
        pieces.extend_from_slice(&[
            Piece::Fixed(Fixed::Down),
            Piece::Tenths(scale.y(point.total)),
            Piece::Fixed(Fixed::Along),
            Piece::Tenths(scale.x(u64::from(point.place) + 1)),
        ])
    }
}

/// The triangle of a line's change, if it tells one.
struct Turns;

impl Drawn for Turns {
    type Of = Point;

    ghost drawn = { turn_pieces };

    fn push(pieces: &mut Vec<Piece>, scale: Scale, point: Point) -> Result<(), AllocError> {
        let turn = match point.change {
            None => return Ok(()),
            Some(Change::Unwritable) => Fixed::Stop,
            Some(Change::Writable) => Fixed::Go,
        };
        pieces.extend_from_slice(&[
            Piece::Fixed(Fixed::PathAt),
            Piece::Tenths(scale.x(u64::from(point.place))),
            Piece::Fixed(Fixed::Space),
            Piece::Tenths(scale.y(point.total)),
            Piece::Fixed(turn),
        ])
    }
}

/// Adds the texts below and above the picture.
fn push_end(pieces: &mut Vec<Piece>, scale: Scale) -> Result<(), AllocError>
    ensures { OnOk result (pieces.new.items ≡ pieces.old.items ++ end_pieces scale) }
{
    pieces.extend_from_slice(&[
        Piece::Fixed(Fixed::Legend),
        Piece::Number(u64::from(scale.lines)),
        Piece::Fixed(Fixed::End),
    ])
}
