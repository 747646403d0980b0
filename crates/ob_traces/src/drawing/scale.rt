use crate::drawing::numbers::{greater, nearest};
use crate::traces::line::TraceLine;

/// How far the axis of bytes stands from the left, in tenths of a pixel.
const LEFT: u64 = 1120;

/// How long the axis of lines is, in tenths of a pixel.
const WIDTH: u64 = 7520;

/// How far the axis of lines stands from the top, in tenths of a pixel: at 350 pixels, where `piece.rt` draws it and
/// `docs/draw-marks` has its bottom.
const BOTTOM: u64 = 3500;

/// How long the axis of bytes is, in tenths of a pixel.
const HEIGHT: u64 = 3060;

/// Where lines and bytes stand in a picture.
#[derive(Clone, Copy)]
pub struct Scale {
    /// How many lines there are.
    pub lines: u32,
    /// The most bytes that they show, or the high mark.
    pub most: u32,
}

impl Scale {
    ghost use Rattle.std.specs.Prelude.{◌≡◌, ◌≤◌, length};
    ghost use Rattle.ob_script.specs.Reading.{greatest_script};
    ghost use Rattle.ob_traces.specs.Draw.{scale_of, x_of, y_of};

    /// The scale for these lines and this high mark.
    pub fn new(shown: &[TraceLine], high: u32) -> Scale
        requires few { length shown.now ≤ greatest_script }
        ensures { result ≡ scale_of shown.now high }
    {
        let mut most = high;
        for line in shown {
            most = greater(most, line.total);
        }
        Scale {
            lines: shown.len() as u32,
            most,
        }
    }

    /// Where the line of a place begins, in tenths of a pixel from the left.
    pub fn x(self, place: u64) -> u64
        requires near { place ≤ 8589934592 }
        ensures { result ≡ x_of self place }
    {
        LEFT + nearest(WIDTH * place, u64::from(greater(self.lines, 1)))
    }

    /// Where `total` bytes stand, in tenths of a pixel from the top. The axis has room for 108 hundredths of the most that is
    /// shown.
    pub fn y(self, total: u32) -> u64
        ensures { result ≡ y_of self total }
    {
        let height = nearest(
            HEIGHT * 100 * u64::from(total),
            108 * u64::from(greater(self.most, 1)),
        );
        BOTTOM.saturating_sub(height)
    }
}
