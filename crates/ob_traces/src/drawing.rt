//! The subcommand `draw`: a trace as a picture.

ghost use Rattle.std.specs.Prelude.{◌≡◌};
ghost use Rattle.ob_traces.specs.Draw.{TellsPicture};
ghost use Rattle.ob_traces.specs.Telling.{TellsOfTrace};

pub mod drawn;
pub mod numbers;
pub mod picture;
pub mod piece;
pub mod point;
pub mod scale;
pub mod tick;

use crate::drawing::picture::make_picture;
use crate::drawing::piece::push_pieces;
use crate::drawing::point::shown;
use crate::traces::line::TraceLine;
use crate::traces::tell::{Teller, tell_of_trace};
use ob_script::ScriptFault;
use ob_types::WaterMark;
use std::alloc::{AllocError, Global};
use std::io::{Read, Write};

/// Draws a trace, against these marks.
#[derive(Clone, Copy)]
struct Drawing {
    marks: WaterMark,
}

impl Teller for Drawing {
    ghost Tells = { λ drawing lines told. TellsPicture drawing.marks lines told };

    fn push_told(
        &self,
        alloc: Global,
        lines: &[TraceLine],
        text: &mut String,
    ) -> Result<(), AllocError> {
        let shown = shown(alloc, lines)?;
        push_pieces(text, &make_picture(alloc, &shown, self.marks)?)
    }
}

/// Reads a trace to its end, and writes it as a picture, an SVG: the pending bytes over its lines, against these marks.
/// If a line is of no trace, the lines before it are drawn; if the first line is of none, nothing is written.
///
/// `Line` comes if a line is of no trace, `Read` if the reader fails or 33554432 reads do not bring the trace to
/// its end, `TooLong` if it has more than 16777216 bytes, `Write` if the writer fails, and `NoMemory` if the
/// allocator refuses.
pub fn draw<R: Read, W: Write>(
    alloc: Global,
    reader: &mut R,
    writer: &mut W,
    marks: WaterMark,
) -> Result<(), ScriptFault>
    ensures { TellsOfTrace (TellsPicture marks) (R.remaining reader.old) (R.remaining reader.new)
        (W.contents writer.old) (W.contents writer.new) result }
{
    tell_of_trace(alloc, reader, writer, &Drawing { marks })
}
