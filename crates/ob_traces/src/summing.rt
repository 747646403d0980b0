//! The subcommand `summary`: what a trace comes to.

ghost use Rattle.ob_traces.specs.Summary.{TellsSummary};
ghost use Rattle.ob_traces.specs.Telling.{TellsOfTrace};

pub mod count;
pub mod make;
pub mod settlements;
pub mod text;
pub mod top;

use crate::summing::make::make_summary;
use crate::summing::text::push_summary;
use crate::traces::line::TraceLine;
use crate::traces::tell::{Teller, tell_of_trace};
use ob_script::ScriptFault;
use std::alloc::{AllocError, Global};
use std::io::{Read, Write};

/// Tells the summary of a trace.
struct Summarizer;

impl Teller for Summarizer {
    ghost Tells = { λ summarizer lines told. TellsSummary lines told };

    fn push_told(
        &self,
        alloc: Global,
        lines: &[TraceLine],
        text: &mut String,
    ) -> Result<(), AllocError> {
        push_summary(text, &make_summary(alloc, lines)?)
    }
}

/// Reads a trace to its end, and writes what it comes to. If a line is of no trace, that is told of the lines before it;
/// if the first line is of none, nothing is written.
///
/// `Line` comes if a line is of no trace, `Read` if the reader fails or 33554432 reads do not bring the trace to
/// its end, `TooLong` if it has more than 16777216 bytes, `Write` if the writer fails, and `NoMemory` if the
/// allocator refuses.
pub fn summary<R: Read, W: Write>(
    alloc: Global,
    reader: &mut R,
    writer: &mut W,
) -> Result<(), ScriptFault>
    ensures { TellsOfTrace TellsSummary (R.remaining reader.old) (R.remaining reader.new)
        (W.contents writer.old) (W.contents writer.new) result }
{
    tell_of_trace(alloc, reader, writer, &Summarizer)
}
