ghost use Rattle.std.specs.Prelude.{◌≡◌, ◌≢◌, ◌++◌, ◌≤◌, List, ℕ, IfErr, OnOk, length, string_bytes};
ghost use Rattle.std.specs.Io.KnownBytes.{Appends};
ghost use Rattle.ob_script.specs.Reading.{greatest_script};
ghost use Rattle.ob_script.specs.Tracing.{IsWritingFault};
ghost use Rattle.ob_traces.specs.Telling.{TellsOfTrace};
ghost use Rattle.ob_traces.specs.declared.traces.line.TraceLine.{TraceLine};

use crate::traces::line::TraceLine;
use crate::traces::trace::read_trace;
use ob_script::{ScriptFault, read_script, write_text};
use std::alloc::{AllocError, Global};
use std::io::{Read, Write};

/// What tells something of the lines of a trace.
pub trait Teller {
    /// What it tells of lines.
    ghost Tells: { Self → List TraceLine → List ℕ → Type 0 };

    /// Adds what it tells of the lines.
    fn push_told(
        &self,
        alloc: Global,
        lines: &[TraceLine],
        text: &mut String,
    ) -> Result<(), AllocError>
        requires few { length lines.now ≤ greatest_script }
        ensures { OnOk result ((told : List ℕ) × Tells self.now lines.now told
            × (string_bytes text.new ≡ string_bytes text.old ++ told)) };
}

/// Reads a trace to its end, and writes what is told of its lines up to the first that is of no trace. If that is the
/// first line of all, nothing is written.
pub fn tell_of_trace<T: Teller, R: Read, W: Write>(
    alloc: Global,
    reader: &mut R,
    writer: &mut W,
    teller: &T,
) -> Result<(), ScriptFault>
    ensures { TellsOfTrace (T.Tells teller.now) (R.remaining reader.old) (R.remaining reader.new)
        (W.contents writer.old) (W.contents writer.new) result }
{
    let script = read_script(alloc, reader)?;
    let trace = read_trace(alloc, script)?;
    if trace.is_no_trace() {
        return trace.ended;
    }
    let mut text = String::new(alloc);
    teller.push_told(alloc, &trace.lines, &mut text)?;
    write_text(&text, writer)?;
    trace.ended
}
