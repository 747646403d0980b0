ghost use Rattle.std.specs.Prelude.{◌≡◌, ◌≤◌, IfOk, length};
ghost use Rattle.ob_script.specs.Reading.{greatest_script, script_fault, script_lines};
ghost use Rattle.ob_script.specs.Tracing.{WentThrough, fault_told};
ghost use Rattle.ob_traces.specs.Traces.{trace_grammar};

use crate::traces::line::TraceLine;
use crate::traces::read::read_trace_line;
use ob_script::{Cursor, Grammar, LineFault, ScriptFault};
use std::alloc::{AllocError, Global};

/// What was read of a trace.
#[derive(Drop)]
pub struct Trace {
    /// Its lines up to the first that is of no trace.
    pub lines: Vec<TraceLine>,
    /// The fault of that one, if there is one.
    pub ended: Result<(), ScriptFault>,
}

impl Trace {
    ghost use Rattle.std.specs.Prelude.{◌≡◌, ◌&&◌, ◌==◌, is_err, length};

    /// Whether the very first line is of no trace.
    pub fn is_no_trace(&self) -> bool
        ensures { result ≡ (length self.now.lines.items == 0) && is_err self.now.ended }
    {
        self.lines.is_empty() && self.ended.is_err()
    }
}

/// The grammar of traces.
struct OfTraces;

impl Grammar for OfTraces {
    type Line = TraceLine;

    ghost grammar = { trace_grammar };

    fn read(line: &[u8]) -> Result<TraceLine, LineFault> {
        read_trace_line(line)
    }
}

/// Reads the lines of a trace up to the first that is of none.
pub fn read_trace(alloc: Global, trace: Vec<u8>) -> Result<Trace, AllocError>
    requires small { length trace.items ≤ greatest_script }
    ensures lines { IfOk result (λ read. read.lines.items ≡ script_lines trace_grammar trace.items) }
    ensures few { IfOk result (λ read. length read.lines.items ≤ greatest_script) }
    ensures through { IfOk result (λ read. WentThrough read.ended) }
    ensures fault { IfOk result (λ read. fault_told read.ended ≡ script_fault trace_grammar trace.items) }
{
    let mut lines = Vec::new(alloc);
    let mut cursor = Cursor::new(trace);
    while !cursor.is_at_end() {
        match cursor.read::<OfTraces>() {
            Ok(line) => lines.push(line)?,
            Err(fault) => {
                return Ok(Trace {
                    lines,
                    ended: Err(fault),
                });
            }
        }
    }
    Ok(Trace {
        lines,
        ended: Ok(()),
    })
}
