ghost use Rattle.std.specs.Prelude.{◌≤◌, [], length};
ghost use Rattle.std.specs.Io.KnownBytes.{Appends};
ghost use Rattle.ob_script.specs.Inside.{Ends};
ghost use Rattle.ob_script.specs.Reading.{greatest_script};
ghost use Rattle.ob_script.specs.Tracing.{Interprets};

use crate::reading::script::read_script;
use crate::script_fault::ScriptFault;
use crate::tracing::interpreter::Interpreter;
use crate::tracing::trace::trace_script;
use std::alloc::Global;
use std::io::{Read, Write};

/// Reads a script to its end, has its lines carried out up to the first faulty one, and writes the trace.
pub fn interpret<I: Interpreter, R: Read, W: Write>(
    alloc: Global,
    reader: &mut R,
    writer: &mut W,
    interpreter: I,
) -> Result<(), ScriptFault>
    requires fresh { I.HasDone interpreter [] }
    ensures { Interprets (record { grammar = I.grammar; texts = I.texts interpreter })
        (R.remaining reader.old) (R.remaining reader.new) (W.contents writer.old) (W.contents writer.new) result }
{
    let script = read_script(alloc, reader)?;
    write_trace(alloc, script, writer, interpreter)
}

/// Has the lines of a script carried out, and writes the trace.
fn write_trace<I: Interpreter, W: Write>(
    alloc: Global,
    script: Vec<u8>,
    writer: &mut W,
    interpreter: I,
) -> Result<(), ScriptFault>
    requires small { length script.items ≤ greatest_script }
    requires fresh { I.HasDone interpreter [] }
    ensures { Ends (record { grammar = I.grammar; texts = I.texts interpreter }) script.items
        (Appends (W.contents writer.old) (W.contents writer.new)) result }
{
    let mut interpreter = interpreter;
    let mut waiting = Vec::new(alloc);
    let ended = trace_script(alloc, &mut interpreter, script, &mut waiting, writer);
    if matches!(ended, Err(ScriptFault::Write)) {
        return ended;
    }
    if writer.write_all(&waiting).is_err() || writer.flush().is_err() {
        return Err(ScriptFault::Write);
    }
    ended
}
