ghost use Rattle.std.specs.Prelude.{◌≡◌, ◌≢◌, ◌++◌, ◌<◌, ◌≤◌, [], ◌∷◌, List, true, not, Ok, IsOk, IfOk, OnOk, OnErr};
ghost use Rattle.std.specs.Prelude.{IfErr, length};
ghost use Rattle.std.specs.Io.KnownBytes.{Keeps, append_known};
ghost use Rattle.ob_script.specs.Inside.{Ends, LinesEnd, HasTraced};
ghost use Rattle.ob_script.specs.Reading.{greatest_script, script_lines};
ghost use Rattle.ob_script.specs.declared.script_fault.ScriptFault.TheVariants.{Write};

use crate::reading::cursor::Cursor;
use crate::reading::fault::LineFault;
use crate::script_fault::ScriptFault;
use crate::tracing::interpreter::Interpreter;
use std::alloc::{AllocError, Global};
use std::io;

/// How many bytes of trace wait before they are written.
const PIECE: usize = 65536;

/// Carries out the lines of a script up to the first faulty one, and writes the trace in large pieces. The rest of the
/// trace is left waiting, in whole lines, unless the writer failed.
pub fn trace_script<I: Interpreter, W: io::Write>(
    alloc: Global,
    interpreter: &mut I,
    script: Vec<u8>,
    waiting: &mut Vec<u8>,
    writer: &mut W,
) -> Result<(), ScriptFault>
    requires small { length script.items ≤ greatest_script }
    requires fresh { I.HasDone interpreter.old [] }
    requires empty { waiting.old.items ≡ [] }
    ensures { Ends (record { grammar = I.grammar; texts = I.texts interpreter.old }) script.items
        (HasTraced (W.contents writer.old) (W.contents writer.new) waiting.new.items) result }
{
    trace_lines(alloc, interpreter, script, waiting, writer)?;
    match trace_last(alloc, interpreter, waiting) {
        Ok(()) => Ok(()),
        Err(_) => Err(ScriptFault::NoMemory),
    }
}

/// Carries out the lines of a script up to the first faulty one, and traces them.
pub fn trace_lines<I: Interpreter, W: io::Write>(
    alloc: Global,
    interpreter: &mut I,
    script: Vec<u8>,
    waiting: &mut Vec<u8>,
    writer: &mut W,
) -> Result<(), ScriptFault>
    requires small { length script.items ≤ greatest_script }
    requires fresh { I.HasDone interpreter.old [] }
    requires empty { waiting.old.items ≡ [] }
    ensures lines { LinesEnd (record { grammar = I.grammar; texts = I.texts interpreter.old }) script.items
        (HasTraced (W.contents writer.old) (W.contents writer.new) waiting.new.items) result }
    ensures done { OnOk result (I.HasDone interpreter.new (script_lines I.grammar script.items)) }
    ensures texts { OnOk result (I.texts interpreter.new ≡ I.texts interpreter.old) }
{
    let mut cursor = Cursor::new(script);
    let mut text = String::new(alloc);
    'lines: while !cursor.is_at_end() {
        let line = cursor.read::<I>()?;
        if !trace_line(alloc, interpreter, line, &mut text, waiting)? {
            return Err(cursor.fault(LineFault::Misplaced));
        }
        spill(waiting, writer)?;
    }
    Ok(())
}

/// Carries out one line, and adds its trace to what waits, or returns `false` if the line is misplaced.
fn trace_line<I: Interpreter>(
    alloc: Global,
    interpreter: &mut I,
    line: I::Line,
    text: &mut String,
    waiting: &mut Vec<u8>,
) -> Result<bool, AllocError>
    ensures texts { I.texts interpreter.new ≡ I.texts interpreter.old }
    ensures fits { IfOk result (λ fits. (before : List I.Line) → I.HasDone interpreter.old before
        → fits ≡ not (I.grammar.is_misplaced before line)) }
    ensures done { IfOk result (λ fits. fits ≡ true → (before : List I.Line) → I.HasDone interpreter.old before
        → I.HasDone interpreter.new (before ++ line ∷ [])) }
    ensures text { IfOk result (λ fits. fits ≡ true → (before : List I.Line) → I.HasDone interpreter.old before
        → waiting.new.items ≡ waiting.old.items ++ (I.texts interpreter.old).line_text before line) }
    ensures kept { result ≢ Ok true → waiting.new.items ≡ waiting.old.items }
{
    text.clear();
    if !interpreter.carry_out(alloc, line, text)? {
        return Ok(false);
    }
    waiting.extend_from_slice(text.as_bytes())?;
    Ok(true)
}

/// Adds the text behind the trace of all lines to what waits.
fn trace_last<I: Interpreter>(
    alloc: Global,
    interpreter: &I,
    waiting: &mut Vec<u8>,
) -> Result<(), AllocError>
    ensures text { OnOk result ((lines : List I.Line) → I.HasDone interpreter.now lines
        → waiting.new.items ≡ waiting.old.items ++ (I.texts interpreter.now).last_text lines) }
    ensures kept { OnErr result (waiting.new.items ≡ waiting.old.items) }
{
    let mut text = String::new(alloc);
    interpreter.push_last(&mut text)?;
    waiting.extend_from_slice(text.as_bytes())
}

/// Writes what waits, once there is enough of it.
fn spill<W: io::Write>(waiting: &mut Vec<u8>, writer: &mut W) -> Result<(), ScriptFault>
    ensures kept { OnOk result (Keeps (append_known (W.contents writer.old) waiting.old.items)
        (append_known (W.contents writer.new) waiting.new.items)) }
    ensures fault { IfErr result (λ fault. fault ≡ Write) }
    ensures in_large_pieces { length waiting.old.items < 65536 → IsOk result }
{
    if waiting.len() < PIECE {
        return Ok(());
    }
    if writer.write_all(waiting.as_slice()).is_err() {
        return Err(ScriptFault::Write);
    }
    waiting.clear();
    Ok(())
}
