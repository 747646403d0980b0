ghost use Rattle.std.specs.List.{All};
ghost use Rattle.std.specs.Prelude.{◌≡◌, ◌≢◌, ◌≤◌, ℕ, codes, false, length, IfSome, IfErr, IsErrOf, OnOk};
ghost use Rattle.std.specs.Io.KnownBytes.{Appends, Keeps};
ghost use Rattle.ob_history.specs.History.{most_records, IsLegal};
ghost use Rattle.ob_cli.specs.Run.{first_history};
ghost use Rattle.ob_cli.specs.Drive.{WritesReport, drive_grammar, plans_of};
ghost use Rattle.ob_script.specs.Reading.{script_lines};
ghost use Rattle.ob_script.specs.Tracing.{GoesThrough, WentThrough, fault_told};
ghost use Rattle.ob_cli.specs.Request.{OfScript, status_of, WritesRequested, requested_fault, requested_trace_of_first};
ghost use Rattle.ob_cli.specs.Request.{Leaves, status_after};
ghost use Rattle.ob_cli.specs.declared.request_fault.RequestFault.TheVariants.{Script};

use crate::cli::command_line::request_of;
use crate::cli::fault::EntryFault;
use crate::cli::options::Options;
use crate::cli::request::Request;
use crate::drive::more::{summary_of, write_more};
use crate::drive::{Driven, drive_script};
use crate::request_fault::RequestFault;
use crate::run::run;
use crate::turns::core;
use ob_script::ScriptFault;
use ob_traces::{draw, summary};
use std::alloc::Global;
use std::convert::AsStr;
use std::io::{Read, Write};
use std::sync::Wait;
use std::thread::Threads;
use std::time::Clock;

/// Does all that the program does: reads its words, runs the script that the reader has, writes the trace or the
/// report, and tells a fault on `errors`. The answer is the status with which the program ends.
pub fn entry<H: AllocGlobal + Threads + Wait + Clock + Sync, S: AsStr, R: Read, W: Write, E: Write>(
    rt: &H,
    words: &[S],
    reader: &mut R,
    writer: &mut W,
    errors: &mut E,
) -> u8
    // What is read and written goes by the status; at status 0 nothing is told on `errors` unless `--verbose` asks for it.
    ensures leaves { Leaves result reader.old reader.new (R.remaining reader.old)
        (W.contents writer.old) (W.contents writer.new) }
    ensures quiet { result ≡ 0 → All (λ word. S.text word ≢ codes "--verbose") words.now
        → Keeps (E.contents errors.old) (E.contents errors.new) }
    ensures within { result ≤ 5 }
{
    match start(rt, words, reader, writer, errors) {
        Ok(()) => 0,
        Err(fault) => {
            print_fault(&fault, errors, is_verbose(words));
            fault.status()
        }
    }
}

/// Reads the words, and runs the script.
fn start<H: AllocGlobal + Threads + Wait + Clock + Sync, S: AsStr, R: Read, W: Write, E: Write>(
    rt: &H,
    words: &[S],
    reader: &mut R,
    writer: &mut W,
    errors: &mut E,
) -> Result<(), EntryFault>
    ensures quiet { All (λ word. S.text word ≢ codes "--verbose") words.now
        → Keeps (E.contents errors.old) (E.contents errors.new) }
    ensures leaves { Leaves (status_after result) reader.old reader.new (R.remaining reader.old)
        (W.contents writer.old) (W.contents writer.new) }
{
    let request = match request_of(rt.alloc(), words) {
        Ok(request) => request,
        Err(fault) => return Err(fault),
    };
    let kind = request.kind();
    match carry_out(rt, reader, writer, errors, request, is_verbose(words)) {
        Ok(()) => Ok(()),
        Err(fault) => Err(EntryFault::Run { kind, fault }),
    }
}

/// Whether one of the words asks for more than a fault's number and a drive's report.
fn is_verbose<S: AsStr>(words: &[S]) -> bool
    ensures { All (λ word. S.text word ≢ codes "--verbose") words.now → result ≡ false }
{
    for word in words {
        if word.as_str() == "--verbose" {
            return true;
        }
    }
    false
}

/// Does what was asked for, at the end of the script or at its first faulty line with the trace of what was read.
fn carry_out<H: AllocGlobal + Threads + Wait + Clock + Sync, R: Read, W: Write, E: Write>(
    rt: &H,
    reader: &mut R,
    writer: &mut W,
    errors: &mut E,
    request: Request,
    verbose: bool,
) -> Result<(), RequestFault>
    ensures quiet { verbose ≡ false → Keeps (E.contents errors.old) (E.contents errors.new) }
    ensures written { OfScript result (λ ended. WentThrough ended → IfSome (R.remaining reader.old) (λ script.
        WritesRequested request script (fault_told ended) (W.contents writer.old) (W.contents writer.new))) }
    ensures fault { OfScript result (λ ended. WentThrough ended
        → IfSome (R.remaining reader.old) (λ script. fault_told ended ≡ requested_fault request script)) }
    ensures no_memory { IsErrOf result (Script ScriptFault.NoMemory) → IfSome (R.remaining reader.old) (λ script.
        (count : ℕ) × Appends (W.contents writer.old) (W.contents writer.new)
        (requested_trace_of_first count request script)) }
    ensures undriven { IfErr result (λ fault. status_of fault ≡ 5
        → Keeps (W.contents writer.old) (W.contents writer.new)) }
{
    match request {
        Request::Run(options) => Ok(run(rt.alloc(), reader, writer, options)?),
        Request::Core(marks) => Ok(core(rt.alloc(), reader, writer, marks)?),
        Request::Drive(options) => drive(rt, reader, writer, errors, &options, verbose),
        Request::Summary => Ok(summary(rt.alloc(), reader, writer)?),
        Request::Draw(marks) => Ok(draw(rt.alloc(), reader, writer, marks)?),
    }
}

/// Does a drive, and tells what it shows beside its report if that is asked for.
fn drive<H: AllocGlobal + Threads + Wait + Clock + Sync, R: Read, W: Write, E: Write>(
    rt: &H,
    reader: &mut R,
    writer: &mut W,
    errors: &mut E,
    options: &Options,
    verbose: bool,
) -> Result<(), RequestFault>
    ensures quiet { verbose ≡ false → Keeps (E.contents errors.old) (E.contents errors.new) }
    ensures report { OnOk result (IfSome (R.remaining reader.old) (λ script.
        WritesReport options.now (plans_of (script_lines drive_grammar script))
        (W.contents writer.old) (W.contents writer.new))) }
    ensures through { OfScript result (GoesThrough drive_grammar (R.remaining reader.old) (R.remaining reader.new)) }
    ensures unwritten { IfErr result (λ fault. fault ≢ Script ScriptFault.Write
        → Keeps (W.contents writer.old) (W.contents writer.new)) }
{
    let driven = drive_script(rt, reader, writer, options)?;
    if verbose {
        tell_more(rt.alloc(), options, &driven, errors);
    }
    // by one call, since the end of the scope is followed field by field
    drop(driven);
    Ok(())
}

/// Tells what a drive shows beside its report, or why that can't be told. The report is written by then.
fn tell_more<E: Write>(alloc: Global, options: &Options, driven: &Driven, errors: &mut E)
    requires legal { IsLegal (first_history options.now).settings driven.now.report.recorded.records }
    requires few { length driven.now.report.recorded.records ≤ most_records }
{
    let told = match summary_of(alloc, options, driven.report.recorded.records()) {
        Ok(summary) => write_more(alloc, driven, &summary, errors),
        Err(_) => Err(ScriptFault::NoMemory),
    };
    if let Err(fault) = told {
        let _ = writeln!(errors, "--verbose: {fault}");
    }
}

/// Tells a fault, and in words if that is asked for. If that fails there is nobody left to tell.
fn print_fault<E: Write>(fault: &EntryFault, errors: &mut E, verbose: bool) {
    let _ = fault.write(errors);
    if verbose {
        let _ = fault.write_words(errors);
    }
}
