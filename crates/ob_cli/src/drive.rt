//! The subcommand `drive`: writers in threads, and a transport beside them.

ghost use Rattle.std.specs.Prelude.{◌≡◌, ◌≢◌, ◌≤◌, None, IfErr, IfOk, IfSome, IsErrOf, OnOk, length};
ghost use Rattle.std.specs.Io.KnownBytes.{Appends, Keeps};
ghost use Rattle.ob_history.specs.History.{most_records, IsLegal};
ghost use Rattle.ob_pool.specs.Drive.{plans_fault};
ghost use Rattle.ob_pool.specs.Report.{TellsOf};
ghost use Rattle.ob_pool.specs.declared.fault.DriveFault.{DriveFault};
ghost use Rattle.ob_cli.specs.Drive.{ComesTo, WritesReport, drive_grammar, plans_in, plans_of, report_text};
ghost use Rattle.ob_cli.specs.Inside.{HasKept};
ghost use Rattle.ob_script.specs.Inside.{ReadingEnds};
ghost use Rattle.ob_script.specs.Tracing.{GoesThrough, IsWritingFault};
ghost use Rattle.ob_cli.specs.Run.{first_history};
ghost use Rattle.ob_cli.specs.Request.{IsFaultOfDrive, OfScript};
ghost use Rattle.ob_script.specs.Reading.{greatest_script, script_lines};
ghost use Rattle.ob_cli.specs.declared.request_fault.RequestFault.TheVariants.{Drive, Script};

pub mod line;
pub mod more;
pub mod offers;
pub mod plans;
pub mod session;
pub mod text;
pub mod words;

use crate::cli::options::Options;
use crate::drive::offers::{CountingSink, Offers};
use crate::drive::plans::make_plans;
use crate::drive::session::DriveSession;
use crate::drive::text::push_report;
use crate::request_fault::RequestFault;
use ob_pool::{Config, OpenGate, Report, drive};
use ob_script::{Cursor, LineFault, ScriptFault, read_script, write_text};
use ob_transport::Limits;
use std::alloc::Global;
use std::io::{Read, Write};
use std::sync::Wait;
use std::thread::Threads;
use std::time::{Clock, Instant};

/// What a pass offers to the sink at most.
const LIMITS: Limits = Limits {
    max_count: 16,
    max_bytes: 65536,
};

/// What a drive came to, and what it shows beside its report.
#[derive(Drop)]
pub struct Driven {
    pub report: Report,
    /// How many milliseconds the threads were at work, if the clock tells it.
    pub time: Option<u64>,
    pub offers: Offers,
}

/// Reads a drive script to its end, has its writers carry out what its lines ask, each in a thread of its own, with one
/// transport beside them, and writes the lines of the report. All lines are read before a thread starts. What the drive came
/// to is answered.
///
/// `Line` comes if a line is faulty, `Read` if the reader fails or 33554432 reads do not bring the script to its
/// end, `TooLong` if it has more than 16777216 bytes, `Drive` if the drive comes to no report, `Write` if the
/// writer fails, and `NoMemory` if the allocator refuses before the drive or behind it.
pub fn drive_script<H: AllocGlobal + Threads + Wait + Clock + Sync, R: Read, W: Write>(
    rt: &H,
    reader: &mut R,
    writer: &mut W,
    options: &Options,
) -> Result<Driven, RequestFault>
    // What was read has plans without a fault, and the text of a report on a drive of them is written and nothing else.
    ensures report { OnOk result (IfSome (R.remaining reader.old) (λ script.
        WritesReport options.now (plans_of (script_lines drive_grammar script))
        (W.contents writer.old) (W.contents writer.new))) }
    ensures through { OfScript result (GoesThrough drive_grammar (R.remaining reader.old) (R.remaining reader.new)) }

    // The history that is answered is one of a single thread, with the options' marks and sizes.
    ensures legal { IfOk result (λ driven.
        IsLegal (first_history options.now).settings driven.report.recorded.records) }
    ensures few { IfOk result (λ driven. length driven.report.recorded.records ≤ most_records) }

    // A fault of the drive is the first that the plans have, or one that no plans have.
    ensures drive { (fault : DriveFault) → IsErrOf result (Drive fault) → IfSome (R.remaining reader.old) (λ script.
        ComesTo options.now (plans_of (script_lines drive_grammar script)) fault) }

    // Without a report nothing is written, unless the writer fails.
    ensures unwritten { IfErr result (λ fault. fault ≢ Script ScriptFault.Write
        → Keeps (W.contents writer.old) (W.contents writer.new)) }
{
    let script = read_script(rt.alloc(), reader)?;
    let session = read_lines(rt.alloc(), script)?;
    let driven = drive_session(rt, session, options)?;
    match write_report(rt.alloc(), &driven.report, writer) {
        Ok(()) => Ok(driven),
        Err(fault) => {
            // by one call, since the end of the scope is followed field by field
            drop(driven);
            Err(RequestFault::Script(fault))
        }
    }
}

/// Reads the lines of a drive script up to the first faulty one.
pub fn read_lines(alloc: Global, script: Vec<u8>) -> Result<DriveSession, ScriptFault>
    requires small { length script.items ≤ greatest_script }
    ensures kept { IfOk result (λ session. HasKept session (script_lines drive_grammar script.items)) }
    ensures ends { ReadingEnds drive_grammar script.items result }
{
    let mut session = DriveSession::new(alloc);
    let mut cursor = Cursor::new(script);
    while !cursor.is_at_end() {
        let line = cursor.read::<DriveSession>()?;
        if !session.keep(line)? {
            return Err(cursor.fault(LineFault::Misplaced));
        }
    }
    Ok(session)
}

/// Has the plans of a script carried out, while its sink takes what is flushed.
fn drive_session<H: AllocGlobal + Threads + Wait + Clock + Sync>(
    rt: &H,
    session: DriveSession,
    options: &Options,
) -> Result<Driven, RequestFault>
    ensures told { IfOk result (λ driven.
        TellsOf (first_history options.now) (plans_in session.writers.items) driven.report) }
    ensures few { IfOk result (λ driven. length driven.report.recorded.records ≤ most_records) }
    ensures faultless { OnOk result
        (plans_fault options.now.estimate options.now.task (plans_in session.writers.items) ≡ None) }
    ensures faults { IfErr result IsFaultOfDrive }
    ensures drive { (fault : DriveFault) → IsErrOf result (Drive fault)
        → ComesTo options.now (plans_in session.writers.items) fault }
{
    let plans = make_plans(rt.alloc(), &session.writers)?;
    let config = config(options, session.most_passes());
    let mut sink = CountingSink::new(session.into_sink());
    let begun = Instant::now(rt).ok();
    match drive(rt, &OpenGate, plans, &mut sink, config) {
        Ok(report) => Ok(Driven {
            report,
            time: milliseconds_since(rt, begun),
            offers: sink.offers,
        }),
        Err(fault) => Err(RequestFault::Drive(fault)),
    }
}

/// How many milliseconds have gone since then, if the clock tells both times.
fn milliseconds_since(clock: &impl Clock, begun: Option<Instant>) -> Option<u64> {
    let gone = begun?.elapsed(clock).ok()?;
    u64::try_from(gone.as_millis()).ok()
}

/// What a drive is given by the options of the program, and by how many passes the transport makes at most.
fn config(options: &Options, turns: u32) -> Config
    ensures { result ≡ record {
      marks = options.now.marks;
      estimate = options.now.estimate;
      task = options.now.task;
      limit = options.now.limit;
      limits = record { max_count = 16; max_bytes = 65536 };
      turns = turns;
      heed = options.now.heed;
    } }
{
    Config {
        marks: options.marks,
        estimate: options.estimate,
        task: options.task,
        limit: options.limit,
        limits: LIMITS,
        turns: u64::from(turns),
        heed: options.heed,
    }
}

/// Writes the lines of a report.
fn write_report<W: Write>(alloc: Global, report: &Report, writer: &mut W) -> Result<(), ScriptFault>
    ensures text { OnOk result (Appends (W.contents writer.old) (W.contents writer.new) (report_text report.now)) }
    ensures faults { IfErr result IsWritingFault }
    ensures unwritten { IfErr result (λ fault. fault ≢ ScriptFault.Write
        → Keeps (W.contents writer.old) (W.contents writer.new)) }
{
    let mut text = String::new(alloc);
    push_report(&mut text, report)?;
    write_text(&text, writer)
}
