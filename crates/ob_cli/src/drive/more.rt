//! What `--verbose` tells beside the report.

ghost use Rattle.std.specs.Prelude.{◌≡◌, ◌+◌, ◌++◌, ◌≤◌, [], ◌∷◌, List, IfOk, OnOk, length, string_bytes};
ghost use Rattle.std.specs.Io.KnownBytes.{Appends};
ghost use Rattle.ob_types.specs.declared.command.Command.{Command};
ghost use Rattle.ob_seq.specs.Answer.{commands_after};
ghost use Rattle.ob_seq.specs.Looks.{look_after};
ghost use Rattle.ob_seq.specs.Pending.{StandsFor};
ghost use Rattle.ob_history.specs.History.{IsLegal, most_records};
ghost use Rattle.ob_cli.specs.More.{hint_text, lines_of, more_text, shown_with, time_text};
ghost use Rattle.ob_cli.specs.Run.{first_history};
ghost use Rattle.ob_traces.specs.Summary.{Summarizes};

use crate::cli::options::Options;
use crate::drive::Driven;
use ob_history::Record;
use ob_pool::Report;
use ob_script::{ScriptFault, push_number_line, write_text};
use ob_seq::{Buffer, Look};
use ob_traces::{Settled, Summary, Told, TraceLine, make_summary, push_levels};
use ob_types::{Command, Refusal, Reply};
use std::alloc::{AllocError, Global};
use std::io::Write;

/// What the records of a drive come to, as the lines of a trace.
pub fn summary_of(
    alloc: Global,
    options: &Options,
    records: &[Record],
) -> Result<Summary, AllocError>
    requires legal { IsLegal (first_history options.now).settings records.now }
    requires few { length records.now ≤ most_records }
    ensures { IfOk result (λ summary. Summarizes (lines_of (first_history options.now).settings records.now) summary) }
{
    let lines = make_lines(alloc, options, records)?;
    make_summary(alloc, &lines)
}

/// Writes what a drive shows beside its report.
pub fn write_more<W: Write>(
    alloc: Global,
    driven: &Driven,
    summary: &Summary,
    writer: &mut W,
) -> Result<(), ScriptFault>
    ensures { OnOk result (Appends (W.contents writer.old) (W.contents writer.new)
        (more_text driven.now.time driven.now.offers summary.now driven.now.report)) }
{
    let mut text = String::new(alloc);
    push_more(&mut text, driven, summary)?;
    write_text(&text, writer)
}

/// The records of a history as the lines of a trace, by a buffer that is given their commands.
fn make_lines(
    alloc: Global,
    options: &Options,
    records: &[Record],
) -> Result<Vec<TraceLine>, AllocError>
    requires legal { IsLegal (first_history options.now).settings records.now }
    ensures lines { IfOk result (λ lines. lines.items ≡ lines_of (first_history options.now).settings records.now) }
    ensures few { IfOk result (λ lines. length lines.items ≡ length records.now) }
{
    let mut lines = Vec::with_capacity(alloc, records.len())?;
    let mut buffer = Buffer::new(alloc, options.marks, options.estimate);
    for index in 0..records.len() {
        push_line(&mut lines, &mut buffer, &records[index])?;
    }
    Ok(lines)
}

/// Adds the line of a record, by a buffer that is given its command.
fn push_line(
    lines: &mut Vec<TraceLine>,
    buffer: &mut Buffer,
    one: &Record,
) -> Result<(), AllocError>
    ensures settings { buffer.new.settings ≡ buffer.old.settings }
    ensures stands { OnOk result ((commands : List Command) → StandsFor buffer.old commands
        → StandsFor buffer.new (commands_after buffer.old.settings commands one.now.command)) }
    ensures line { OnOk result ((commands : List Command) → StandsFor buffer.new commands
        → lines.new.items ≡ lines.old.items
        ++ shown_with one.now.reply (look_after buffer.new.settings commands) ∷ []) }
    ensures count { OnOk result (length lines.new.items ≡ length lines.old.items + 1) }
{
    give(buffer, one.command.copy()?)?;
    Ok(lines.push(shown_with(&one.reply, buffer.look()))?)
}

/// Gives a buffer one command, whose answer is in the history.
fn give(buffer: &mut Buffer, command: Command) -> Result<(), AllocError>
    ensures settings { buffer.new.settings ≡ buffer.old.settings }
    ensures stands { OnOk result ((commands : List Command) → StandsFor buffer.old commands
        → StandsFor buffer.new (commands_after buffer.old.settings commands command)) }
{
    match buffer.apply(command) {
        Err(Refusal::NoMemory) => Err(AllocError),
        _ => Ok(()),
    }
}

/// A record with the look behind it, as a line of a trace.
fn shown_with(reply: &Result<Reply, Refusal>, look: Look) -> TraceLine
    ensures { result ≡ shown_with reply.now look }
{
    let (told, change) = match reply {
        Ok(reply) => (Told::Accepted, reply.change),
        Err(refusal) => (Told::Refused(refusal.number()), None),
    };
    TraceLine {
        told,
        total: look.total,
        is_writable: look.word == 0,
        change,
        settled: Settled {
            success: 0,
            failed: 0,
            cancelled: 0,
        },
    }
}

/// Adds what a drive shows beside its report.
fn push_more(text: &mut String, driven: &Driven, summary: &Summary) -> Result<(), AllocError>
    ensures { OnOk result (string_bytes text.new ≡ string_bytes text.old
        ++ more_text driven.now.time driven.now.offers summary.now driven.now.report) }
{
    push_time(text, driven.time)?;
    push_number_line(text, "passes", driven.offers.passes)?;
    push_number_line(text, "stalls", driven.offers.stalls)?;
    push_levels(text, summary)?;
    push_hint(text, &driven.report)
}

/// Adds the line of how long the threads were at work, in milliseconds.
fn push_time(text: &mut String, time: Option<u64>) -> Result<(), AllocError>
    ensures { OnOk result (string_bytes text.new ≡ string_bytes text.old ++ time_text time) }
{
    match time {
        None => Ok(()),
        Some(time) => push_number_line(text, "milliseconds", time),
    }
}

/// Adds a hint if a promise is left and nothing was flushed.
fn push_hint(text: &mut String, report: &Report) -> Result<(), AllocError>
    ensures { OnOk result (string_bytes text.new ≡ string_bytes text.old ++ hint_text report.now) }
{
    if report.left > 0 && report.flushes == 0 {
        return text.push_str(
            "hint: nothing was flushed, so nothing was sent; a line `f W` has writer W flush\n",
        );
    }
    Ok(())
}
