ghost use Rattle.std.specs.Prelude.{◌≡◌, ◌+◌, ◌-◌, ◌++◌, OnOk, string_bytes};
ghost use Rattle.std.specs.List.{flat_map};
ghost use Rattle.ob_traces.specs.Summary.{asked_text, from_text, levels_text, longest_text, peak_text, refusal_text};
ghost use Rattle.ob_traces.specs.Summary.{refused_text, settlements_text, stretch_text, summary_text};

use crate::summing::make::Summary;
use crate::summing::settlements::Settlements;
use crate::summing::top::Top;
use ob_script::push_number_line;
use std::alloc::AllocError;

/// Adds the lines of a summary.
pub fn push_summary(text: &mut String, summary: &Summary) -> Result<(), AllocError>
    ensures { OnOk result (string_bytes text.new ≡ string_bytes text.old ++ summary_text summary.now) }
{
    push_asked(text, summary)?;
    push_levels(text, summary)?;
    push_settlements(text, summary.settled)
}

/// Adds the lines of the pending bytes and of writability.
pub fn push_levels(text: &mut String, summary: &Summary) -> Result<(), AllocError>
    ensures { OnOk result (string_bytes text.new ≡ string_bytes text.old ++ levels_text summary.now) }
{
    push_peak(text, summary.peak)?;
    push_number_line(text, "stops", summary.stops as u64)?;
    push_number_line(text, "goes", summary.goes as u64)?;
    push_longest(text, summary.longest)?;
    push_number_line(text, "pending", u64::from(summary.pending))
}

/// Adds the lines of the promises, by outcome.
pub fn push_settlements(text: &mut String, settled: Settlements) -> Result<(), AllocError>
    ensures { OnOk result (string_bytes text.new ≡ string_bytes text.old ++ settlements_text settled) }
{
    push_number_line(text, "success", settled.success)?;
    push_number_line(text, "failed", settled.failed)?;
    push_number_line(text, "cancelled", settled.cancelled)
}

/// Adds the lines of what was asked.
fn push_asked(text: &mut String, summary: &Summary) -> Result<(), AllocError>
    ensures { OnOk result (string_bytes text.new ≡ string_bytes text.old ++ asked_text summary.now) }
{
    push_number_line(text, "lines", summary.lines as u64)?;
    push_number_line(text, "accepted", summary.accepted as u64)?;
    push_refused(text, summary.refused, &summary.refusals)
}

/// Adds the line of what was refused.
fn push_refused(
    text: &mut String,
    refused: usize,
    refusals: &[(u8, usize)],
) -> Result<(), AllocError>
    ensures { OnOk result (string_bytes text.new ≡ string_bytes text.old ++ refused_text refused refusals.now) }
{
    write!(text, "refused {refused}")?;
    push_refusals(text, refusals)?;
    text.push('\n')
}

/// Adds how often each refusal stands there.
fn push_refusals(text: &mut String, refusals: &[(u8, usize)]) -> Result<(), AllocError>
    ensures { OnOk result (string_bytes text.new ≡ string_bytes text.old ++ flat_map refusal_text refusals.now) }
{
    for refusal in refusals {
        push_refusal(text, *refusal)?;
    }
    Ok(())
}

/// Adds how often a refusal stands there, if it does.
fn push_refusal(text: &mut String, refusal: (u8, usize)) -> Result<(), AllocError>
    ensures { OnOk result (string_bytes text.new ≡ string_bytes text.old ++ refusal_text refusal) }
{
    let (number, count) = refusal;
    if count == 0 {
        return Ok(());
    }
    write!(text, " !{number}:{count}")
}

/// Adds the line of the most pending bytes.
fn push_peak(text: &mut String, peak: Option<Top>) -> Result<(), AllocError>
    ensures { OnOk result (string_bytes text.new ≡ string_bytes text.old ++ peak_text peak) }
{
    match peak {
        None => text.push_str("peak 0\n"),
        Some(Top { value, place }) => {
            let line = u64::from(place) + 1;
            writeln!(text, "peak {value} at line {line}")
        }
    }
}

/// Adds the line of the longest stretch of lines with a buffer that is not writable.
fn push_longest(text: &mut String, longest: Option<Top>) -> Result<(), AllocError>
    ensures { OnOk result (string_bytes text.new ≡ string_bytes text.old ++ longest_text longest) }
{
    match longest {
        Some(top) if top.value > 0 => push_stretch(text, top.value, first_of(top)),
        _ => text.push_str("unwritable 0\n"),
    }
}

/// Adds the line of a stretch of *n* lines.
fn push_stretch(text: &mut String, lines: u32, first: u64) -> Result<(), AllocError>
    ensures { OnOk result (string_bytes text.new ≡ string_bytes text.old ++ stretch_text lines first) }
{
    write!(text, "unwritable {lines}")?;
    push_from(text, first)
}

/// Adds from which line on.
fn push_from(text: &mut String, first: u64) -> Result<(), AllocError>
    ensures { OnOk result (string_bytes text.new ≡ string_bytes text.old ++ from_text first) }
{
    writeln!(text, " from line {first}")
}

/// The number of the first line of a stretch, by its last line.
fn first_of(top: Top) -> u64
    ensures { result ≡ top.place + 2 - top.value }
{
    // no stretch is longer than the lines up to its last
    (u64::from(top.place) + 2).saturating_sub(u64::from(top.value))
}
