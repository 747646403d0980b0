ghost use Rattle.std.specs.Prelude.{◌≡◌, ◌++◌, OnOk, string_bytes};
ghost use Rattle.ob_cli.specs.Drive.{commands_text, hand_text, messages_text, report_text, settled_in};

use ob_pool::Report;
use ob_script::push_number_line;
use ob_traces::{Settlements, push_settlements};
use std::alloc::AllocError;

/// Adds the lines of a report.
pub fn push_report(text: &mut String, report: &Report) -> Result<(), AllocError>
    ensures { OnOk result (string_bytes text.new ≡ string_bytes text.old ++ report_text report.now) }
{
    push_commands(text, report)?;
    push_messages(text, report)?;
    push_hand(text, report.hand)
}

/// Adds the lines of what the writers did.
fn push_commands(text: &mut String, report: &Report) -> Result<(), AllocError>
    ensures { OnOk result (string_bytes text.new ≡ string_bytes text.old ++ commands_text report.now) }
{
    push_number_line(text, "writes", report.writes)?;
    push_number_line(text, "flushes", report.flushes)?;
    push_number_line(text, "cancels", report.cancels)?;
    push_number_line(text, "bits", report.bits)?;
    push_number_line(text, "refused", report.refused)
}

/// Adds the lines of what became of the messages.
fn push_messages(text: &mut String, report: &Report) -> Result<(), AllocError>
    ensures { OnOk result (string_bytes text.new ≡ string_bytes text.old ++ messages_text report.now) }
{
    push_number_line(text, "taken", report.taken)?;
    push_settlements(text, settled_in(report))?;
    push_number_line(text, "left", report.left)
}

/// How many promises are settled, by outcome.
fn settled_in(report: &Report) -> Settlements
    ensures { result ≡ settled_in report.now }
{
    Settlements {
        success: report.success,
        failed: report.failed,
        cancelled: report.cancelled,
    }
}

/// Adds the line of the words of the hand-off.
fn push_hand(text: &mut String, hand: (u64, u32)) -> Result<(), AllocError>
    ensures { OnOk result (string_bytes text.new ≡ string_bytes text.old ++ hand_text hand) }
{
    let (total, word) = hand;
    writeln!(text, "hand {total} {word:08x}")
}
