ghost use Rattle.std.specs.Prelude.{◌≡◌, ◌++◌, OnOk, string_bytes};
ghost use Rattle.ob_cli.specs.Turns.{end_text, event_text, lane_text, turn_text};

use ob_core::Event;
use ob_script::{push_change, push_words};
use ob_types::Change;
use std::alloc::AllocError;

/// Adds the trace line of a lane, by its number.
pub fn push_lane(text: &mut String, number: usize) -> Result<(), AllocError>
    ensures { OnOk result (string_bytes text.new ≡ string_bytes text.old ++ lane_text number) }
{
    writeln!(text, "lane {number}")
}

/// Adds the trace line of a turn, by its event, the total and the word after it, and its change.
pub fn push_turn(
    text: &mut String,
    event: Event,
    total: u32,
    word: u32,
    change: Option<Change>,
) -> Result<(), AllocError>
    ensures { OnOk result (string_bytes text.new ≡ string_bytes text.old ++ turn_text event total word change) }
{
    push_event(text, event)?;
    push_words(text, total, word)?;
    push_change(text, change)?;
    text.push('\n')
}

/// Adds the last line, by the sum owed. A core is always quiet.
pub fn push_end(text: &mut String, owed: u32) -> Result<(), AllocError>
    ensures { OnOk result (string_bytes text.new ≡ string_bytes text.old ++ end_text owed) }
{
    writeln!(text, "end quiet owed={owed}")
}

/// Adds the event of a turn.
fn push_event(text: &mut String, event: Event) -> Result<(), AllocError>
    ensures { OnOk result (string_bytes text.new ≡ string_bytes text.old ++ event_text event) }
{
    match event {
        Event::Added => text.push_str("add"),
        Event::Subtracted => text.push_str("sub"),
        Event::BitSet | Event::BitCleared => text.push_str("bit"),
        Event::ReadWord => text.push_str("word"),
        Event::ReadTotal => text.push_str("total"),
        Event::Nothing => text.push_str("none"),
        Event::Refused(fault) => write!(text, "!{}", fault.number()),
    }
}
