ghost use Rattle.std.specs.Prelude.{◌≡◌, ◌++◌, OnOk, Ok, Err, string_bytes};
ghost use Rattle.std.specs.Fmt.{decimal};
ghost use Rattle.std.specs.List.{flat_map};
ghost use Rattle.ob_cli.specs.Run.{answer_text, command_text, gathered_text, length_text, levels_text, look_text};
ghost use Rattle.ob_cli.specs.Run.{outcome_text, settlement_text};

use bytes::Bytes;
use ob_script::{push_change, push_number, push_words};
use ob_seq::Look;
use ob_types::{Answer, Outcome, PromiseId, Refusal, Reply};
use std::alloc::AllocError;

/// Adds the trace line of an accepted command, by its reply and the look after it.
pub fn push_reply(text: &mut String, reply: &Reply, look: &Look) -> Result<(), AllocError>
    ensures { OnOk result (string_bytes text.new ≡ string_bytes text.old ++ command_text (Ok reply.now) look.now) }
{
    push_answer(text, reply.answer)?;
    push_levels(text, look)?;
    push_change(text, reply.change)?;
    push_settlements(text, reply.settled.as_slice())?;
    text.push('\n')
}

/// Adds the trace line of a refused command, by its refusal and the look after it.
pub fn push_refusal(text: &mut String, refusal: Refusal, look: &Look) -> Result<(), AllocError>
    ensures { OnOk result (string_bytes text.new ≡ string_bytes text.old ++ command_text (Err refusal) look.now) }
{
    text.push('!')?;
    push_number(text, u64::from(refusal.number()))?;
    push_levels(text, look)?;
    text.push('\n')
}

/// Adds the trace line of a look.
pub fn push_look(text: &mut String, look: &Look) -> Result<(), AllocError>
    ensures { OnOk result (string_bytes text.new ≡ string_bytes text.old ++ look_text look.now) }
{
    push_labelled(text, "size=", u64::from(look.size))?;
    push_labelled(text, " cur=", look.current_progress)?;
    push_labelled(text, " bu=", u64::from(look.before_unwritable))?;
    push_labelled(text, " bw=", u64::from(look.before_writable))?;
    push_levels(text, look)?;
    text.push('\n')
}

/// Adds a number behind its label.
fn push_labelled(text: &mut String, label: &str, number: u64) -> Result<(), AllocError>
    ensures { OnOk result (string_bytes text.new ≡ string_bytes text.old ++ label.now ++ decimal number) }
{
    text.push_str(label)?;
    push_number(text, number)
}

/// Adds the trace line of a gathering, by its blocks and the look.
pub fn push_gathered(text: &mut String, blocks: &[Bytes], look: &Look) -> Result<(), AllocError>
    ensures { OnOk result (string_bytes text.new ≡ string_bytes text.old ++ gathered_text blocks.now look.now) }
{
    text.push('g')?;
    push_lengths(text, blocks)?;
    push_levels(text, look)?;
    text.push('\n')
}

/// Adds the length of each block.
fn push_lengths(text: &mut String, blocks: &[Bytes]) -> Result<(), AllocError>
    ensures { OnOk result (string_bytes text.new ≡ string_bytes text.old ++ flat_map length_text blocks.now) }
{
    for block in blocks {
        text.push(' ')?;
        push_number(text, block.len() as u64)?;
    }
    Ok(())
}

/// Adds the pending bytes and the word.
fn push_levels(text: &mut String, look: &Look) -> Result<(), AllocError>
    ensures { OnOk result (string_bytes text.new ≡ string_bytes text.old ++ levels_text look.now) }
{
    push_words(text, look.total, look.word)
}

/// Adds the answer of a command.
fn push_answer(text: &mut String, answer: Answer) -> Result<(), AllocError>
    ensures { OnOk result (string_bytes text.new ≡ string_bytes text.old ++ answer_text answer) }
{
    match answer {
        Answer::Id(PromiseId(id)) => {
            text.push_str("id ")?;
            push_number(text, u64::from(id))
        }
        Answer::Count(count) => {
            text.push_str("n ")?;
            push_number(text, u64::from(count))
        }
        Answer::Yes(true) => text.push_str("yes"),
        Answer::Yes(false) => text.push_str("no"),
        Answer::Done => text.push_str("ok"),
    }
}

/// Adds each settlement.
fn push_settlements(text: &mut String, settled: &[(PromiseId, Outcome)]) -> Result<(), AllocError>
    ensures { OnOk result (string_bytes text.new ≡ string_bytes text.old ++ flat_map settlement_text settled.now) }
{
    for (id, outcome) in settled {
        push_settlement(text, *id, *outcome)?;
    }
    Ok(())
}

/// Adds one settlement: the promise and its outcome.
fn push_settlement(text: &mut String, id: PromiseId, outcome: Outcome) -> Result<(), AllocError>
    ensures { OnOk result (string_bytes text.new ≡ string_bytes text.old ++ settlement_text (id, outcome)) }
{
    let PromiseId(number) = id;
    text.push(' ')?;
    push_number(text, u64::from(number))?;
    text.push(':')?;
    push_outcome(text, outcome)
}

/// Adds the outcome of a promise.
fn push_outcome(text: &mut String, outcome: Outcome) -> Result<(), AllocError>
    ensures { OnOk result (string_bytes text.new ≡ string_bytes text.old ++ outcome_text outcome) }
{
    match outcome {
        Outcome::Success => text.push_str("ok"),
        Outcome::Failed(cause) => {
            text.push('f')?;
            push_number(text, u64::from(cause.0))
        }
        Outcome::Cancelled => text.push('x'),
    }
}
