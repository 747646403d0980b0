ghost use Rattle.std.specs.Prelude.{◌≡◌, ◌+◌, ◌<◌, ◌≤◌, ◌∷◌, length, slice_index, option_map, IfSome, Some, None};
ghost use Rattle.std.specs.Prelude.{if◌then◌else◌};
ghost use Rattle.std.specs.List.{list_all};
ghost use Rattle.ob_script.specs.Reading.{words_after, words_of, greatest_script};
ghost use Rattle.ob_traces.specs.Traces.{behind_label, behind_lengths, is_hex, is_writable_by, bare, behind_change};
ghost use Rattle.ob_traces.specs.Traces.{behind_look, change_in, is_bare_line, levels_shown, line_shown, outcome_of};
ghost use Rattle.ob_traces.specs.Traces.{settled_in, is_cancelled, is_failed, is_success, told_by, told_by_word};
ghost use Rattle.ob_traces.specs.Traces.{trace_reading};

use crate::traces::line::{Settled, Told, TraceLine};
use crate::traces::words::{FirstOfTrace, labelled, next_word};
use ob_script::{ANY_32, ANY_64, LineFault, Range, first_word, index_or_len};
use ob_types::{Cause, Change, Outcome};

/// The most bytes of a line: as many as a whole script may have.
const MAX_LINE: usize = 16777216;

/// The numbers of the refusals that a trace shows.
const REFUSALS: Range = Range {
    least: 1,
    greatest: 11,
};

/// What a line of a trace shows, given without the byte that ends it.
pub fn read_trace_line(line: &[u8]) -> Result<TraceLine, LineFault>
    ensures { result ≡ trace_reading line.now }
{
    if line.len() > MAX_LINE {
        return Err(LineFault::OfNoTrace);
    }
    line_of(line).ok_or(LineFault::OfNoTrace)
}

/// What a line of a trace shows, or nothing if it is of no trace.
fn line_of(line: &[u8]) -> Option<TraceLine>
    requires small { length line.now ≤ greatest_script }
    ensures { result ≡ line_shown line.now }
{
    if is_bare(line) {
        return Some(bare_line());
    }
    let (first, after) = first_word(line);
    let (told, after) = told_by_words(first, after)?;
    levels(told, after)
}

/// Whether a line tells of a lane, or of the end of the turns.
fn is_bare(line: &[u8]) -> bool
    ensures { result ≡ is_bare_line line.now }
{
    labelled(b"lane ", ANY_32, line).is_some()
        || labelled(b"end quiet owed=", ANY_32, line).is_some()
}

/// A line that shows no bytes and no word.
pub fn bare_line() -> TraceLine
    ensures { result ≡ bare }
{
    TraceLine {
        told: Told::Bare,
        total: 0,
        is_writable: true,
        change: None,
        settled: Settled {
            success: 0,
            failed: 0,
            cancelled: 0,
        },
    }
}

/// What a line tells of by its first word and those behind it, and what follows those that tell it.
fn told_by_words<'a>(first: &[u8], after: &'a [u8]) -> Option<(Told, &'a [u8])>
    requires space { 0 < length after.now → slice_index after.now 0 ≡ 32 }
    ensures told { option_map (λ told. (told.0, words_after told.1.now)) result ≡ told_by first.now (words_after after.now) }
    ensures space { IfSome result (λ told. 0 < length told.1.now → slice_index told.1.now 0 ≡ 32) }
    ensures small { IfSome result (λ told. length told.1.now ≤ length after.now) }
{
    if let Some(number) = labelled(b"!", REFUSALS, first) {
        return Some((Told::Refused(number as u8), after));
    }
    if labelled(b"size=", ANY_64, first).is_some() {
        return Some((Told::Look, skip_look(after)?));
    }
    told_by_word(FirstOfTrace::named(first)?, after)
}

/// What follows the numbers of a look.
fn skip_look<'a>(after: &'a [u8]) -> Option<&'a [u8]>
    requires space { 0 < length after.now → slice_index after.now 0 ≡ 32 }
    ensures words { option_map (λ rest. words_after rest.now) result ≡ behind_look (words_after after.now) }
    ensures space { IfSome result (λ rest. 0 < length rest.now → slice_index rest.now 0 ≡ 32) }
    ensures small { IfSome result (λ rest. length rest.now ≤ length after.now) }
{
    let rest = skip(b"cur=", after)?;
    let rest = skip(b"bu=", rest)?;
    skip(b"bw=", rest)
}

/// What a line tells of that begins with this word, and what follows the words that tell it.
fn told_by_word<'a>(first: FirstOfTrace, after: &'a [u8]) -> Option<(Told, &'a [u8])>
    requires space { 0 < length after.now → slice_index after.now 0 ≡ 32 }
    ensures told { option_map (λ told. (told.0, words_after told.1.now)) result
        ≡ told_by_word (Some first) (words_after after.now) }
    ensures space { IfSome result (λ told. 0 < length told.1.now → slice_index told.1.now 0 ≡ 32) }
    ensures small { IfSome result (λ told. length told.1.now ≤ length after.now) }
{
    match first {
        FirstOfTrace::Id | FirstOfTrace::Count => Some((Told::Accepted, skip(b"", after)?)),
        FirstOfTrace::Gathered => Some((Told::Look, skip_lengths(after))),
        FirstOfTrace::Yes
        | FirstOfTrace::No
        | FirstOfTrace::Done
        | FirstOfTrace::Added
        | FirstOfTrace::Subtracted
        | FirstOfTrace::Bit
        | FirstOfTrace::Word
        | FirstOfTrace::Total
        | FirstOfTrace::Nothing => Some((Told::Accepted, after)),
    }
}

/// What follows a word that writes a number behind this label.
fn skip<'a>(label: &[u8], after: &'a [u8]) -> Option<&'a [u8]>
    requires space { 0 < length after.now → slice_index after.now 0 ≡ 32 }
    ensures words { option_map (λ rest. words_after rest.now) result ≡ behind_label label.now (words_after after.now) }
    ensures space { IfSome result (λ rest. 0 < length rest.now → slice_index rest.now 0 ≡ 32) }
    ensures small { IfSome result (λ rest. length rest.now ≤ length after.now) }
{
    let (word, rest) = next_word(after)?;
    labelled(label, ANY_64, word)?;
    Some(rest)
}

/// What follows the lengths of blocks.
fn skip_lengths(after: &[u8]) -> &[u8]
    requires space { 0 < length after.now → slice_index after.now 0 ≡ 32 }
    ensures words { words_after result.now ≡ behind_lengths (words_after after.now) }
    ensures space { 0 < length result.now → slice_index result.now 0 ≡ 32 }
    ensures small { length result.now ≤ length after.now }
{
    let mut rest = after;
    while let Some((word, others)) = next_word(rest) {
        if labelled(b"", ANY_32, word).is_none() {
            return rest;
        }
        rest = others;
    }
    rest
}

/// What a line shows that tells of this, by what follows the words that tell it.
fn levels(told: Told, after: &[u8]) -> Option<TraceLine>
    requires space { 0 < length after.now → slice_index after.now 0 ≡ 32 }
    requires small { length after.now ≤ greatest_script }
    ensures { result ≡ levels_shown told (words_after after.now) }
{
    let (total, after) = next_word(after)?;
    let (word, after) = next_word(after)?;
    let total = labelled(b"t=", ANY_32, total)?;
    let is_writable = is_writable(word)?;
    let (change, after) = change(after);
    Some(TraceLine {
        told,
        total: total as u32,
        is_writable,
        change,
        settled: settled(after)?,
    })
}

/// Whether a buffer is writable by its word, in eight hexadecimal digits.
fn is_writable(word: &[u8]) -> Option<bool>
    ensures { result ≡ is_writable_by word.now }
{
    if word == b"w=00000000".as_slice() {
        return Some(true);
    }
    if word.starts_with(b"w=") && word.len() == 10 && has_hex_alone(&word[2..]) {
        return Some(false);
    }
    None
}

/// Whether each byte is a hexadecimal digit in lower case.
fn has_hex_alone(digits: &[u8]) -> bool
    ensures { result ≡ list_all is_hex digits.now }
{
    digits.iter().all(|byte| byte.is_ascii_digit() || (b'a' <= *byte && *byte <= b'f'))
}

/// The change that the next word tells, if it tells one, and what follows it.
fn change(after: &[u8]) -> (Option<Change>, &[u8])
    requires space { 0 < length after.now → slice_index after.now 0 ≡ 32 }
    ensures change { result.0 ≡ change_in (words_after after.now) }
    ensures words { words_after result.1.now ≡ behind_change (words_after after.now) }
    ensures space { 0 < length result.1.now → slice_index result.1.now 0 ≡ 32 }
    ensures small { length result.1.now ≤ length after.now }
{
    match next_word(after) {
        Some((b"-", rest)) => (Some(Change::Unwritable), rest),
        Some((b"+", rest)) => (Some(Change::Writable), rest),
        _ => (None, after),
    }
}

/// How many promises the words settle, where each settles one.
fn settled(after: &[u8]) -> Option<Settled>
    requires space { 0 < length after.now → slice_index after.now 0 ≡ 32 }
    requires small { length after.now ≤ greatest_script }
    ensures { result ≡ settled_in (words_after after.now) }
{
    let mut settled = Settled {
        success: 0,
        failed: 0,
        cancelled: 0,
    };
    let mut rest = after;
    while let Some((word, others)) = next_word(rest) {
        settled = with_one(settled, outcome(word)?);
        rest = others;
    }
    Some(settled)
}

/// These and one promise more, which is settled so.
fn with_one(settled: Settled, outcome: Outcome) -> Settled
    requires success { settled.success < 4294967295 }
    requires failed { settled.failed < 4294967295 }
    requires cancelled { settled.cancelled < 4294967295 }
    ensures success { result.success ≡ settled.success + (if is_success (Some outcome) then 1 else 0) }
    ensures failed { result.failed ≡ settled.failed + (if is_failed (Some outcome) then 1 else 0) }
    ensures cancelled { result.cancelled ≡ settled.cancelled + (if is_cancelled (Some outcome) then 1 else 0) }
    ensures one { result.success + result.failed + result.cancelled
        ≡ settled.success + settled.failed + settled.cancelled + 1 }
{
    let mut settled = settled;
    match outcome {
        Outcome::Success => settled.success += 1,
        Outcome::Failed(_) => settled.failed += 1,
        Outcome::Cancelled => settled.cancelled += 1,
    }
    settled
}

/// The outcome that a word settles a promise with: the promise's number, `:` and the outcome.
fn outcome(word: &[u8]) -> Option<Outcome>
    ensures { result ≡ outcome_of word.now }
{
    let (id, told) = word.split_at(index_or_len(word, b':'));
    ANY_32.read(id).ok()?;
    if told == b":ok".as_slice() {
        return Some(Outcome::Success);
    }
    if told == b":x".as_slice() {
        return Some(Outcome::Cancelled);
    }
    let cause = labelled(b":f", ANY_32, told)?;
    Some(Outcome::Failed(Cause(cause as u32)))
}
