ghost use Rattle.std.specs.Prelude.{◌≡◌, ◌<◌, ◌∷◌, [], length, slice_index};
ghost use Rattle.std.specs.Str.{bytes_eq};
ghost use Rattle.ob_script.specs.Reading.{words_after, kind_reading, line_reading, word_named};

use crate::reading::fault::LineFault;
use crate::reading::first_word::FirstWord;
use crate::reading::lines::first_word;
use crate::reading::numbers::read_all_numbers;

/// The greatest length of a line in bytes, without the byte that ends it.
const MAX_LINE: usize = 200;

/// What a line asks, given without the byte that ends it, or its first fault.
pub fn read_line<W: FirstWord>(line: &[u8]) -> Result<W::Line, LineFault>
    ensures { result ≡ line_reading W.table line.now }
{
    if line.len() > MAX_LINE {
        return Err(LineFault::LongLine);
    }
    let (first, after) = first_word(line);
    match named::<W>(first) {
        Some(word) => read_words(word, after),
        None => Err(LineFault::UnknownWord),
    }
}

/// The first word that a text writes, if it is one.
fn named<W: FirstWord>(text: &[u8]) -> Option<W>
    ensures { result ≡ word_named W.table text.now }
{
    // nearly every first word has one byte or two, and these are compared without a loop
    match *text {
        [byte] => named_by_byte(byte),
        [first, second] => named_by_pair(first, second),
        _ => W::all().iter().copied().find(|word| word.text() == text),
    }
}

/// The first word that a byte writes, if it is one.
fn named_by_byte<W: FirstWord>(byte: u8) -> Option<W>
    ensures { result ≡ word_named W.table (byte ∷ []) }
{
    W::all()
        .iter()
        .copied()
        .find(|word| is_byte(word.text(), byte))
}

/// The first word that two bytes write, if it is one.
fn named_by_pair<W: FirstWord>(first: u8, second: u8) -> Option<W>
    ensures { result ≡ word_named W.table (first ∷ second ∷ []) }
{
    W::all()
        .iter()
        .copied()
        .find(|word| is_pair(word.text(), first, second))
}

/// Whether a text is one byte, and this one.
fn is_byte(text: &[u8], byte: u8) -> bool
    ensures { result ≡ bytes_eq text.now (byte ∷ []) }
{
    text.len() == 1 && text[0] == byte
}

/// Whether a text is two bytes, and these.
fn is_pair(text: &[u8], first: u8, second: u8) -> bool
    ensures { result ≡ bytes_eq text.now (first ∷ second ∷ []) }
{
    text.len() == 2 && text[0] == first && text[1] == second
}

/// What a line with this first word asks, or its first fault, by what follows the word.
fn read_words<W: FirstWord>(word: W, after: &[u8]) -> Result<W::Line, LineFault>
    requires { 0 < length after.now → slice_index after.now 0 ≡ 32 }
    ensures { result ≡ kind_reading (W.table.kind_of word) (words_after after.now) }
{
    match read_all_numbers(word.ranges(), after) {
        Ok(numbers) => word.line(numbers).ok_or(LineFault::Misplaced),
        Err(fault) => Err(fault),
    }
}
