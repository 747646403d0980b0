ghost use Rattle.std.specs.Prelude.{◌≡◌, ◌==◌, ◌<◌, ◌≤◌, ◌&&◌, [], drop, length, count_by, slice_index, Ok, IfSome, is_some};
ghost use Rattle.ob_script.specs.Reading.{words_after, all_numbers_in, before_numbers, is_short_number, numbers_in};
ghost use Rattle.ob_script.specs.Reading.{HoldsNumbers};

use crate::reading::fault::LineFault;
use crate::reading::lines::first_word;
use crate::reading::range::{Range, short_number};

/// The most numbers that a line has.
const MAX_NUMBERS: usize = 3;

/// The numbers of the words that follow a first word, one for each range and then zeros, or the first fault: too few
/// words, too many, or a faulty one.
pub fn read_all_numbers(ranges: &[Range], after: &[u8]) -> Result<[u64; MAX_NUMBERS], LineFault>
    requires few { length ranges.now ≤ 3 }
    requires space { 0 < length after.now → slice_index after.now 0 ≡ 32 }
    ensures { HoldsNumbers result (all_numbers_in ranges.now (words_after after.now)) }
{
    if after.is_empty() && ranges.is_empty() {
        return Ok([0; MAX_NUMBERS]);
    }
    if let Some(number) = one_number(ranges, after) {
        return match number {
            Ok(number) => Ok([number, 0, 0]),
            Err(fault) => Err(fault),
        };
    }
    let count = count_spaces(after);
    if count < ranges.len() {
        return Err(LineFault::TooFewWords);
    }
    if ranges.len() < count {
        return Err(LineFault::TooManyWords);
    }
    read_numbers(ranges, after)
}

/// The number behind a space if one is asked for, or its fault. If anything but one to nineteen digits is there,
/// nothing is said.
fn one_number(ranges: &[Range], after: &[u8]) -> Option<Result<u64, LineFault>>
    requires space { 0 < length after.now → slice_index after.now 0 ≡ 32 }
    ensures value { IfSome result (λ number. all_numbers_in ranges.now (words_after after.now)
        ≡ before_numbers number (Ok [])) }
    ensures when { is_some result ≡ (length ranges.now == 1) && is_short_number (drop 1 after.now) }
{
    if ranges.len() != 1 || after.is_empty() {
        return None;
    }
    let number = short_number(&after[1..])?;
    Some(ranges[0].hold(number))
}

/// How many spaces there are.
fn count_spaces(bytes: &[u8]) -> usize
    ensures { result ≡ count_by (λ byte. byte == 32) bytes.now }
{
    bytes.iter().filter(|byte| **byte == b' ').count()
}

/// The numbers of the words, one for each range and then zeros, or the fault of the first faulty word.
fn read_numbers(ranges: &[Range], after: &[u8]) -> Result<[u64; MAX_NUMBERS], LineFault>
    requires few { length ranges.now ≤ 3 }
    requires space { 0 < length after.now → slice_index after.now 0 ≡ 32 }
    requires each { length (words_after after.now) ≡ length ranges.now }
    ensures { HoldsNumbers result (numbers_in ranges.now (words_after after.now)) }
{
    let mut numbers = [0; MAX_NUMBERS];
    let mut rest = after;
    for (place, range) in ranges.iter().enumerate() {
        let (word, others) = first_word(&rest[1..]);
        match range.read(word) {
            Ok(number) => numbers[place] = number,
            Err(fault) => return Err(fault),
        }
        rest = others;
    }
    Ok(numbers)
}
