ghost use Rattle.std.specs.Prelude.{◌≡◌, ◌+◌, ◌-◌, ◌*◌, ◌<◌, ◌^◌, IsTrue, true, nat_lt, Some, None, IfSome, is_some, Ok, Err};
ghost use Rattle.std.specs.Prelude.{if◌then◌else◌};
ghost use Rattle.std.specs.Option.{SomeIff};
ghost use Rattle.std.specs.List.{list_all};
ghost use Rattle.std.specs.Char.{is_ascii_digit};
ghost use Rattle.std.specs.Str.Parse.{digits_value};
ghost use Rattle.ob_script.specs.Reading.{holds, is_number, is_short_number, number_in};
ghost use Rattle.ob_script.specs.declared.reading.fault.LineFault.TheVariants.{OutOfRange};

use crate::reading::fault::LineFault;

/// The numbers that a word of a script line may be.
#[derive(Clone, Copy)]
pub struct Range {
    /// The least of them.
    pub least: u64,
    /// The greatest of them.
    pub greatest: u64,
}

/// The numbers from 0 to this one.
macro_rules! up_to {
    ($greatest:literal) => {
        Range {
            least: 0,
            greatest: $greatest,
        }
    };
}

/// Any number of 32 bits.
pub const ANY_32: Range = up_to!(4294967295);

/// Any number of 64 bits.
pub const ANY_64: Range = up_to!(18446744073709551615);

/// The number of a block's bytes.
pub const BLOCK_BYTES: Range = up_to!(1048576);

/// The index of a user bit.
pub const BIT_INDEX: Range = up_to!(255);

/// A water mark, in bytes.
pub const MARK: Range = up_to!(2147483647);

/// A flag.
pub const FLAG: Range = up_to!(1);

impl Range {
    /// The number that the word writes in decimal digits, with leading zeros allowed.
    ///
    /// `NotANumber` comes if the word is empty or has another byte than a digit, and then `OutOfRange` if
    /// the number is outside the range.
    pub fn read(self, word: &[u8]) -> Result<u64, LineFault>
        ensures { result ≡ number_in self word.now }
    {
        if let Some(number) = short_number(word) {
            return self.hold(number);
        }
        if !is_digits(word) {
            return Err(LineFault::NotANumber);
        }
        match long_value(word) {
            Some(number) => self.hold(number),
            None => Err(LineFault::OutOfRange),
        }
    }

    /// The number, if it is in the range.
    pub(crate) fn hold(self, number: u64) -> Result<u64, LineFault>
        ensures { result ≡ (if holds self number then Ok number else Err OutOfRange) }
    {
        if self.least <= number && number <= self.greatest {
            return Ok(number);
        }
        Err(LineFault::OutOfRange)
    }
}

/// Whether the word is one or more decimal digits.
fn is_digits(word: &[u8]) -> bool
    ensures { result ≡ is_number word.now }
{
    !word.is_empty() && has_digits_alone(word)
}

/// Whether each byte is a decimal digit.
fn has_digits_alone(word: &[u8]) -> bool
    ensures { result ≡ list_all is_ascii_digit word.now }
{
    word.iter().all(|byte| byte.is_ascii_digit())
}

/// The most digits of which each number has 64 bits.
const SHORT: usize = 19;

/// The number that a word of one to nineteen digits writes, by one walk over it. Other words have none.
pub fn short_number(word: &[u8]) -> Option<u64>
    ensures value { IfSome result (λ number. (is_number word.now ≡ true) × (number ≡ digits_value 10 word.now)) }
    ensures when { is_some result ≡ is_short_number word.now }
{
    if word.is_empty() || SHORT < word.len() {
        return None;
    }
    let mut value: u64 = 0;
    for byte in word {
        if !byte.is_ascii_digit() {
            return None;
        }
        value = value * 10 + u64::from(*byte - b'0');
    }
    Some(value)
}

/// The number that any digits write, or nothing if it is 2^64 or more.
fn long_value(word: &[u8]) -> Option<u64>
    requires { IsTrue (list_all is_ascii_digit word.now) }
    ensures { result ≡ (if nat_lt (digits_value 10 word.now) (2 ^ 64) then Some (digits_value 10 word.now) else None) }
{
    let mut value: u64 = 0;
    for byte in word {
        match with_digit(value, *byte) {
            Some(more) => value = more,
            None => return None,
        }
    }
    Some(value)
}

/// The number with one more digit behind it, or nothing if that is 2^64 or more.
fn with_digit(value: u64, digit: u8) -> Option<u64>
    requires { IsTrue (is_ascii_digit digit) }
    ensures { SomeIff result (value * 10 + (digit - 48) < 2 ^ 64) (value * 10 + (digit - 48)) }
{
    let tens = value.checked_mul(10)?;
    tens.checked_add(u64::from(digit - b'0'))
}
