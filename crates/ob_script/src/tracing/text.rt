ghost use Rattle.std.specs.Prelude.{◌≡◌, ◌+◌, ◌<◌, ◌/◌, ◌%◌, ◌++◌, [], ◌∷◌, false, OnOk, string_bytes};
ghost use Rattle.std.specs.Fmt.{decimal, digit_glyph};
ghost use Rattle.ob_script.specs.Tracing.{change_text, eight_hex, number_line, two_digits, word_text, words_text};

use ob_types::Change;
use std::alloc::AllocError;

/// Adds a total and a word.
pub fn push_words(text: &mut String, total: u32, word: u32) -> Result<(), AllocError>
    ensures { OnOk result (string_bytes text.new ≡ string_bytes text.old ++ words_text total word) }
{
    text.push_str(" t=")?;
    push_number(text, u64::from(total))?;
    push_word(text, word)
}

/// Adds a word.
fn push_word(text: &mut String, word: u32) -> Result<(), AllocError>
    ensures { OnOk result (string_bytes text.new ≡ string_bytes text.old ++ word_text word) }
{
    // while a buffer is writable its word is 0, and while its marks alone stop the writers it is 1
    if word == 0 {
        return text.push_str(" w=00000000");
    }
    if word == 1 {
        return text.push_str(" w=00000001");
    }
    text.push_str(" w=")?;
    push_eight_hex(text, word)
}

/// Adds a number in decimal digits.
pub fn push_number(text: &mut String, number: u64) -> Result<(), AllocError>
    ensures { OnOk result (string_bytes text.new ≡ string_bytes text.old ++ decimal number) }
{
    // few numbers of a trace are longer, and digit by digit was measured to be quicker than through the buffer of `itoa`
    if number >= 1_000_000 {
        return text.push_str(itoa::Buffer::new().format(number));
    }
    let number = number as u32;
    if number < 10_000 {
        return push_up_to_four(text, number);
    }
    push_up_to_four(text, number / 100)?;
    push_two(text, number % 100)
}

/// Adds a number of at most four digits.
#[inline(always)]
fn push_up_to_four(text: &mut String, number: u32) -> Result<(), AllocError>
    requires { number < 10000 }
    ensures { OnOk result (string_bytes text.new ≡ string_bytes text.old ++ decimal number) }
{
    if number < 100 {
        return push_up_to_two(text, number);
    }
    push_up_to_two(text, number / 100)?;
    push_two(text, number % 100)
}

/// Adds a number of at most two digits.
#[inline(always)]
fn push_up_to_two(text: &mut String, number: u32) -> Result<(), AllocError>
    requires { number < 100 }
    ensures { OnOk result (string_bytes text.new ≡ string_bytes text.old ++ decimal number) }
{
    if number < 10 {
        return push_digit(text, number);
    }
    push_two(text, number)
}

/// Adds a number in two digits.
#[inline(always)]
fn push_two(text: &mut String, number: u32) -> Result<(), AllocError>
    requires { number < 100 }
    ensures { OnOk result (string_bytes text.new ≡ string_bytes text.old ++ two_digits number) }
{
    push_digit(text, number / 10)?;
    push_digit(text, number % 10)
}

/// Adds a decimal digit.
#[inline(always)]
fn push_digit(text: &mut String, digit: u32) -> Result<(), AllocError>
    requires { digit < 10 }
    ensures { OnOk result (string_bytes text.new ≡ string_bytes text.old ++ (48 + digit) ∷ []) }
{
    text.push(char::from(b'0' + digit as u8))
}

/// Adds a line of a report: a word, a space, and a number.
pub fn push_number_line(text: &mut String, word: &str, number: u64) -> Result<(), AllocError>
    ensures { OnOk result (string_bytes text.new ≡ string_bytes text.old ++ number_line word.now number) }
{
    writeln!(text, "{word} {number}")
}

/// Adds the change of writability, if there is one.
pub fn push_change(text: &mut String, change: Option<Change>) -> Result<(), AllocError>
    ensures { OnOk result (string_bytes text.new ≡ string_bytes text.old ++ change_text change) }
{
    match change {
        None => Ok(()),
        Some(Change::Unwritable) => text.push_str(" -"),
        Some(Change::Writable) => text.push_str(" +"),
    }
}

/// Adds a number in eight hexadecimal digits. They need no formatting.
fn push_eight_hex(text: &mut String, number: u32) -> Result<(), AllocError>
    ensures { OnOk result (string_bytes text.new ≡ string_bytes text.old ++ eight_hex number) }
{
    // the first user bits have few digits
    if number < 256 {
        text.push_str("000000")?;
        return push_two_hex(text, number as u8);
    }
    push_two_hex(text, (number / 16777216) as u8)?;
    push_two_hex(text, (number / 65536 % 256) as u8)?;
    push_two_hex(text, (number / 256 % 256) as u8)?;
    push_two_hex(text, (number % 256) as u8)
}

/// Adds a byte in two hexadecimal digits.
fn push_two_hex(text: &mut String, byte: u8) -> Result<(), AllocError>
    ensures { OnOk result (string_bytes text.new ≡ string_bytes text.old
        ++ digit_glyph false (byte / 16) ∷ digit_glyph false (byte % 16) ∷ []) }
{
    text.push(hex_digit(byte / 16))?;
    text.push(hex_digit(byte % 16))
}

/// A hexadecimal digit.
fn hex_digit(digit: u8) -> char
    requires { digit < 16 }
    ensures value { result ≡ digit_glyph false digit }
    ensures ascii { result < 128 }
{
    if digit < 10 {
        return char::from(b'0' + digit);
    }
    char::from(b'a' + (digit - 10))
}
