use crate::reading::fault::LineFault;
use std::fmt::{self, Display, Formatter, Write};
use std::marker::Model;

/// How many bytes of a faulty line are kept to be shown, at most.
const MOST_SHOWN: usize = 40;

/// A faulty line: its number, which is all that contracts see of it, and what `--verbose` shows of it.
#[derive(Debug, Drop)]
pub struct FaultyLine {
    number: u32,
    shown: [u8; MOST_SHOWN],
    count: usize,
    is_cut: bool,
}

impl Model for FaultyLine {
    ghost use Rattle.std.specs.Prelude.{ℕ};

    ghost Value = { ℕ };

    ghost view = { λ line. line.number };
}

impl FaultyLine {
    ghost use Rattle.std.specs.Prelude.{◌≡◌};

    /// The line with this number, counted from 1, by its bytes. A word that is no number is shown alone, and of any other
    /// fault the line.
    pub(crate) fn new(number: u32, line: &[u8], fault: LineFault) -> FaultyLine
        ensures { result ≡ number }
    {
        let faulty = match fault {
            LineFault::NotANumber => word_that_is_no_number(line),
            _ => line,
        };
        let mut shown = [0; MOST_SHOWN];
        let count = faulty.len().min(MOST_SHOWN);
        shown[..count].copy_from_slice(&faulty[..count]);
        FaultyLine {
            number,
            shown,
            count,
            is_cut: count < faulty.len(),
        }
    }

    /// The number of the line, from 1 on.
    pub(crate) fn number(&self) -> u32
        ensures { result ≡ self.now }
    {
        self.number
    }
}

/// What is wrong in the line, between quotes: at most 40 bytes, and `..` if there are more, each as Rust's
/// `escape_ascii` shows it.
impl Display for FaultyLine {
    fn fmt<W: Write>(&self, f: &mut Formatter<W>) -> fmt::Result {
        write!(f, "'")?;
        for byte in self.shown.iter().take(self.count) {
            write!(f, "{}", byte.escape_ascii())?;
        }
        write!(f, "{}", if self.is_cut { "'.." } else { "'" })
    }
}

/// The first word after the first one that is not digits alone, or the line if there is none.
fn word_that_is_no_number(line: &[u8]) -> &[u8] {
    line.split(|byte| *byte == b' ')
        .skip(1)
        .find(|word| word.is_empty() || !word.iter().all(u8::is_ascii_digit))
        .unwrap_or(line)
}
