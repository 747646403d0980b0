ghost use Rattle.std.specs.Prelude.{◌≡◌};

/// What is wrong with a line of a script. The faults are asked in the order of this list.
#[derive(Clone, Copy, Debug)]
pub enum LineFault {
    /// It has more than 200 bytes, not counting the byte that ends it.
    LongLine = 6,
    /// Its first word is none that scripts have.
    UnknownWord = 1,
    /// Fewer words follow the first than it wants.
    TooFewWords = 4,
    /// More words follow the first than it wants.
    TooManyWords = 5,
    /// A word in a number's place is not made of decimal digits.
    NotANumber = 2,
    /// A number is outside its range.
    OutOfRange = 3,
    /// It stands where it may not, or does not go with the lines before it, or its numbers do not fit one another.
    Misplaced = 7,
    /// It is a line of no trace, when a trace is read.
    OfNoTrace = 8,
}

impl LineFault {
    ghost use Rattle.ob_script.specs.Reading.{fault_number_of};

    /// The number of the fault, 1 to 8, as the program tells it.
    pub fn number(self) -> u8
        ensures { result ≡ fault_number_of self }
    {
        self as u8
    }

    /// What the program tells behind the number.
    pub(crate) fn words(self) -> &'static str {
        match self {
            LineFault::OfNoTrace => ", a line of no trace",
            LineFault::LongLine
            | LineFault::UnknownWord
            | LineFault::TooFewWords
            | LineFault::TooManyWords
            | LineFault::NotANumber
            | LineFault::OutOfRange
            | LineFault::Misplaced => "",
        }
    }
}
