ghost use Rattle.std.specs.Prelude.{◌≡◌};
ghost use Rattle.ob_cli.specs.Turns.{core_table};
ghost use Rattle.ob_cli.specs.declared.turns.line.CoreLine.TheVariants as line;

use crate::turns::line::CoreLine;
use ob_core::{Ask, LaneStart, Turn};
use ob_script::{ANY_32, BIT_INDEX, FLAG, FirstWord, Range};

/// The first word of a line of `core`.
#[derive(Clone, Copy)]
pub enum CoreWord {
    /// `lane R B`: a lane with room R that holds the bits of the mask B.
    Lane,
    /// `c L N`: lane L charges N bytes.
    Charge,
    /// `d L`: lane L discharges.
    Discharge,
    /// `u L I V`: lane L sets the user bit I, or clears it if V is 1.
    Bit,
    /// `w L`: lane L reads the word.
    Word,
    /// `t L`: lane L reads the total.
    Total,
    /// `k L`: lane L goes on.
    Go,
}

/// The first words that there are.
static CORE_WORDS: [CoreWord; 7] = [
    CoreWord::Lane,
    CoreWord::Charge,
    CoreWord::Discharge,
    CoreWord::Bit,
    CoreWord::Word,
    CoreWord::Total,
    CoreWord::Go,
];

/// One number: a lane.
static ONE_NUMBER: [Range; 1] = [ANY_32];

/// Two numbers: a room and a mask, or a lane and an amount.
static TWO_NUMBERS: [Range; 2] = [ANY_32, ANY_32];

/// A lane, the index of a bit, and a flag.
static BIT_NUMBERS: [Range; 3] = [ANY_32, BIT_INDEX, FLAG];

impl FirstWord for CoreWord {
    type Line = CoreLine;

    ghost table = { core_table };

    fn all() -> &'static [CoreWord] {
        &CORE_WORDS
    }

    fn text(self) -> &'static [u8] {
        match self {
            CoreWord::Lane => b"lane",
            CoreWord::Charge => b"c",
            CoreWord::Discharge => b"d",
            CoreWord::Bit => b"u",
            CoreWord::Word => b"w",
            CoreWord::Total => b"t",
            CoreWord::Go => b"k",
        }
    }

    fn ranges(self) -> &'static [Range] {
        match self {
            CoreWord::Lane | CoreWord::Charge => &TWO_NUMBERS,
            CoreWord::Bit => &BIT_NUMBERS,
            CoreWord::Discharge | CoreWord::Word | CoreWord::Total | CoreWord::Go => &ONE_NUMBER,
        }
    }

    fn line(self, numbers: [u64; 3]) -> Option<CoreLine> {
        Some(match self {
            CoreWord::Lane => CoreLine::Lane(LaneStart {
                room: numbers[0] as u32,
                bits: numbers[1] as u32,
            }),
            CoreWord::Charge => turn(numbers[0] as u32, Ask::Charge(numbers[1] as u32)),
            CoreWord::Discharge => turn(numbers[0] as u32, Ask::Discharge),
            CoreWord::Bit => turn(
                numbers[0] as u32,
                Ask::Bit(numbers[1] as u32, numbers[2] == 1),
            ),
            CoreWord::Word => turn(numbers[0] as u32, Ask::Word),
            CoreWord::Total => turn(numbers[0] as u32, Ask::Total),
            CoreWord::Go => turn(numbers[0] as u32, Ask::Go),
        })
    }
}

/// The line of a turn.
fn turn(lane: u32, ask: Ask) -> CoreLine
    ensures { result ≡ line.Turn (record { lane = lane; ask = ask }) }
{
    CoreLine::Turn(Turn { lane, ask })
}
