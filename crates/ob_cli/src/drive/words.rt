ghost use Rattle.std.specs.Prelude.{◌≡◌};
ghost use Rattle.ob_cli.specs.Drive.{drive_table};

use crate::drive::line::{DriveLine, WriterAction, WriterLine};
use ob_script::{ANY_32, ANY_64, BIT_INDEX, BLOCK_BYTES, FLAG, FirstWord, MARK, Range};
use ob_transport::SinkStep;
use ob_types::{Command, Message, PromiseId, WaterMark};

/// The first word of a line of `drive`.
#[derive(Clone, Copy)]
pub enum DriveWord {
    /// `b W N K`: writer W writes K blocks of N bytes.
    Blocks,
    /// `r W N`: writer W writes a region of N bytes.
    Region,
    /// `o W N`: writer W writes another message, with the number N.
    Other,
    /// `f W`: writer W flushes.
    Flush,
    /// `x W ID`: writer W cancels the promise ID.
    Cancel,
    /// `u W I V`: writer W sets the user bit I, or clears it if V is 1.
    UserBit,
    /// `m W LOW HIGH`: writer W sets the marks of the buffer to LOW and HIGH.
    SetMarks,
    /// `take N`: the next call of the sink takes at most N.
    Take,
    /// `fail C`: the next call of the sink fails with C.
    Fail,
    /// `then N`: each call of the sink behind these takes at most N.
    Then,
    /// `turns N`: the transport makes at most N passes.
    Turns,
}

/// The first words that there are.
static DRIVE_WORDS: [DriveWord; 11] = [
    DriveWord::Blocks,
    DriveWord::Region,
    DriveWord::Other,
    DriveWord::Flush,
    DriveWord::Cancel,
    DriveWord::UserBit,
    DriveWord::SetMarks,
    DriveWord::Take,
    DriveWord::Fail,
    DriveWord::Then,
    DriveWord::Turns,
];

/// The number of a writer.
const WRITER: Range = Range {
    least: 0,
    greatest: 63,
};

/// A writer, the bytes of a block, and how many blocks.
static BLOCKS_NUMBERS: [Range; 3] = [
    WRITER,
    BLOCK_BYTES,
    Range {
        least: 1,
        greatest: 1024,
    },
];

/// A writer, and the bytes of a region.
static REGION_NUMBERS: [Range; 2] = [WRITER, ANY_64];

/// A writer, and what another message means, or an id.
static WRITER_AND_NUMBER: [Range; 2] = [WRITER, ANY_32];

/// A writer.
static WRITER_ALONE: [Range; 1] = [WRITER];

/// A writer, the index of a bit, and a flag.
static BIT_NUMBERS: [Range; 3] = [WRITER, BIT_INDEX, FLAG];

/// A writer, the low mark and the high mark.
static MARK_NUMBERS: [Range; 3] = [WRITER, MARK, MARK];

/// How much the sink takes, or the number with which it fails.
static SINK_NUMBER: [Range; 1] = [ANY_32];

/// How many passes the transport makes.
static TURNS_NUMBER: [Range; 1] = [Range {
    least: 1,
    greatest: 16777216,
}];

impl FirstWord for DriveWord {
    type Line = DriveLine;

    ghost table = { drive_table };

    fn all() -> &'static [DriveWord] {
        &DRIVE_WORDS
    }

    fn text(self) -> &'static [u8] {
        match self {
            DriveWord::Blocks => b"b",
            DriveWord::Region => b"r",
            DriveWord::Other => b"o",
            DriveWord::Flush => b"f",
            DriveWord::Cancel => b"x",
            DriveWord::UserBit => b"u",
            DriveWord::SetMarks => b"m",
            DriveWord::Take => b"take",
            DriveWord::Fail => b"fail",
            DriveWord::Then => b"then",
            DriveWord::Turns => b"turns",
        }
    }

    fn ranges(self) -> &'static [Range] {
        match self {
            DriveWord::Blocks => &BLOCKS_NUMBERS,
            DriveWord::Region => &REGION_NUMBERS,
            DriveWord::Other | DriveWord::Cancel => &WRITER_AND_NUMBER,
            DriveWord::Flush => &WRITER_ALONE,
            DriveWord::UserBit => &BIT_NUMBERS,
            DriveWord::SetMarks => &MARK_NUMBERS,
            DriveWord::Take | DriveWord::Fail | DriveWord::Then => &SINK_NUMBER,
            DriveWord::Turns => &TURNS_NUMBER,
        }
    }

    fn line(self, numbers: [u64; 3]) -> Option<DriveLine> {
        let action = match self {
            DriveWord::Blocks => WriterAction::Blocks(numbers[1], numbers[2] as u32),
            DriveWord::Region => WriterAction::Command(Command::Write(Message::Region(numbers[1]))),
            DriveWord::Other => WriterAction::Command(Command::Write(Message::Other(
                numbers[1] as u32,
            ))),
            DriveWord::Flush => WriterAction::Command(Command::Flush),
            DriveWord::Cancel => WriterAction::Command(Command::Cancel(PromiseId(
                numbers[1] as u32,
            ))),
            DriveWord::UserBit => {
                WriterAction::Command(Command::UserBit(numbers[1] as u32, numbers[2] == 1))
            }
            DriveWord::SetMarks => WriterAction::Command(Command::SetMarks(WaterMark::new(
                numbers[1] as u32,
                numbers[2] as u32,
            ).ok()?)),
            DriveWord::Take => return Some(DriveLine::Sink(SinkStep::Take(numbers[0]))),
            DriveWord::Fail => return Some(DriveLine::Sink(SinkStep::Fail(numbers[0] as u32))),
            DriveWord::Then => return Some(DriveLine::Then(numbers[0])),
            DriveWord::Turns => return Some(DriveLine::Turns(numbers[0] as u32)),
        };
        Some(DriveLine::Writer(WriterLine {
            writer: numbers[0] as u8,
            action,
        }))
    }
}
