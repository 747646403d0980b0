ghost use Rattle.ob_cli.specs.Run.{run_table};

use crate::run::line::RunLine;
use ob_script::{ANY_32, ANY_64, BIT_INDEX, BLOCK_BYTES, FLAG, FirstWord, MARK, Range};
use ob_types::{Cause, Command, Message, PromiseId, WaterMark};

/// The first word of a line of `run`.
#[derive(Clone, Copy)]
pub enum RunWord {
    /// `b N`: write a block of N bytes.
    Block,
    /// `r N`: write a region of N bytes.
    Region,
    /// `o N`: write another message, with the number N.
    Other,
    /// `f`: flush.
    Flush,
    /// `rm`: remove.
    Remove,
    /// `rc C`: remove with the cause C.
    RemoveWith,
    /// `rb N`: remove N bytes.
    RemoveBytes,
    /// `p N`: tell of N more bytes of progress.
    Progress,
    /// `x ID`: cancel the promise ID.
    Cancel,
    /// `fl C V`: fail all flushed messages with the cause C, with notice of the fall if V is 1.
    FailFlushed,
    /// `cl C`: close with the cause C.
    Close,
    /// `u I V`: set the user bit I, or clear it if V is 1.
    UserBit,
    /// `m LOW HIGH`: set the marks to LOW and HIGH.
    SetMarks,
    /// `?`: look at the buffer.
    Look,
    /// `g C N`: gather at most C blocks of at most N bytes.
    Gather,
}

/// The first words that there are.
static RUN_WORDS: [RunWord; 15] = [
    RunWord::Block,
    RunWord::Region,
    RunWord::Other,
    RunWord::Flush,
    RunWord::Remove,
    RunWord::RemoveWith,
    RunWord::RemoveBytes,
    RunWord::Progress,
    RunWord::Cancel,
    RunWord::FailFlushed,
    RunWord::Close,
    RunWord::UserBit,
    RunWord::SetMarks,
    RunWord::Look,
    RunWord::Gather,
];

/// The number of a block's bytes.
static BLOCK_NUMBERS: [Range; 1] = [BLOCK_BYTES];

/// Any number of 32 bits: what another message means, a cause, or an id.
static NUMBER_OF_32_BITS: [Range; 1] = [ANY_32];

/// Any number of 64 bits: the bytes of a region, or how many are removed, or told of as progress.
static NUMBER_OF_64_BITS: [Range; 1] = [ANY_64];

/// A cause, and a flag.
static FAIL_NUMBERS: [Range; 2] = [ANY_32, FLAG];

/// The index of a bit, and a flag.
static BIT_NUMBERS: [Range; 2] = [BIT_INDEX, FLAG];

/// The low mark and the high mark.
static MARK_NUMBERS: [Range; 2] = [MARK, MARK];

/// How many blocks, and of how many bytes, a transport takes at most.
static GATHER_NUMBERS: [Range; 2] = [
    Range {
        least: 1,
        greatest: 1024,
    },
    Range {
        least: 1,
        greatest: 2147483647,
    },
];

impl FirstWord for RunWord {
    type Line = RunLine;

    ghost table = { run_table };

    fn all() -> &'static [RunWord] {
        &RUN_WORDS
    }

    fn text(self) -> &'static [u8] {
        match self {
            RunWord::Block => b"b",
            RunWord::Region => b"r",
            RunWord::Other => b"o",
            RunWord::Flush => b"f",
            RunWord::Remove => b"rm",
            RunWord::RemoveWith => b"rc",
            RunWord::RemoveBytes => b"rb",
            RunWord::Progress => b"p",
            RunWord::Cancel => b"x",
            RunWord::FailFlushed => b"fl",
            RunWord::Close => b"cl",
            RunWord::UserBit => b"u",
            RunWord::SetMarks => b"m",
            RunWord::Look => b"?",
            RunWord::Gather => b"g",
        }
    }

    fn ranges(self) -> &'static [Range] {
        match self {
            RunWord::Block => &BLOCK_NUMBERS,
            RunWord::Region | RunWord::RemoveBytes | RunWord::Progress => &NUMBER_OF_64_BITS,
            RunWord::Other | RunWord::RemoveWith | RunWord::Cancel | RunWord::Close => {
                &NUMBER_OF_32_BITS
            }
            RunWord::FailFlushed => &FAIL_NUMBERS,
            RunWord::UserBit => &BIT_NUMBERS,
            RunWord::SetMarks => &MARK_NUMBERS,
            RunWord::Gather => &GATHER_NUMBERS,
            RunWord::Flush | RunWord::Remove | RunWord::Look => &[],
        }
    }

    fn line(self, numbers: [u64; 3]) -> Option<RunLine> {
        let command = match self {
            RunWord::Block => return Some(RunLine::Block(numbers[0])),
            RunWord::Region => Command::Write(Message::Region(numbers[0])),
            RunWord::Other => Command::Write(Message::Other(numbers[0] as u32)),
            RunWord::Flush => Command::Flush,
            RunWord::Remove => Command::Remove,
            RunWord::RemoveWith => Command::RemoveWith(Cause(numbers[0] as u32)),
            RunWord::RemoveBytes => Command::RemoveBytes(numbers[0]),
            RunWord::Progress => Command::Progress(numbers[0]),
            RunWord::Cancel => Command::Cancel(PromiseId(numbers[0] as u32)),
            RunWord::FailFlushed => {
                Command::FailFlushed(Cause(numbers[0] as u32), numbers[1] == 1)
            }
            RunWord::Close => Command::Close(Cause(numbers[0] as u32)),
            RunWord::UserBit => Command::UserBit(numbers[0] as u32, numbers[1] == 1),
            RunWord::SetMarks => {
                Command::SetMarks(WaterMark::new(numbers[0] as u32, numbers[1] as u32).ok()?)
            }
            RunWord::Look => return Some(RunLine::Look),
            RunWord::Gather => {
                return Some(RunLine::Gather(numbers[0] as u32, numbers[1] as u32));
            }
        };
        Some(RunLine::Command(command))
    }
}
