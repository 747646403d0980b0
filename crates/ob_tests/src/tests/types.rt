//! The words of a buffer: texts of refusals, copies of commands, and marks.

use ob_players::commands::block;
use ob_players::words::NoAnswer;
use ob_types::{Cause, Command, PromiseId, Refusal, WaterMark};
use std::alloc::{AllocError, Global};
use std::test::Fail;

/// The texts of the refusals by their numbers.
static REFUSALS: &str = "\
1 the message is too large to be counted
2 the low mark is above the high mark, or the high mark above 2147483647
3 too much is pending, or too many writes were accepted
4 the buffer is closed
5 no message is flushed
6 the progress of the message would pass 9223372036854775807
7 the flushed blocks in front hold fewer bytes
8 the index of a user bit is 1 to 31
9 flushed messages are left
10 no write has this promise
11 the history is full
12 out of memory
";

static ALL_REFUSALS: [Refusal; 12] = [
    Refusal::Oversize,
    Refusal::BadMarks,
    Refusal::TooMuch,
    Refusal::Closed,
    Refusal::NothingFlushed,
    Refusal::TooFar,
    Refusal::TooManyBytes,
    Refusal::BadIndex,
    Refusal::FlushedLeft,
    Refusal::UnknownPromise,
    Refusal::HistoryFull,
    Refusal::NoMemory,
];

#[test]
fn refusals_tell_what_was_wrong(rt: HostRuntime) -> Result<(), Fail> {
    let mut told = String::new(rt.alloc());
    for refusal in &ALL_REFUSALS {
        writeln!(told, "{} {refusal}", refusal.number())?;
    }
    assert_eq!(rt; told.as_str(), REFUSALS);
    Ok(())
}

/// The eleven commands.
fn commands(alloc: Global) -> Result<[Command; 11], NoAnswer> {
    let marks = WaterMark::new(5, 7)?;
    let block = block(alloc, 0, 4)?;
    Ok([
        Command::Write(block),
        Command::Flush,
        Command::Remove,
        Command::RemoveWith(Cause(3)),
        Command::RemoveBytes(5),
        Command::Progress(7),
        Command::Cancel(PromiseId(1)),
        Command::FailFlushed(Cause(3), true),
        Command::Close(Cause(4)),
        Command::UserBit(31, false),
        Command::SetMarks(marks),
    ])
}

fn is_copied(command: &Command) -> Result<bool, AllocError> {
    let copy = command.copy()?;
    let is_same = copy == *command;
    drop(copy);
    Ok(is_same)
}

/// The copy of a block may allocate, and has the memory here.
#[test]
fn each_command_is_copied(rt: HostRuntime) -> Result<(), Fail> {
    for command in &commands(rt.alloc())? {
        assert!(rt; is_copied(command)?, "{command:?}");
    }
    Ok(())
}

/// Marks, and what the low one is if they are made.
static MARKS: [(u32, u32, Result<u32, Refusal>); 3] = [
    (7, 7, Ok(7)),
    (8, 7, Err(Refusal::BadMarks)),
    (0, 2147483648, Err(Refusal::BadMarks)),
];

#[test]
fn marks_may_be_equal(rt: HostRuntime) {
    for &(low, high, made) in &MARKS {
        let marks = WaterMark::new(low, high);
        assert_eq!(rt; marks.map(|marks| marks.low()), made, "{low}, {high}");
    }
}
