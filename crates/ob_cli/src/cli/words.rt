//! What each fault says in words: what is wrong, and what to do. `--verbose` tells the words after the fault, of a faulty
//! line with the word or the line, and `ob_tool faults` lists all.

use crate::cli::request::Kind;
use crate::request_fault::RequestFault;
use ob_pool::DriveFault;
use ob_script::{LineFault, ScriptFault};
use std::io::{self, Write};

/// Of a faulty line, from fault 1 on. What fault 7 says goes by the kind of script.
static OF_LINES: [&str; 8] = [
    "the first word is none of this kind of script, as that of an empty line or of a comment",
    "a word in a number's place is not digits alone, as with a sign, a unit, or the byte 13 at the end",
    "a number is out of its range: --help has the ranges",
    "too few words follow the first: --help has the lines",
    "too many words follow the first; a second space, or one at the end, makes an empty word",
    "the line has more than 200 bytes, not counting the byte 10 that ends it",
    "the line may not stand here, or its numbers do not go together",
    "the line is none that run or core writes, as one that was cut off, or a line of a script",
];

const MISPLACED_IN_RUN: &str = "the low mark of the line is above its high mark";

const MISPLACED_IN_CORE: &str =
    "a lane after a turn, a turn before a lane, a 65th lane, bit 0, a bit held twice, or too much room";

const MISPLACED_IN_DRIVE: &str =
    "a second `then`, a second `turns`, or a low mark above the high mark";

/// Of a drive, from fault 1 on.
static OF_DRIVES: [&str; 8] = [
    "no line names a writer: `b 0 10 1` has writer 0 write a block of 10 bytes",
    "a writer has a command that is not for writers; no script asks for one",
    "the writers need more than 4294967295 bytes of room together; no script's do",
    "memory ran out in the drive: give it more, or let a thread have a smaller stack, as by ulimit -s 256",
    "a gate held a writer for too long; this program has no gate",
    "a writer met the limit of records: raise --limit, or let the writers give fewer commands",
    "the transport met the limit of records, or memory ran out: raise --limit, or give it more memory",
    "the history does not agree with what the threads hold, or memory ran out: report it",
];

const NO_READ: &str =
    "standard input is closed or cannot be read: give a file, as < FILE, or a pipe that ends";

const TOO_LONG: &str = "standard input has more than 16777216 bytes: cut it in two";

const NO_WRITE: &str =
    "standard output is closed or full, or its reader went away: it is not known how much it took";

pub const NO_MEMORY: &str = "memory ran out: give it more, or a shorter script";

/// Of the refusals in a trace of `run`, from 1 on.
static OF_REFUSALS: [&str; 11] = [
    "the message is too long",
    "the low mark is above the high mark; no trace shows it, since the line is faulty",
    "more than 4294967295 bytes would be pending, or 1048576 writes were accepted",
    "the buffer is closed",
    "nothing is flushed",
    "the progress of the message would pass 9223372036854775807",
    "the blocks in front have fewer bytes left than are to be removed",
    "no bit of the user has this number: they are 1 to 31",
    "flushed messages are left: fail or remove them, and then close",
    "no write has this promise",
    "as many commands as --limit says are recorded",
];

/// Of the refusals in a trace of `core`, from 1 on.
static OF_LANE_REFUSALS: [&str; 6] = [
    "there is no lane with this number",
    "the charge is above the lane's room",
    "the lane owes a charge already: it discharges first",
    "the lane owes nothing",
    "the lane does not hold the bit",
    "the lane is in the middle of no call: each call is one step",
];

/// The faults that have no number of their own, by how they are told.
static NAMED: [(&str, &str); 8] = [
    ("fault 7 of run", MISPLACED_IN_RUN),
    ("fault 7 of core", MISPLACED_IN_CORE),
    ("fault 7 of drive", MISPLACED_IN_DRIVE),
    ("bad marks, status 1", "--low is above --high"),
    ("read fault, status 3", NO_READ),
    ("script too long, status 3", TOO_LONG),
    ("write fault, status 3", NO_WRITE),
    ("no memory, status 4", NO_MEMORY),
];

/// Writes each fault with its words.
pub fn write_list<E: Write>(errors: &mut E) -> io::Result<()> {
    write_numbered(
        errors,
        "Faults of a line, `line N: fault F`, status 2:",
        &OF_LINES,
    )?;
    write_numbered(
        errors,
        "Faults of a drive, `drive: fault F`, status 5:",
        &OF_DRIVES,
    )?;
    write_numbered(
        errors,
        "Refusals, `!R` in a trace of run, after which the script goes on:",
        &OF_REFUSALS,
    )?;
    write_numbered(
        errors,
        "Refusals of lanes, `!F` in a trace of core, after which the script goes on:",
        &OF_LANE_REFUSALS,
    )?;
    for &(told, words) in &NAMED {
        writeln!(errors, "{told}: {words}")?;
    }
    writeln!(
        errors,
        "What is kept at each fault, and more on what to do, is in docs/FAULTS.md."
    )
}

/// Writes faults of one kind, which are numbered from 1 on.
fn write_numbered<E: Write>(errors: &mut E, told: &str, words: &[&str]) -> io::Result<()> {
    writeln!(errors, "{told}")?;
    for (place, words) in words.iter().enumerate() {
        writeln!(errors, "{:>4}  {words}", place + 1)?;
    }
    Ok(())
}

/// Writes what a fault says that ended a request of this kind, in one line.
pub fn write_words<E: Write>(errors: &mut E, kind: Kind, fault: &RequestFault) -> io::Result<()> {
    match (kind, fault) {
        (Kind::Drive { limit }, RequestFault::Drive(DriveFault::Refused { .. })) => writeln!(
            errors,
            "a writer met the limit of {limit} records: raise --limit, or let the writers give fewer commands"
        ),
        (_, RequestFault::Script(ScriptFault::Line { line, fault })) => {
            writeln!(errors, "{}: {line}", of_line(kind, *fault))
        }
        _ => writeln!(errors, "{}", words_of(kind, fault)),
    }
}

/// What a fault says that ended a request of this kind.
fn words_of(kind: Kind, fault: &RequestFault) -> &'static str {
    match fault {
        RequestFault::Script(fault) => words_of_script(kind, fault),
        RequestFault::Drive(fault) => of_number(&OF_DRIVES, fault.number()),
    }
}

/// What a fault of a script of this kind says.
fn words_of_script(kind: Kind, fault: &ScriptFault) -> &'static str {
    match fault {
        ScriptFault::Line { fault, .. } => of_line(kind, *fault),
        ScriptFault::Read => NO_READ,
        ScriptFault::TooLong => TOO_LONG,
        ScriptFault::Write => NO_WRITE,
        ScriptFault::NoMemory => NO_MEMORY,
    }
}

/// What a fault of a line says.
fn of_line(kind: Kind, fault: LineFault) -> &'static str {
    match (fault, kind) {
        (LineFault::Misplaced, Kind::Run) => MISPLACED_IN_RUN,
        (LineFault::Misplaced, Kind::Core) => MISPLACED_IN_CORE,
        (LineFault::Misplaced, Kind::Drive { .. }) => MISPLACED_IN_DRIVE,
        _ => of_number(&OF_LINES, fault.number()),
    }
}

/// The words of the fault with this number, if the numbers from 1 on have one.
fn of_number(words: &[&'static str], number: u8) -> &'static str {
    let place = usize::from(number).saturating_sub(1);
    words.get(place).copied().unwrap_or("")
}
