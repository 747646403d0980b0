//! What a fault says in words with `--verbose`, and the list of all faults.

use crate::tests::play::{Host, leaves, left};
use crate::tests::texts::tells_lines;
use std::test::Fail;

/// Command lines without `--verbose`, scripts, and the words of the fault that ends them. Without a fault nothing is told.
static WORDS: [(&str, &str, &str); 24] = [
    ("run", "f\n", ""),
    (
        "run",
        "f\n\n",
        "the first word is none of this kind of script, as that of an empty line or of a comment: ''",
    ),
    (
        "core",
        "# lanes\n",
        "the first word is none of this kind of script, as that of an empty line or of a comment: '# lanes'",
    ),
    (
        "run",
        "b 1\r\n",
        "a word in a number's place is not digits alone, as with a sign, a unit, or the byte 13 at the end: '1\\r'",
    ),
    (
        "run",
        "b 1048577\n",
        "a number is out of its range: --help has the ranges: 'b 1048577'",
    ),
    (
        "drive",
        "b 64 1 1\n",
        "a number is out of its range: --help has the ranges: 'b 64 1 1'",
    ),
    (
        "run",
        "b\n",
        "too few words follow the first: --help has the lines: 'b'",
    ),
    (
        "run",
        "b 1 \n",
        "too many words follow the first; a second space, or one at the end, makes an empty word: 'b 1 '",
    ),
    (
        "run",
        LONG,
        "the line has more than 200 bytes, not counting the byte 10 that ends it: \
        'b 00000000000000000000000000000000000000'..",
    ),
    (
        "run",
        "m 5 4\n",
        "the low mark of the line is above its high mark: 'm 5 4'",
    ),
    (
        "core",
        "k 0\n",
        "a lane after a turn, a turn before a lane, a 65th lane, bit 0, a bit held twice, or too much room: 'k 0'",
    ),
    (
        "drive",
        "m 0 5 4\n",
        "a second `then`, a second `turns`, or a low mark above the high mark: 'm 0 5 4'",
    ),
    (
        "drive",
        "then 1\nthen 1\n",
        "a second `then`, a second `turns`, or a low mark above the high mark: 'then 1'",
    ),
    (
        "summary",
        "b 304\n",
        "the line is none that run or core writes, as one that was cut off, or a line of a script: 'b 304'",
    ),
    (
        "draw",
        "b 304\n",
        "the line is none that run or core writes, as one that was cut off, or a line of a script: 'b 304'",
    ),
    (
        "run --low 500 --high 400",
        "",
        "--low 500 is above --high 400",
    ),
    (
        "core --low 500 --high 400",
        "",
        "--low 500 is above --high 400",
    ),
    ("drive --low 65537", "", "--low 65537 is above --high 65536"),
    ("draw --high 1", "", "--low 32768 is above --high 1"),
    (
        "drive",
        "",
        "no line names a writer: `b 0 10 1` has writer 0 write a block of 10 bytes",
    ),
    (
        "drive --limit 2",
        "b 0 1 3\n",
        "a writer met the limit of 2 records: raise --limit, or let the writers give fewer commands",
    ),
    (
        "drive --limit 2",
        "b 0 1 1\nf 0\n",
        "the transport met the limit of records, or memory ran out: raise --limit, or give it more memory",
    ),
    ("core", "", ""),
    ("summary", "id 0 t=97 w=00000000\n", ""),
];

/// A line of 201 bytes.
const LONG: &str = "\
b 00000000000000000000000000000000000000000000000000000000000000000000000000000000000000000000000000\
00000000000000000000000000000000000000000000000000000000000000000000000000000000000000000000000000001\n";

/// What is told with `--verbose` is what is told without it, and a line of words after it.
fn tells_words<H: Host>(rt: &H, command: &str, script: &str, words: &str) -> Result<(), Fail> {
    let silent = format!(in rt.alloc(); "ob_tool {command}")?;
    let verbose = format!(in rt.alloc(); "ob_tool {command} --verbose")?;
    let found = left(rt, &silent, &mut script.as_bytes())?;
    let end = if words.is_empty() { "" } else { "\n" };
    let wanted = format!(in rt.alloc(); "{found}{words}{end}")?;
    let told = left(rt, &verbose, &mut script.as_bytes())?;
    assert_eq!(rt; told.as_str(), wanted.as_str());
    Ok(())
}

#[test]
fn tells_a_fault_in_words(rt: HostRuntime) -> Result<(), Fail> {
    for &(command, script, words) in &WORDS {
        tells_words(&rt, command, script, words)?;
    }
    Ok(())
}

/// All lines of the list. Of a line with two dots only what is before them is given, and a bar parts two lines.
static LIST: &str = "\
status 1: Faults of a line, `line N: fault F`, status 2:
   1  the first word is none of this kind of script, ..|   2  a word in a number's place ..|   3  a number is out ..
   4  too few words ..|   5  too many words ..|   6  the line has more than 200 bytes, ..|   7  the line may not stand here, ..
   8  the line is none that run or core writes, ..
Faults of a drive, `drive: fault F`, status 5:
   1  no line names a writer: ..|   2  a writer has a command ..|   3  the writers need ..|   4  memory ran out ..
   5  a gate held ..|   6  a writer met the limit of records: raise --limit, ..|   7  the transport met ..|   8  the history ..
Refusals, `!R` in a trace of run, after which the script goes on:
   1  the message is too long|   2  the low mark ..|   3  more than 4294967295 bytes ..|   4  the buffer is closed
   5  nothing is flushed|   6  the progress ..|   7  the blocks in front ..|   8  no bit ..|   9  flushed messages ..
  10  no write has this promise|  11  as many commands as --limit says are recorded
Refusals of lanes, `!F` in a trace of core, after which the script goes on:
   1  there is no lane ..|   2  the charge is above the lane's room|   3  the lane owes a charge already: ..
   4  the lane owes nothing|   5  the lane does not hold the bit|   6  the lane is in the middle of no call: ..
fault 7 of run: the low mark of the line is above its high mark|fault 7 of core: a lane after a turn, ..
fault 7 of drive: a second `then`, ..|bad marks, status 1: --low is above --high|read fault, status 3: ..
script too long, status 3: ..|write fault, status 3: ..|no memory, status 4: ..
What is kept at each fault, and more on what to do, is in docs/FAULTS.md.";

#[test]
fn lists_all_faults(rt: HostRuntime) -> Result<(), Fail> {
    tells_lines(&rt, "ob_tool faults", LIST)
}

/// A script that is too long says so in words too.
#[test]
fn tells_in_words_what_is_too_long(rt: HostRuntime) -> Result<(), Fail> {
    let script = "f".repeat(rt.alloc(), 16777217)?;
    let told =
        "status 3: script too long\nstandard input has more than 16777216 bytes: cut it in two\n";
    let mut unread = script.as_bytes();
    let found = left(&rt, "ob_tool run --verbose", &mut unread)?;
    assert_eq!(rt; found.as_str(), told);
    Ok(())
}
