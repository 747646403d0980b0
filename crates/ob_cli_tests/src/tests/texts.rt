//! What the program tells of its command line, in place of reading a script, and the texts of faults. The usage and first
//! line of each help are those of `SUBCOMMANDS` in `ob_cli/src/cli/subcommands.rt`.

use crate::tests::play::{Host, left};
use ob_core::{AskFault, WorldFault};
use std::test::Fail;

/// Gives the program words that end it before it reads, and answers its status and what it told.
fn told<H: Host>(rt: &H, words: &str) -> Result<String, Fail> {
    let mut unread = b"f\n".as_slice();
    let told = left(rt, words, &mut unread)?;
    assert_eq!(rt; unread.len(), 2, "{words}");
    Ok(told)
}

/// Command lines, and the one line that each is answered with.
static WHOLE: [(&str, &str); 5] = [
    ("ob_tool run --low 5 --high 4", "status 1: bad marks"),
    ("ob_tool core --low 5 --high 4", "status 1: bad marks"),
    ("ob_tool drive --low 5 --high 4", "status 1: bad marks"),
    ("ob_tool draw --low 5 --high 4", "status 1: bad marks"),
    ("ob_tool --version", "status 1: ob_tool 0.1.0"),
];

#[test]
fn tells_bad_marks_and_the_version(rt: HostRuntime) -> Result<(), Fail> {
    for &(words, line) in &WHOLE {
        tells_lines(&rt, words, line)?;
    }
    Ok(())
}

/// Command lines that are refused, parted by bars. The first has no word.
static REFUSED: &str = "\
|ob_tool|ob_tool --low 1|ob_tool walk|ob_tool run more|ob_tool run --low|ob_tool run --low ten|ob_tool run --low -1\
|ob_tool run --low 2147483648|ob_tool run --high 2147483648|ob_tool run --overhead 65536|ob_tool run --unknown 65536\
|ob_tool run --limit 0|ob_tool run --limit 1048577|ob_tool run --task 1|ob_tool core --limit 3|ob_tool core --task 1\
|ob_tool core --low 2147483648|ob_tool drive --task 65536|ob_tool drive --limit 0|ob_tool summary --low 1\
|ob_tool summary more|ob_tool run --heed|ob_tool drive --verbose 1|ob_tool faults more|ob_tool faults --verbose|ob_tool draw --limit 3|ob_tool draw --high 2147483648";

/// Command lines that ask for help or the version, or have bad marks.
static ASKING: &str = "\
ob_tool run --low 5 --high 4|ob_tool core --low 5 --high 4|ob_tool drive --low 5 --high 4|ob_tool draw --low 5 --high 4|\
ob_tool --help|ob_tool run --help|ob_tool drive --help|ob_tool summary --help|ob_tool help|ob_tool help core|\
ob_tool --version";

/// A refusal is told as an error. Each text ends with one byte 10.
#[test]
fn refuses_command_lines(rt: HostRuntime) -> Result<(), Fail> {
    for (begin, rows) in [("status 1: error: ", REFUSED), ("status 1: ", ASKING)] {
        for words in rows.split('|') {
            let text = told(&rt, words)?;
            let ends = text.ends_with("\n") && !text.ends_with("\n\n");
            assert!(rt; text.starts_with(begin) && ends, "{words}: {text}");
        }
    }
    Ok(())
}

/// All lines of a help, after its status. Of a line with two dots only what is before them is given, and a bar parts
/// two lines.
static HELP_OF_RUN: &str = "\
status 1: Reads a script from standard input, and writes one line for each of its lines to standard output

Usage: ob_tool run [OPTIONS] < FILE

Options:
      --low <BYTES>       Writers may go on once fewer bytes than this are pending: 0 to 2147483647, 32768 if not given
      --high <BYTES>      Writers should stop once more bytes than this are pending: 0 to 2147483647, 65536 if not given
      --overhead <BYTES>  Bytes that each message counts beside its own: 0 to 65535, 96 if not given
      --unknown <BYTES>   Bytes that a message of unknown size counts: 0 to 65535, 8 if not given
      --limit <RECORDS>   Commands that are recorded; further ones are refused: 1 to 1048576, 1048576 if not given
      --verbose           Tells on standard error what a fault means, in a line of words after it
  -h, --help              Print help

The script comes on standard input, and is read to its end first; at a terminal, Ctrl-D on a line of its own
ends it. Its lines end with the byte 10 alone, and one space parts two words:
  ob_tool run --low 200 --high 400 < FILE

Lines of a script:|  b N     write a block of N bytes, at most 1048576|  r N  ..|  o N  ..|  f  ..|  rm  ..|  rc C  ..
  rb N  ..|  p N  ..|  x ID  ..|  fl C V  ..|  cl C  ..|  u I V  ..
  m L H   set the low mark L and the high mark H, both at most 2147483647; no bit moves before the next rise or fall
  ?  ..
  g C N   gather at most C blocks, 1 to 1024, of together at most N bytes, 1 to 2147483647
If no range stands here, the N of r, rb and p go up to 18446744073709551615, I up to 255, and all else up to
4294967295.

Each line gives one line on standard output; ANSWER t=T w=W CHANGE SETTLEMENTS for a command:
  ANSWER  ..|               remove or to cancel, `ok`, or `!R` if it is refused|  t=T w=W  ..|  CHANGE  ..|  SETTLEMENTS  ..
A look gives size=S cur=P bu=X bw=Y t=T w=W: ..|the buffer unwritable, Y bytes fewer writable. A gathering gives g, ..

A refused command changes nothing. The numbers R of `!R`:|  1 the message is too long  ..|  5 nothing is flushed  ..
  8 no user bit (1 to 31)  ..|  11 as many commands as --limit says are recorded

Faults of a line, told as `line N: fault F`:|  1  its first word is none of these, as that of an empty line or of a comment
  2  a word in a number's place is not digits alone|  3  a number is out of its range|  4  too few words follow the first
  5  too many words follow the first|  6  it has more than 200 bytes
  7  a low mark above the high mark

Faults, and help and the version if they are asked for, go to standard error. `ob_tool faults` lists all faults, and
--verbose tells in words what a fault means.
Status: 0 done, 1 the command line (help and the version too), 2 a line, 3 reading or writing, 4 memory
What is kept at each fault, and more on what to do, is in docs/FAULTS.md.";

static HELP_OF_CORE: &str = "\
status 1: Reads a script of lanes and turns from standard input, ..

Usage: ob_tool core [OPTIONS] < FILE

Options:|      --low <BYTES>   Writers may ..|      --high <BYTES>  Writers should ..|      --verbose       Tells on ..
  -h, --help          Print help

The script comes ..|ends it. ..|  ob_tool core --low 50 --high 100 < FILE

Lines of a script, ..|  lane R B  a lane with room R, which holds the bits of the mask B|  c L N  ..|  d L  ..
  u L I V  ..|  w L  ..|  t L  ..|  k L  ..|I goes up to 255, and all else up to 4294967295.

Each line gives one line on standard output; `lane K` for a lane, EVENT t=T w=W CHANGE for a turn:
  EVENT  ..|           came below low; ..|           discharge; ..|  t=T w=W  ..|  CHANGE  ..|The last line is ..

The numbers F of `!F`:|  1 no such lane  ..|  4 the lane owes nothing  ..

Faults of a line, ..|  1  ..|  2  ..|  3  ..|  4  ..|  5  ..|  6  it has more than 200 bytes
  7  a lane after a turn, a turn before the first lane, ..|     another holds, ..

Faults, and help ..|--verbose tells ..|Status: 0 done, 1 the command line (help and the version too), ..|What is kept ..";

static HELP_OF_DRIVE: &str = "\
status 1: Reads a script of writers from standard input, runs them in threads, ..

Usage: ob_tool drive [OPTIONS] < FILE

Options:|      --low <BYTES>       ..|      --high <BYTES>      ..|      --overhead <BYTES>  ..
      --unknown <BYTES>   ..|      --limit <RECORDS>   ..
      --task <BYTES>      Bytes that a message counts beside its own while it is handed over: 0 to 65535, 32 if not given
      --heed              Each writer waits before it writes, while writers should stop and something may still be sent
      --verbose           Tells on standard error how long it took, what was pending, and what a fault means
  -h, --help              Print help

The script comes ..|ends it. ..|  ob_tool drive < FILE

It loads one buffer as a server does, to see that nothing is lost: ..|thread of its own, ..|goes on with those that it has.

The writers write on whether they should stop or not: ..|waits before it writes, ..|transport may still send. ..|all the same. ..

Lines of a script; ..|  b W N K  writer W writes K blocks, 1 to 1024, of N bytes, at most 1048576|  r W N  ..
  o W N  ..|  f W  ..|  x W ID  ..|  u W I V  ..|  m W L H  ..|           handed over ..
  take N  ..|  fail C  ..|  then N  ..|  turns N  ..|The N of r ..

All lines are read first. ..|  writes, flushes, cancels, bits  ..|  taken  ..|  success, failed, cancelled, left ..
  hand  ..

With --verbose standard error gets these too; ..|  milliseconds N  ..|  passes N  ..|  stalls N  ..|  peak T at line L  ..
  stops N, goes N  ..|  unwritable N from line L  ..|  pending T  ..|and a hint if ..

Faults of a drive, told as `drive: fault N`; ..|  1  no line names a writer|  2  a writer has a command ..|  3  the writers need ..
  4  memory ran out in the drive|  5  a gate held ..|  6  a writer met the limit ..|  7  the transport met ..|  8  the history ..

Faults of a line, ..|  1  ..|  2  ..|  3  ..|  4  ..|  5  ..|  6  it has more than 200 bytes
  7  a second `then`, or a second `turns`, or a low mark above the high mark

Faults, and help ..|--verbose tells ..
Status: 0 done, 1 the command line (help and the version too), 2 a line, 3 reading or writing, 4 memory, 5 the drive
What is kept at each fault, and more on what to do, is in docs/FAULTS.md.";

static HELP_OF_SUMMARY: &str = "\
status 1: Reads a trace of run or of core from standard input, and counts what it shows

Usage: ob_tool summary [OPTIONS] < TRACE

Options:|      --verbose  Tells on ..|  -h, --help     Print help

The trace comes on standard input, ..|its own ends it:|  ob_tool summary < TRACE

Standard output gets these lines; ..|  lines N  ..|  accepted N  ..|  refused N !R:N ..  ..|  peak T at line L  ..
  stops N  ..|  goes N  ..|  unwritable N from line L  ..|  pending T  ..|  success N, failed N, cancelled N
                            promises ..|The numbers R are in the help of run and of core.

A line that is of no trace is told as ..|counted and told all the same. If it is the first line, nothing is written.

Faults, and help ..|words what a fault means.
Status: 0 done, 1 the command line (help too), 2 a line, 3 reading or writing, 4 memory|What is kept ..";

static HELP_OF_DRAW: &str = "\
status 1: Reads a trace of run or of core from standard input, and draws it as a picture, an SVG

Usage: ob_tool draw [OPTIONS] < TRACE > PICTURE.svg

Options:|      --low <BYTES>   Writers may ..|      --high <BYTES>  Writers should ..|      --verbose       Tells on ..
  -h, --help          Print help

The trace comes on standard input, ..|  ob_tool draw --low 200 --high 400 < TRACE > PICTURE.svg

The picture has ..|stopped are shaded; ..|told them to go on. ..|from 0 on, ..

A line that is of no trace is told as ..|drawn all the same. If it is the first line, nothing is written.

Faults, and help ..|words what a fault means.
Status: 0 done, 1 the command line (help too), 2 a line, 3 reading or writing, 4 memory|What is kept ..";

static HELP_OF_FAULTS: &str = "\
status 1: Lists the faults of all subcommands by number, and what each says in words

Usage: ob_tool faults

Options:|  -h, --help  Print help

The list goes to standard error with status 1, ..
With --verbose each subcommand tells what its fault means, in a line of words after the fault.";

/// Compares each line that the program tells.
pub fn tells_lines<H: Host>(rt: &H, words: &str, wanted: &str) -> Result<(), Fail> {
    let told = told(rt, words)?;
    assert_eq!(rt; first_other(&told, wanted), None, "{words}");
    Ok(())
}

/// The first line that is wanted and is told otherwise, or is told and not wanted, or does not end.
fn first_other<'a>(told: &'a str, wanted: &'a str) -> Option<(&'a str, &'a str)> {
    let mut lines = told.lines();
    for part in wanted.split(['\n', '|']) {
        let line = lines.next().unwrap_or("no line");
        if !is_told(part, line) {
            return Some((part, line));
        }
    }
    match lines.next() {
        Some(line) => Some(("no line", line)),
        None if told.ends_with('\n') => None,
        None => Some(("a line end", told)),
    }
}

/// Whether a line is the one that is wanted, or begins with what stands before two dots.
fn is_told(wanted: &str, line: &str) -> bool {
    match wanted.strip_suffix("..") {
        Some(begin) => line.starts_with(begin),
        None => line == wanted,
    }
}

#[test]
fn tells_each_help(rt: HostRuntime) -> Result<(), Fail> {
    tells_lines(&rt, "ob_tool run --help", HELP_OF_RUN)?;
    tells_lines(&rt, "ob_tool run -h", HELP_OF_RUN)?;
    tells_lines(&rt, "ob_tool core --help", HELP_OF_CORE)?;
    tells_lines(&rt, "ob_tool drive --help", HELP_OF_DRIVE)?;
    tells_lines(&rt, "ob_tool summary --help", HELP_OF_SUMMARY)?;
    tells_lines(&rt, "ob_tool draw --help", HELP_OF_DRAW)?;
    tells_lines(&rt, "ob_tool help faults", HELP_OF_FAULTS)
}

static FAULTS: &str = "\
there is no such lane|the charge is above the room of the lane|the lane owes a charge already|\
the lane owes nothing|the lane does not hold the bit|the lane is in the middle of no call|\
a world has 1 to 64 lanes|the rooms of the lanes add up to more than 4294967295|\
a bit is held twice, or bit 0 is held|out of memory|";

#[test]
fn texts_of_faults(rt: HostRuntime) -> Result<(), Fail> {
    use AskFault::{NoRoom, NotHeld, NotInside, NotOwing, Owing, UnknownLane};
    use WorldFault::{BadCount, BitsTwice, NoMemory, TooMuchRoom};

    let mut texts = String::new(rt.alloc());
    for fault in [UnknownLane, NoRoom, Owing, NotOwing, NotHeld, NotInside] {
        write!(texts, "{fault}|")?;
    }
    for fault in [BadCount, TooMuchRoom, BitsTwice, NoMemory] {
        write!(texts, "{fault}|")?;
    }
    assert_eq!(rt; texts.as_str(), FAULTS);
    Ok(())
}
