//! What `--help` shows after the options: the lines of a script, what is written for them, and what the numbers mean.

/// What stands after the options of a subcommand. A table of texts as long as these costs its proof half a minute.
#[derive(Clone, Copy)]
pub enum Help {
    Run,
    Core,
    Drive,
    Summary,
    Draw,
    Faults,
}

impl Help {
    /// The text.
    pub fn text(self) -> &'static str {
        match self {
            Help::Run => RUN,
            Help::Core => CORE,
            Help::Drive => DRIVE,
            Help::Summary => SUMMARY,
            Help::Draw => DRAW,
            Help::Faults => FAULTS,
        }
    }
}

/// How a script is given, what its lines ask and what is written for them, the faults that a line may have (those of
/// any script, and then those of this one), and what goes to which stream.
macro_rules! help_on_scripts {
    ($lines:literal, $own_faults:literal, $own_status:literal) => {
        concat!(
            "The script comes on standard input, and is read to its end first; at a terminal, Ctrl-D on a line of its own
ends it. Its lines end with the byte 10 alone, and one space parts two words:\n",
            $lines,
            "
Faults of a line, told as `line N: fault F`:
  1  its first word is none of these, as that of an empty line or of a comment
  2  a word in a number's place is not digits alone
  3  a number is out of its range
  4  too few words follow the first
  5  too many words follow the first
  6  it has more than 200 bytes
",
            $own_faults,
            "
Faults, and help and the version if they are asked for, go to standard error. `ob_tool faults` lists all faults, and
--verbose tells in words what a fault means.
Status: 0 done, 1 the command line (help and the version too), 2 a line, 3 reading or writing, 4 memory",
            $own_status,
            "\nWhat is kept at each fault, and more on what to do, is in docs/FAULTS.md."
        )
    };
}

/// What stands after the options of `run`.
const RUN: &str = help_on_scripts!(
    "  ob_tool run --low 200 --high 400 < FILE

Lines of a script:
  b N     write a block of N bytes, at most 1048576
  r N     write a region of N bytes
  o N     write another message, whose number is N
  f       flush
  rm      remove the first flushed message, as sent
  rc C    remove the first flushed message, as failed for the cause C
  rb N    remove N bytes of the blocks in front
  p N     tell of N more bytes of progress of the first flushed message
  x ID    cancel the promise ID
  fl C V  fail all flushed messages with the cause C, with notice if V is 1, without if it is 0
  cl C    close with the cause C; it is refused while flushed messages are left
  u I V   set the user bit I if V is 0, clear it if V is 1
  m L H   set the low mark L and the high mark H, both at most 2147483647; no bit moves before the next rise or fall
  ?       look at the buffer
  g C N   gather at most C blocks, 1 to 1024, of together at most N bytes, 1 to 2147483647
If no range stands here, the N of r, rb and p go up to 18446744073709551615, I up to 255, and all else up to
4294967295.

Each line gives one line on standard output; ANSWER t=T w=W CHANGE SETTLEMENTS for a command:
  ANSWER       `id N` the promise of a write, `n N` the number of messages, `yes` or `no` whether there was one to
               remove or to cancel, `ok`, or `!R` if it is refused
  t=T w=W      the pending bytes, and the word in hexadecimal digits: the buffer is writable if it is 00000000
  CHANGE       `-` the buffer became unwritable, `+` it became writable, or nothing
  SETTLEMENTS  of each promise `ID:ok` as sent, `ID:fC` as failed for the cause C, `ID:x` as cancelled
A look gives size=S cur=P bu=X bw=Y t=T w=W: S messages are flushed, P is the progress of the first, X bytes more make
the buffer unwritable, Y bytes fewer writable. A gathering gives g, the length of each block, and t=T w=W.

A refused command changes nothing. The numbers R of `!R`:
  1 the message is too long        3 too many pending bytes, or writes    4 the buffer is closed
  5 nothing is flushed             6 too far a progress                   7 more bytes than the blocks in front have
  8 no user bit (1 to 31)          9 flushed messages are left            10 no such promise
  11 as many commands as --limit says are recorded
",
    "  7  a low mark above the high mark
",
    ""
);

/// What stands after the options of `core`.
const CORE: &str = help_on_scripts!(
    "  ob_tool core --low 50 --high 100 < FILE

Lines of a script, those of the lanes first; the lanes are numbered from 0:
  lane R B  a lane with room R, which holds the bits of the mask B
  c L N     lane L charges N bytes
  d L       lane L discharges what it owes
  u L I V   lane L sets the user bit I if V is 0, clears it if V is 1
  w L       lane L reads the word
  t L       lane L reads the total
  k L       lane L goes on with a call, which is refused: each call is one step
I goes up to 255, and all else up to 4294967295.

Each line gives one line on standard output; `lane K` for a lane, EVENT t=T w=W CHANGE for a turn:
  EVENT    `add` charged, and set bit 0 of the word if that passed high; `sub` discharged, and cleared bit 0 if that
           came below low; `bit` set or cleared a user bit; `word` and `total` read; `none` a charge of 0 or its
           discharge; `!F` refused, and nothing changed
  t=T w=W  the total, and the word in hexadecimal digits
  CHANGE   `-` the word left 0, `+` it came back to 0, or nothing
The last line is `end quiet owed=S`: S is owed in all.

The numbers F of `!F`:
  1 no such lane                   2 the charge is above the lane's room  3 the lane owes a charge already
  4 the lane owes nothing          5 the lane does not hold the bit       6 the lane is in the middle of no call
",
    "  7  a lane after a turn, a turn before the first lane, a 65th lane, a lane with bit 0 or with a bit that
     another holds, or one whose room brings the rooms above 4294967295
",
    ""
);

/// What stands after the options of `drive`.
const DRIVE: &str = help_on_scripts!(
    "  ob_tool drive < FILE

It loads one buffer as a server does, to see that nothing is lost: each writer of the script gives its commands from a
thread of its own, and beside them one transport hands what is flushed to a sink. If no more threads can be started, it
goes on with those that it has.

The writers write on whether they should stop or not: the marks are reported and change nothing. With --heed each writer
waits before it writes, by naps of a millisecond, while the buffer is unwritable and something is flushed that the
transport may still send. If nothing is flushed, and when the transport has ended, it goes on, so each command is given
all the same. A sink that takes nothing holds such writers until the transport has made its passes: say `turns`, too.

Lines of a script; W is a writer, 0 to 63, and there is one writer more than the greatest W:
  b W N K  writer W writes K blocks, 1 to 1024, of N bytes, at most 1048576
  r W N    writer W writes a region of N bytes
  o W N    writer W writes another message, whose number is N
  f W      writer W flushes
  x W ID   writer W cancels the promise ID
  u W I V  writer W sets the user bit I if V is 0, clears it if V is 1
  m W L H  writer W sets the low mark L and the high mark H of the buffer, both at most 2147483647; the bytes that are
           handed over go by the marks of the options all the while
  take N   the next call of the sink takes at most N bytes
  fail C   the next call of the sink fails with the number C, and so does all that is flushed
  then N   each call of the sink after these takes at most N bytes; all if no line says it
  turns N  the transport makes at most N passes, 1 to 16777216; 1000000 if no line says it
The N of r goes up to 18446744073709551615, I up to 255, and all else up to 4294967295.

All lines are read first. When all threads have ended, standard output gets these lines, each with a number:
  writes, flushes, cancels, bits   commands of writers that the buffer accepted; `refused` those that it refused
  taken                            bytes of blocks that the sink took
  success, failed, cancelled, left promises of writes that were settled so, and not at all: together as many as `writes`
  hand                             the bytes that are still handed over, and a word: 0 00000000 if all is well

With --verbose standard error gets these too; T stands for bytes, L for the number of a command in the history, from 1 on:
  milliseconds N            how long the threads were at work
  passes N                  passes of the transport that offered something to the sink
  stalls N                  those of them of which the sink took nothing
  peak T at line L          the most pending bytes, and the first command after which they were pending
  stops N, goes N           how often the buffer became unwritable, and writable, on a line each
  unwritable N from line L  the most commands together after which the buffer was not writable
  pending T                 the pending bytes at the end
and a hint if promises are left and nothing was flushed.

Faults of a drive, told as `drive: fault N`; standard output stays empty:
  1  no line names a writer
  2  a writer has a command that is not for writers; no script asks for one
  3  the writers need more than 4294967295 bytes of room together; no script's do
  4  memory ran out in the drive
  5  a gate held a writer for too long; this program has no gate
  6  a writer met the limit of records: raise --limit
  7  the transport met the limit of records, or memory ran out
  8  the history does not agree with what the threads hold, or memory ran out: report it
",
    "  7  a second `then`, or a second `turns`, or a low mark above the high mark
",
    ", 5 the drive"
);

/// What stands after the options of `summary`.
const SUMMARY: &str = "\
The trace comes on standard input, as run or core wrote it, at most 16777216 bytes; at a terminal, Ctrl-D on a line of
its own ends it:
  ob_tool summary < TRACE

Standard output gets these lines; T stands for bytes, L for the number of a line, from 1 on:
  lines N                   lines of the trace
  accepted N                commands, or turns of lanes, that were accepted
  refused N !R:N ..         those that were refused, and of each number R that occurs how many
  peak T at line L          the most pending bytes, and the first line that shows them
  stops N                   how often the buffer became unwritable (`-`)
  goes N                    how often it became writable (`+`)
  unwritable N from line L  the longest stretch of lines that show a word other than 00000000, the first of its length
  pending T                 the pending bytes at the end
  success N, failed N, cancelled N
                            promises that were settled so, on a line each
The numbers R are in the help of run and of core.

A line that is of no trace is told as `line L: fault 8, a line of no trace`, and ends the trace: the lines before it are
counted and told all the same. If it is the first line, nothing is written.

Faults, and help if it is asked for, go to standard error. `ob_tool faults` lists all faults, and --verbose tells in
words what a fault means.
Status: 0 done, 1 the command line (help too), 2 a line, 3 reading or writing, 4 memory
What is kept at each fault, and more on what to do, is in docs/FAULTS.md.";

/// What stands after the options of `draw`.
const DRAW: &str = "\
The trace comes on standard input, as run or core wrote it, at most 16777216 bytes; the marks are those of that run:
  ob_tool draw --low 200 --high 400 < TRACE > PICTURE.svg

The picture has the pending bytes over the lines of the trace, and both marks. The stretches in which writers are
stopped are shaded; a triangle that points down marks the line that told them to stop, one that points up the line that
told them to go on. A line that shows no bytes, as `lane 0`, is passed over. The numbers on an axis are the multiples,
from 0 on, of the least of 1, 2, 5, 10, 20, 50 and so on of which five come to more than the axis shows.

A line that is of no trace is told as `line L: fault 8, a line of no trace`, and ends the trace: the lines before it are
drawn all the same. If it is the first line, nothing is written.

Faults, and help if it is asked for, go to standard error. `ob_tool faults` lists all faults, and --verbose tells in
words what a fault means.
Status: 0 done, 1 the command line (help too), 2 a line, 3 reading or writing, 4 memory
What is kept at each fault, and more on what to do, is in docs/FAULTS.md.";

/// What stands after the options of `faults`.
const FAULTS: &str = "\
The list goes to standard error with status 1, as help does: ob_tool faults 2>&1 | less
With --verbose each subcommand tells what its fault means, in a line of words after the fault.";
