/// What writers and a sink are given to do, and the report on their drive, in the lines of `ob_tool drive`.
pub static DRIVES: &str = "
# four writers
$ drive
b 0 10 25
b 1 10 25
b 2 10 25
b 3 10 25
f 0
f 1
f 2
f 3
then 7
/ writes 100, flushes 4, cancels 0, bits 0, refused 0, taken 1000, success 100, failed 0, cancelled 0, left 0, hand 0 00000000
: sink / 1000 bytes, 0 failures

# a failing sink
$ drive
b 0 10 2
f 0
fail 9
/ writes 2, flushes 1, cancels 0, bits 0, refused 0, taken 0, success 0, failed 2, cancelled 0, left 0, hand 0 00000000
: sink / 0 bytes, 1 failures
: fails / fl 9 1

# a sink that fails with six blocks in front: more promises than are settled without memory
$ drive
b 0 1 6
f 0
fail 9
/ writes 6, flushes 1, cancels 0, bits 0, refused 0, taken 0, success 0, failed 6, cancelled 0, left 0, hand 0 00000000
: sink / 0 bytes, 1 failures
: fails / fl 9 1

# what is given up ends no transport: all blocks behind it are sent
$ drive
o 0 7
b 0 4 1
o 0 7
b 0 4 1
o 0 7
b 0 4 1
f 0
/ writes 6, flushes 1, cancels 0, bits 0, refused 0, taken 12, success 3, failed 3, cancelled 0, left 0, hand 0 00000000

# refused commands
$ drive
b 0 1 1
x 1 7
u 1 3 0
r 1 9223372036854775808
/ writes 1, flushes 0, cancels 0, bits 1, refused 2, taken 0, success 0, failed 0, cancelled 0, left 1, hand 0 00000000

# a writer sets the marks of the buffer, which no line of the report counts; what is handed over goes by the marks of the options
$ drive --low 200 --high 400
m 0 0 0
b 0 100 4
m 0 600 700
f 0
then 100
/ writes 4, flushes 1, cancels 0, bits 0, refused 0, taken 400, success 4, failed 0, cancelled 0, left 0, hand 0 00000000

# the steps of the sink come in order: the sink takes 3 bytes of the first block, and then nothing
$ drive
then 0
take 3
b 0 5 2
f 0
/ writes 2, flushes 1, cancels 0, bits 0, refused 0, taken 3, success 0, failed 0, cancelled 0, left 2, hand 0 00000000

# a writer alone: each kind of message, a cancelled one, and a writer without lines. What the last flush does not reach is left
$ drive
b 1 4 2
x 1 0
r 1 9
o 1 7
u 1 31 0
u 1 31 1
f 1
b 1 1 1
/ writes 5, flushes 1, cancels 1, bits 2, refused 0, taken 4, success 2, failed 1, cancelled 1, left 1, hand 0 00000000

# the last writer: there is a writer for each number up to the greatest
$ drive
b 63 0 1024
f 63
/ writes 1024, flushes 1, cancels 0, bits 0, refused 0, taken 0, success 1024, failed 0, cancelled 0, left 0, hand 0 00000000

# the greatest task: what a hand-off adds is charged: 64 writers that hand over one block each need room for all of them at once
$ drive --task 65535
b 0 1 1
/ writes 1, flushes 0, cancels 0, bits 0, refused 0, taken 0, success 0, failed 0, cancelled 0, left 1, hand 0 00000000

# no line, so no writer
$ drive
/ drive: fault 1

# lines without a writer
$ drive
take 1
then 2
turns 3
/ drive: fault 1

# a full history refuses a writer: three writes, and a place for two
$ drive --limit 2
b 1 1 3
/ drive: fault 6
: why / a command of writer 1 was refused: the history is full

# a writer's fault comes before the transport's: a write and a flush, and one place more, where a pass reserves two
$ drive --limit 3
b 0 1 1
f 0
b 0 1 2
/ drive: fault 6
: why / a command of writer 0 was refused: the history is full

# a full history ends the transport
$ drive --limit 3
b 0 1 1
f 0
b 0 1 1
/ drive: fault 7
: why / the transport ended: the history is full

# the hand-off has the marks of the buffer: a block of one byte is charged 33, which is above high, and nothing is below a low mark of 0
$ drive --low 0 --high 32
b 0 1 1
/ writes 1, flushes 0, cancels 0, bits 0, refused 0, taken 0, success 0, failed 0, cancelled 0, left 1, hand 0 00000001

# a hand-off that is charged as much as high sets nothing
$ drive --low 0 --high 33
b 0 1 1
/ writes 1, flushes 0, cancels 0, bits 0, refused 0, taken 0, success 0, failed 0, cancelled 0, left 1, hand 0 00000000
";

/// The same with lines that tests alone give: `each` gives a line to the first *n* writers, a block may have any
/// length, and `rm` gives a removal. `sink` reports how many bytes the sink took and how often it failed, `fails` what
/// was failed for that, and `why` the text of the fault.
pub static PLANS: &str = "
# sixty-four writers
$ drive
each 64 b 1 1024
each 64 f
then 7
/ writes 65536, flushes 64, cancels 0, bits 0, refused 0, taken 65536, success 65536, failed 0, cancelled 0, left 0, hand 0 00000000
sink / 65536 bytes, 0 failures

# no plan, which is told before anything else
$ drive
/ drive: fault 1
why / a drive has 1 to 64 plans

# one plan too many
$ drive
each 65 b 1 0
/ drive: fault 1

# 64 times 67108864 bytes are 4294967296, without what a message counts beside its own
$ drive
each 64 b 67108864 1
/ drive: fault 3
why / the plans need too much room together

# a removal stands in no plan
$ drive
each 1 rm
/ drive: fault 2
why / step 0 of writer 0 may not stand in a plan

# marks stand in a plan, and the report counts none of them
$ drive
each 2 m 5 7
/ writes 0, flushes 0, cancels 0, bits 0, refused 0, taken 0, success 0, failed 0, cancelled 0, left 0, hand 0 00000000

# a transport without turns takes nothing
$ drive
turns 0
each 1 b 1 3
each 1 f
/ writes 3, flushes 1, cancels 0, bits 0, refused 0, taken 0, success 0, failed 0, cancelled 0, left 3, hand 0 00000000
";
