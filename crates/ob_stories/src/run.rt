/// What commands answer one after the other, in the lines and the traces of `ob_tool run`. A line behind a colon is asked
/// by the tests of the libraries alone: those of [`LOOKS`](crate::LOOKS), and what a script may not ask.
pub static RUN: &str = "
# no line
$ run --low 200 --high 400

# equality with high sets nothing
$ run --low 200 --high 400
b 304 / id 0 t=400 w=00000000
b 0 / id 1 t=496 w=00000001 -

# marks raised while open: no bit moves, and the next fall goes by the new low mark
$ run --low 200 --high 400
b 304 / id 0 t=400 w=00000000
b 0 / id 1 t=496 w=00000001 -
m 600 700 / ok t=496 w=00000001
? / size=0 cur=0 bu=0 bw=0 t=496 w=00000001
b 0 / id 2 t=592 w=00000001
f / n 3 t=592 w=00000001
rm / yes t=192 w=00000000 + 0:ok

# marks lowered while open: no bit moves, and the next rise goes by the new high mark
$ run --low 200 --high 400
b 304 / id 0 t=400 w=00000000
m 0 100 / ok t=400 w=00000000
? / size=0 cur=0 bu=0 bw=0 t=400 w=00000000
b 0 / id 1 t=496 w=00000001 -

# marks of a closed buffer
$ run
cl 1 / n 0 t=0 w=00000000
m 1 2 / !4 t=0 w=00000000

# the first run
$ run --low 200 --high 400
b 304 / id 0 t=400 w=00000000
b 0 / id 1 t=496 w=00000001 -
f / n 2 t=496 w=00000001
rm / yes t=96 w=00000000 + 0:ok

# equality with low clears nothing
$ run --low 200 --high 400
b 204 / id 0 t=300 w=00000000
b 104 / id 1 t=500 w=00000001 -
f / n 2 t=500 w=00000001
rm / yes t=200 w=00000001 0:ok
rm / yes t=0 w=00000000 + 1:ok

# low zero stays unwritable
$ run --low 0 --high 400
b 400 / id 0 t=496 w=00000001 -
f / n 1 t=496 w=00000001
rm / yes t=0 w=00000001 0:ok

# a look at an empty buffer
$ run
? / size=0 cur=0 bu=65537 bw=0 t=0 w=00000000

# a look at a full buffer
$ run --low 200 --high 400
b 304 / id 0 t=400 w=00000000
b 0 / id 1 t=496 w=00000001 -
? / size=0 cur=0 bu=0 bw=297 t=496 w=00000001

# marks of zero: a message that counts nothing changes nothing, and no total falls below 0
$ run --low 0 --high 0 --overhead 0
b 0 / id 0 t=0 w=00000000
b 1 / id 1 t=1 w=00000001 -
f / n 2 t=1 w=00000001
rm / yes t=1 w=00000001 0:ok
rm / yes t=0 w=00000001 1:ok

# marks of zero, and both blocks removed at once
$ run --low 0 --high 0 --overhead 0
b 0 / id 0 t=0 w=00000000
b 1 / id 1 t=1 w=00000001 -
f / n 2 t=1 w=00000001
rb 1 / n 2 t=0 w=00000001 0:ok 1:ok

# regions and other messages: a region counts its overhead alone, another message 8 bytes besides
$ run --low 200 --high 400
r 9 / id 0 t=96 w=00000000
o 7 / id 1 t=200 w=00000000
f / n 2 t=200 w=00000000
p 18446744073709551615 / !6 t=200 w=00000000
p 5 / ok t=200 w=00000000
? / size=2 cur=5 bu=201 bw=0 t=200 w=00000000
rc 4294967295 / yes t=104 w=00000000 0:f4294967295
rm / yes t=0 w=00000000 1:ok

# the longest region: its length is a signed number of 64 bits; a refused one takes no id
$ run
r 18446744073709551615 / !1 t=0 w=00000000
r 9223372036854775808 / !1 t=0 w=00000000
r 9223372036854775807 / id 0 t=96 w=00000000
o 4294967295 / id 1 t=200 w=00000000

# a cancelled entry is voided at the flush: it counts until then, and keeps its place in line behind it
$ run --low 200 --high 400
b 304 / id 0 t=400 w=00000000
b 4 / id 1 t=500 w=00000001 -
x 0 / yes t=500 w=00000001 0:x
f / n 2 t=100 w=00000000 +
: ? / size=2 cur=0 bu=301 bw=0 t=100 w=00000000
: current / b 0
: flushed / b 4
rm / yes t=100 w=00000000
: promise 0 / x
: current / b 4
rm / yes t=0 w=00000000 1:ok
: current / nothing

# a fixed promise cannot be cancelled
$ run --low 200 --high 400
b 4 / id 0 t=100 w=00000000
f / n 1 t=100 w=00000000
x 0 / no t=100 w=00000000

# nor can a settled one
$ run --low 200 --high 400
b 4 / id 0 t=100 w=00000000
x 0 / yes t=100 w=00000000 0:x
x 0 / no t=100 w=00000000

# an unknown one is refused
$ run
x 0 / !10 t=0 w=00000000
b 1 / id 0 t=97 w=00000000
x 1 / !10 t=97 w=00000000
x 4294967295 / !10 t=97 w=00000000

# close spares a cancelled promise: it is settled, but its message is counted among those that are taken away
$ run --low 200 --high 400
b 4 / id 0 t=100 w=00000000
x 0 / yes t=100 w=00000000 0:x
cl 3 / n 1 t=0 w=00000000
cl 3 / !4 t=0 w=00000000
? / size=0 cur=0 bu=401 bw=0 t=0 w=00000000

# nothing to flush or remove: a removal from an empty buffer, and a flush of nothing
$ run
rm / no t=0 w=00000000
f / n 0 t=0 w=00000000

# progress stops at its top
$ run --low 200 --high 400
b 4 / id 0 t=100 w=00000000
p 3 / !5 t=100 w=00000000
f / n 1 t=100 w=00000000
p 3 / ok t=100 w=00000000
p 9223372036854775805 / !6 t=100 w=00000000
p 9223372036854775804 / ok t=100 w=00000000
? / size=1 cur=9223372036854775807 bu=301 bw=0 t=100 w=00000000
rc 9 / yes t=0 w=00000000 0:f9
rc 9 / no t=0 w=00000000
r 9223372036854775808 / !1 t=0 w=00000000

# a removal of bytes takes empty blocks along: what is left over counts as progress of the next
$ run --low 200 --high 400
b 3 / id 0 t=99 w=00000000
b 0 / id 1 t=195 w=00000000
b 5 / id 2 t=296 w=00000000
f / n 3 t=296 w=00000000
rb 3 / n 2 t=101 w=00000000 0:ok 1:ok
rb 2 / n 0 t=101 w=00000000
? / size=1 cur=2 bu=300 bw=0 t=101 w=00000000
: flushed / b 3
rb 4 / !7 t=101 w=00000000
: ? / size=1 cur=2 bu=300 bw=0 t=101 w=00000000
rb 3 / n 1 t=0 w=00000000 2:ok
rb 0 / n 0 t=0 w=00000000

# zero bytes remove an empty front: with nothing flushed they remove nothing
$ run --low 200 --high 400
rb 0 / n 0 t=0 w=00000000
b 0 / id 0 t=96 w=00000000
f / n 1 t=96 w=00000000
rb 0 / n 1 t=0 w=00000000 0:ok

# a region ends the byte run: the bytes of a region are none of the buffer's
$ run --low 200 --high 400
b 3 / id 0 t=99 w=00000000
r 9 / id 1 t=195 w=00000000
f / n 2 t=195 w=00000000
rb 4 / !7 t=195 w=00000000

# another message in front: another message ends the byte run too, and is removed as a whole
$ run --low 200 --high 400
o 5 / id 0 t=104 w=00000000
f / n 1 t=104 w=00000000
rb 0 / n 0 t=104 w=00000000
: g 8 8 / g t=104 w=00000000
: flushed / o 5
rb 1 / !7 t=104 w=00000000
rm / yes t=0 w=00000000 0:ok

# a gathering skips voided entries: a voided entry is passed over, and the first block comes in any case, but for none
$ run --low 200 --high 400
b 3 / id 0 t=99 w=00000000
b 4 / id 1 t=199 w=00000000
b 5 / id 2 t=300 w=00000000
x 1 / yes t=300 w=00000000 1:x
: g 8 8 / g t=300 w=00000000
f / n 3 t=200 w=00000000
: g 0 100 / g t=200 w=00000000
: g 8 0 / g 3 t=200 w=00000000
: flushed / b 3 b 5
g 8 6 / g 3 t=200 w=00000000
g 8 8 / g 3 5 t=200 w=00000000
g 1 100 / g 3 t=200 w=00000000
g 8 1 / g 3 t=200 w=00000000
g 1024 2147483647 / g 3 5 t=200 w=00000000

# nothing to gather: a block that no flush has reached, or behind a region, is not gathered
$ run --low 200 --high 400
b 3 / id 0 t=99 w=00000000
g 8 8 / g t=99 w=00000000
f / n 1 t=99 w=00000000
r 9 / id 1 t=195 w=00000000
b 2 / id 2 t=293 w=00000000
f / n 2 t=293 w=00000000
rb 1 / n 0 t=293 w=00000000
g 8 8 / g 2 t=293 w=00000000
rm / yes t=194 w=00000000 0:ok
g 8 8 / g t=194 w=00000000

# user bits share the word: the buffer is writable again once the mark and every user bit are clear
$ run --low 200 --high 400
u 5 0 / ok t=0 w=00000020 -
b 400 / id 0 t=496 w=00000021
f / n 1 t=496 w=00000021
rm / yes t=0 w=00000020 0:ok
u 5 1 / ok t=0 w=00000000 +
u 0 0 / !8 t=0 w=00000000
u 32 0 / !8 t=0 w=00000000

# several user bits: a bit that is clear may be cleared again
$ run --low 200 --high 400
u 1 0 / ok t=0 w=00000002 -
u 2 0 / ok t=0 w=00000006
u 1 1 / ok t=0 w=00000004
u 1 1 / ok t=0 w=00000004
u 2 1 / ok t=0 w=00000000 +
u 31 0 / ok t=0 w=80000000 -

# failing without notice keeps the mark: a fall without notice clears nothing, and neither does closing
$ run --low 200 --high 400
b 400 / id 0 t=496 w=00000001 -
f / n 1 t=496 w=00000001
b 4 / id 1 t=596 w=00000001
cl 7 / !9 t=596 w=00000001
fl 7 0 / n 1 t=100 w=00000001 0:f7
cl 7 / n 1 t=0 w=00000001 1:f7
b 1 / !4 t=0 w=00000001

# failing with notice clears it
$ run --low 200 --high 400
b 400 / id 0 t=496 w=00000001 -
f / n 1 t=496 w=00000001
b 4 / id 1 t=596 w=00000001
cl 7 / !9 t=596 w=00000001
fl 7 1 / n 1 t=100 w=00000000 + 0:f7
cl 7 / n 1 t=0 w=00000000 1:f7
b 1 / !4 t=0 w=00000000
";

/// The same with a limit on the commands that are recorded.
pub static FULL: &str = "
# the history limit: each write counts 1 byte and 96 more; the fourth command finds three records
$ run --limit 3
b 1 / id 0 t=97 w=00000000
b 1 / id 1 t=194 w=00000000
f / n 2 t=194 w=00000000
rm / !11 t=194 w=00000000

# a refused command is recorded
$ run --limit 3
x 5 / !10 t=0 w=00000000
b 1 / id 0 t=97 w=00000000
f / n 1 t=97 w=00000000
f / !11 t=97 w=00000000

# looks leave no record: they answer a full history too, which stays full
$ run --limit 3
? / size=0 cur=0 bu=65537 bw=0 t=0 w=00000000
b 3 / id 0 t=99 w=00000000
g 8 8 / g t=99 w=00000000
f / n 1 t=99 w=00000000
rb 1 / n 0 t=99 w=00000000
rm / !11 t=99 w=00000000
? / size=1 cur=1 bu=65438 bw=0 t=99 w=00000000
g 8 8 / g 2 t=99 w=00000000
x 9 / !11 t=99 w=00000000

# the greatest options
$ run --low 2147483647 --high 2147483647 --overhead 65535 --unknown 65535 --limit 1048576
b 1 / id 0 t=65536 w=00000000
o 7 / id 1 t=196606 w=00000000

# the least limit: it leaves room for one record, and the flush finds none
$ run --limit 1
b 1 / id 0 t=97 w=00000000
f / !11 t=97 w=00000000

# the marks if none are given: 65537 sets the mark, and 32768 does not clear it
$ run
b 32673 / id 0 t=32769 w=00000000
b 32672 / id 1 t=65537 w=00000001 -
f / n 2 t=65537 w=00000001
rm / yes t=32768 w=00000001 0:ok

# the marks if none are given: 65536 does not set the mark, and 32767 clears it
$ run
b 32769 / id 0 t=32865 w=00000000
b 32575 / id 1 t=65536 w=00000000
b 0 / id 2 t=65632 w=00000001 -
f / n 3 t=65632 w=00000001
rm / yes t=32767 w=00000000 + 0:ok
";
