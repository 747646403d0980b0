/// What a buffer shows between its commands, by lines that tests alone ask: of a promise, of the message in front and
/// its promise, of the flushed messages, of its state (writable or not, its line empty or not, open or closed, how many
/// writes are left), and of a user bit.
pub static LOOKS: &str = "
# a refused write leaves all as it was
$ run --low 200 --high 400
b 304 / id 0 t=400 w=00000000
r 9223372036854775808 / !1 t=400 w=00000000
rm / no t=400 w=00000000
f / n 1 t=400 w=00000000
rm / yes t=0 w=00000000 0:ok

# promises go from waiting to settled
$ run --low 200 --high 400
promise 0 / unknown
b 4 / id 0 t=100 w=00000000
promise 0 / waits
f / n 1 t=100 w=00000000
promise 0 / fixed
x 0 / no t=100 w=00000000
x 1 / !10 t=100 w=00000000
p 3 / ok t=100 w=00000000
? / size=1 cur=3 bu=301 bw=0 t=100 w=00000000
rc 9 / yes t=0 w=00000000 0:f9
promise 0 / f9
p 1 / !5 t=0 w=00000000

# six promises in one removal: more than fit without the allocator
$ run --low 200 --high 400
4 times b 1 / id 3 t=388 w=00000000
b 1 / id 4 t=485 w=00000001 -
2 times b 1 / id 6 t=679 w=00000001
f / n 7 t=679 w=00000001
rb 6 / n 6 t=97 w=00000000 + 0:ok 1:ok 2:ok 3:ok 4:ok 5:ok
promise 5 / ok
promise 6 / fixed

# skipped bytes stop at the top of progress
$ run --low 200 --high 400
b 4 / id 0 t=100 w=00000000
f / n 1 t=100 w=00000000
p 9223372036854775806 / ok t=100 w=00000000
rb 3 / n 0 t=100 w=00000000
? / size=1 cur=9223372036854775807 bu=301 bw=0 t=100 w=00000000
flushed / b 1

# many blocks are gathered
$ run --low 200 --high 400
b 1 / id 0 t=97 w=00000000
b 2 / id 1 t=195 w=00000000
b 3 / id 2 t=294 w=00000000
b 0 / id 3 t=390 w=00000000
b 4 / id 4 t=490 w=00000001 -
b 5 / id 5 t=591 w=00000001
f / n 6 t=591 w=00000001
g 8 15 / g 1 2 3 4 5 t=591 w=00000001
g 4 15 / g 1 2 3 4 t=591 w=00000001
g 8 14 / g 1 2 3 4 t=591 w=00000001

# the promise in front: none before a flush, then that of the oldest message in line, sent in part or voided
$ run --low 200 --high 400
front / nothing
b 4 / id 0 t=100 w=00000000
front / nothing
b 4 / id 1 t=200 w=00000000
b 4 / id 2 t=300 w=00000000
x 1 / yes t=300 w=00000000 1:x
f / n 3 t=200 w=00000000
front / id 0
rm / yes t=100 w=00000000 0:ok
front / id 1
current / b 0
rb 1 / n 1 t=100 w=00000000
front / id 2
current / b 3
p 2 / ok t=100 w=00000000
front / id 2
rm / yes t=0 w=00000000 2:ok
front / nothing
b 4 / id 3 t=100 w=00000000
f / n 1 t=100 w=00000000
x 3 / no t=100 w=00000000
front / id 3
fl 7 1 / n 1 t=0 w=00000000 3:f7
front / nothing

# failing takes the whole line away: without notice the buffer stays unwritable, however little is pending
$ run --low 200 --high 400
4 times b 4 / id 3 t=400 w=00000000
b 4 / id 4 t=500 w=00000001 -
2 times b 4 / id 6 t=700 w=00000001
x 2 / yes t=700 w=00000001 2:x
f / n 7 t=600 w=00000001
b 4 / id 7 t=700 w=00000001
fl 7 0 / n 7 t=100 w=00000001 0:f7 1:f7 3:f7 4:f7 5:f7 6:f7
? / size=0 cur=0 bu=0 bw=0 t=100 w=00000001
fl 7 1 / n 0 t=100 w=00000001

# failing with notice tells of writability
$ run --low 200 --high 400
4 times b 4 / id 3 t=400 w=00000000
b 4 / id 4 t=500 w=00000001 -
f / n 5 t=500 w=00000001
fl 7 1 / n 5 t=0 w=00000000 + 0:f7 1:f7 2:f7 3:f7 4:f7
promise 4 / f7

# closing fails what no flush has reached, but for what was cancelled
$ run --low 200 --high 400
4 times b 4 / id 3 t=400 w=00000000
b 4 / id 4 t=500 w=00000001 -
2 times b 4 / id 6 t=700 w=00000001
x 5 / yes t=700 w=00000001 5:x
cl 7 / n 7 t=0 w=00000001 0:f7 1:f7 2:f7 3:f7 4:f7 6:f7
? / size=0 cur=0 bu=0 bw=0 t=0 w=00000001
promise 5 / x

# closing waits for the line to be empty
$ run --low 200 --high 400
o 7 / id 0 t=104 w=00000000
x 0 / yes t=104 w=00000000 0:x
f / n 1 t=0 w=00000000
cl 7 / !9 t=0 w=00000000
rm / yes t=0 w=00000000
cl 7 / n 0 t=0 w=00000000

# a closed buffer refuses each command
$ run --low 200 --high 400
cl 7 / n 0 t=0 w=00000000
r 18446744073709551615 / !4 t=0 w=00000000
f / !4 t=0 w=00000000
rm / !4 t=0 w=00000000
rc 7 / !4 t=0 w=00000000
rb 1 / !4 t=0 w=00000000
p 1 / !4 t=0 w=00000000
x 0 / !4 t=0 w=00000000
fl 7 1 / !4 t=0 w=00000000
cl 7 / !4 t=0 w=00000000
u 0 0 / !4 t=0 w=00000000
? / size=0 cur=0 bu=401 bw=0 t=0 w=00000000

# user bits keep a buffer unwritable: one message is above the high mark of 100
$ run --low 50 --high 100
u 0 1 / !8 t=0 w=00000000
u 32 1 / !8 t=0 w=00000000
u 4294967295 1 / !8 t=0 w=00000000
u 31 0 / ok t=0 w=80000000 -
u 31 0 / ok t=0 w=80000000
o 7 / id 0 t=104 w=80000001
u 31 1 / ok t=104 w=00000001
u 1 0 / ok t=104 w=00000003
f / n 1 t=104 w=00000003
fl 7 1 / n 1 t=0 w=00000002 0:f7
u 1 1 / ok t=0 w=00000000 +

# a buffer tells its state, as it goes from new to closed
$ run --low 50 --high 100
state / writable empty open 1048576
o 7 / id 0 t=104 w=00000001 -
state / unwritable empty open 1048575
f / n 1 t=104 w=00000001
state / unwritable flushed open 1048575
rm / yes t=0 w=00000000 + 0:ok
state / writable empty open 1048575
u 5 0 / ok t=0 w=00000020 -
state / unwritable empty open 1048575
cl 7 / n 0 t=0 w=00000020
state / unwritable empty closed 0
bit 4 / clear
bit 5 / set
bit 6 / clear
bit 32 / clear
";

/// The limits of a buffer, met. Many empty regions are written; many messages are removed, each with a write and a
/// flush after it; all that is flushed fails.
pub static LIMITS: &str = "
# the write past the limit is too much, and a removal makes no room under this limit
$ run --low 200 --high 400
cycles 1048576 / 1048576 in turn
promise 1048576 / unknown
promise 1048575 / fixed
promise 1048574 / ok
o 7 / !3 t=104 w=00000000
rm / yes t=0 w=00000000 1048575:ok
o 7 / !3 t=0 w=00000000

# the total at its limit
$ run --overhead 65535
regions 65537 / 65537 in turn
? / size=0 cur=0 bu=0 bw=4294934528 t=4294967295 w=00000001
r 0 / !3 t=4294967295 w=00000001
? / size=0 cur=0 bu=0 bw=4294934528 t=4294967295 w=00000001

# every write pending at once, whose replies settle as many promises as they said they would
$ run --overhead 0
regions 1048576 / 1048576 in turn
r 0 / !3 t=0 w=00000000
f / n 1048576 t=0 w=00000000
? / size=1048576 cur=0 bu=65537 bw=0 t=0 w=00000000
fail 7 / n 1048576, 1048576 of 1048576 in turn as f7
? / size=0 cur=0 bu=65537 bw=0 t=0 w=00000000
promise 1048575 / f7
";
