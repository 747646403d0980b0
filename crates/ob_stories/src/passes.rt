/// What a transport does. Behind the options of the buffer stand what its sink does in its first calls and how much it
/// takes at most in each later one; `--count` is how many blocks it is offered at once. A pass, a drain of *n* turns
/// and a booking of taken bytes return what came of them, how many calls are recorded, what is pending, the progress in
/// front, and all bytes that the sink has taken.
pub static PASSES: &str = "
# a sink fault takes nothing
$ transport --low 200 --high 400 take 4 fail 9 then 100
b 3 / id 0 t=99 w=00000000
b 5 / id 1 t=200 w=00000000
f / n 2 t=200 w=00000000
pass / took 4: place 4, t=101 cur=1, 00010201
pass / sink fault 9: place 4, t=101 cur=1, 00010201
pass / took 4: place 5, t=0 cur=0, 0001020102030405
pass / idle: place 5, t=0 cur=0, 0001020102030405
sink / 0 units, 1 failures
settled / 0:ok 1:ok

# regions and others pass: the sink takes at most 6 units, and the other message is given up
$ transport --low 200 --high 400 then 6
r 10 / id 0 t=96 w=00000000
o 5 / id 1 t=200 w=00000000
r 0 / id 2 t=296 w=00000000
f / n 3 t=296 w=00000000
pass / took 6: place 5, t=296 cur=6,
pass / took 4: place 7, t=200 cur=0,
pass / cleared: place 8, t=96 cur=0,
pass / cleared: place 9, t=0 cur=0,
pass / idle: place 9, t=0 cur=0,
sink / 10 units, 0 failures
settled / 0:ok 1:f1 2:ok

# stalls and turns: the sink is offered one block at once, stalls at first, and then takes it
$ transport --low 200 --high 400 --count 1 take 0 then 100
b 3 / id 0 t=99 w=00000000
b 5 / id 1 t=200 w=00000000
f / n 2 t=200 w=00000000
pass / stalled: place 3, t=200 cur=0,
drain 0 / 0 turns, turns used: place 3, t=200 cur=0,
drain 1 / 1 turns, turns used: place 4, t=101 cur=0, 000102
drain 10 / 2 turns, idle: place 5, t=0 cur=0, 0001020102030405
settled / 0:ok 1:ok

# a history of three records has room for one more behind a write and a flush, where a pass reserves two
$ transport --low 200 --high 400 --limit 3 --count 1 then 100
b 3 / id 0 t=99 w=00000000
f / n 1 t=99 w=00000000
pass / pass fault 2: place 2, t=99 cur=0,
settled /

# a stalled sink ends a drain: it takes 2 bytes, and then nothing
$ transport --low 200 --high 400 take 2 take 0 then 0
b 3 / id 0 t=99 w=00000000
b 5 / id 1 t=200 w=00000000
f / n 2 t=200 w=00000000
drain 10 / 2 turns, stalled: place 4, t=200 cur=2, 0001
settled /

# bytes are booked later, as long as there is a place for it
$ transport --low 200 --high 400 --limit 4 then 0
b 3 / id 0 t=99 w=00000000
b 5 / id 1 t=200 w=00000000
f / n 2 t=200 w=00000000
book 4 / n 1 0:ok: place 4, t=101 cur=1,
book 4 / !11: place 4, t=101 cur=1,
settled / 0:ok

# where memory is at hand, neither a pass nor a drain wants it
$ transport --low 200 --high 400 then 100
4 times b 1 / id 3 t=388 w=00000000
b 1 / id 4 t=485 w=00000001 -
b 1 / id 5 t=582 w=00000001
f / n 6 t=582 w=00000001
pass / took 6: place 8, t=0 cur=0, 000102030405
4 times b 1 / id 9 t=388 w=00000000
b 1 / id 10 t=485 w=00000001 -
r 3 / id 11 t=581 w=00000001
o 3 / id 12 t=685 w=00000001
f / n 7 t=685 w=00000001
drain 10 / 4 turns, idle: place 20, t=0 cur=0, 000102030405060708090a
sink / 3 units, 0 failures
settled / 0:ok 1:ok 2:ok 3:ok 4:ok 5:ok 6:ok 7:ok 8:ok 9:ok 10:ok 11:ok 12:f1
";

/// The same over a buffer that allocates for the removal of more than four messages right after a reserve.
pub static SCARCE: &str = "
# bytes whose removal wants memory stay in front, and are booked later
$ transport --low 200 --high 400 then 5
4 times b 1 / id 3 t=388 w=00000000
b 1 / id 4 t=485 w=00000001 -
b 1 / id 5 t=582 w=00000001
f / n 6 t=582 w=00000001
pass / 5 unbooked: place 7, t=582 cur=0, 0001020304
book 5 / n 5 + 0:ok 1:ok 2:ok 3:ok 4:ok: place 8, t=97 cur=0, 0001020304
pass / took 1: place 9, t=0 cur=0, 000102030405
settled / 0:ok 1:ok 2:ok 3:ok 4:ok 5:ok

# taken but unbooked: the sink takes all six blocks, which stay in front until their removal is booked
$ transport --low 200 --high 400 then 100
4 times b 1 / id 3 t=388 w=00000000
b 1 / id 4 t=485 w=00000001 -
b 1 / id 5 t=582 w=00000001
f / n 6 t=582 w=00000001
pass / 6 unbooked: place 7, t=582 cur=0, 000102030405
? / size=6 cur=0 bu=0 bw=383 t=582 w=00000001
book 6 / n 6 + 0:ok 1:ok 2:ok 3:ok 4:ok 5:ok: place 8, t=0 cur=0, 000102030405
settled / 0:ok 1:ok 2:ok 3:ok 4:ok 5:ok
";

/// A pass that is booked in the end (`send`), over more blocks than promises are settled without an allocation.
pub static SIX: &str = "what the sink took is booked, whichever growth is refused
$ transport --low 200 --high 400 then 100
4 times b 1 / id 3 t=388 w=00000000
b 1 / id 4 t=485 w=00000001 -
b 1 / id 5 t=582 w=00000001
f / n 6 t=582 w=00000001
send / : place 8, t=0 cur=0, 000102030405
";

/// The same before its pass.
pub static SIX_FLUSHED: &str = "six blocks are flushed
$ transport --low 200 --high 400 then 100
4 times b 1 / id 3 t=388 w=00000000
b 1 / id 4 t=485 w=00000001 -
b 1 / id 5 t=582 w=00000001
f / n 6 t=582 w=00000001
";
