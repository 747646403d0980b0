/// What callers of a shared buffer do in turn, each call from a desk of its own. A line that begins with the number of a
/// caller is a call of it, or a look (`?`), which it keeps, or a wait for a promise (`wait`), or has its receipts given
/// anew (`again`). `made` asks how many records each made. `finish` hands in all shares, receipts and looks, but for
/// what was laid aside: all that a caller has (`without`), its last receipt (`short`), or the command of one of its
/// receipts (`forge`) or of the first that it was told of (`told`), with a flush in its place, which goes aside in turn
/// if a second one is laid there; `seen` changes its first look. `exchange` gives each of two callers the receipts of
/// the other, and `twice` puts the first receipt of a caller in the place of its last one too. The same line puts that
/// back, the last one first. `why` asks for the text of the last fault. `read`, behind the number of a caller, is a
/// glance without the lock; `watch` makes a reader of a caller's share, `watched` is the glance of the last one, and
/// `check` its look under the lock.
pub static SHARED: &str = "
# two callers finish: the first writes and the second flushes
$ shared --callers 2 --limit 8
made / 0:0 1:0
0 b 4 / place 0: id 0 t=100 w=00000000
1 f / place 1: n 1 t=100 w=00000000
made / 0:1 1:1
1 ? / place 2: size=1 cur=0 bu=65437 bw=0 t=100 w=00000000
without 0
finish / shares missing
why / the share of a caller is missing
without 0
short 0
finish / receipts of 0 missing
why / caller 0 handed in another number of receipts than it made records
short 0
forge 0 0
finish / foreign: 0 at 0
why / caller 0 handed in what is not of the history, at place 0
forge 0 0
finish / 2 records: size=1 cur=0 bu=65437 bw=0 t=100 w=00000000

# a new buffer has no record, whatever a caller asks
$ shared --callers 2 --limit 8
made / 0:0 1:0
0 ? / place 0: size=0 cur=0 bu=65537 bw=0 t=0 w=00000000
1 again / 0 receipts
0 wait 0 / !10
1 read / t=0 w=00000000
finish / 0 records: size=0 cur=0 bu=65537 bw=0 t=0 w=00000000

# what a desk left is what the next desk and the end find
$ shared --callers 2 --limit 8
0 b 4 / place 0: id 0 t=100 w=00000000
1 f / place 1: n 1 t=100 w=00000000
0 ? / place 2: size=1 cur=0 bu=65437 bw=0 t=100 w=00000000
finish / 2 records: size=1 cur=0 bu=65437 bw=0 t=100 w=00000000

# where memory is at hand, no call wants it: one call settles five blocks
$ shared --callers 2 --limit 16
5 times 1 b 1 / place 4: id 4 t=485 w=00000000
1 again / 5 receipts
0 again / 0 receipts
1 f / place 5: n 5 t=485 w=00000000
1 rb 5 / place 6: n 5 t=0 w=00000000 0:ok 1:ok 2:ok 3:ok 4:ok
0 wait 4 / place 6 of caller 1: 0:ok 1:ok 2:ok 3:ok 4:ok
0 wait 5 / !10
made / 0:0 1:7
finish / 7 records: size=0 cur=0 bu=65537 bw=0 t=0 w=00000000

# what is foreign first: of the first caller its receipts, then what it was told, then what it saw
$ shared --callers 2 --limit 8
0 b 4 / place 0: id 0 t=100 w=00000000
0 b 4 / place 1: id 1 t=200 w=00000000
1 f / place 2: n 2 t=200 w=00000000
1 rm / place 3: yes t=100 w=00000000 0:ok
0 wait 0 / place 3 of caller 1: 0:ok
0 ? / place 4: size=1 cur=0 bu=65437 bw=0 t=100 w=00000000
1 ? / place 4: size=1 cur=0 bu=65437 bw=0 t=100 w=00000000
short 0
finish / receipts of 0 missing
short 0
forge 0 0
finish / foreign: 0 at 0
forge 0 0
seen 1
finish / foreign: 1 at 4
seen 0
finish / foreign: 0 at 4
told 0
finish / foreign: 0 at 3
forge 0 1
finish / foreign: 0 at 1
without 0
finish / shares missing
without 0
forge 0 1
finish / foreign: 0 at 3
told 0
seen 0
forge 1 1
finish / foreign: 1 at 3
forge 1 1
seen 1
finish / 4 records: size=1 cur=0 bu=65437 bw=0 t=100 w=00000000

# exchanged receipts: each caller hands in what the other was given
$ shared --callers 2 --limit 8
0 o 1 / place 0: id 0 t=104 w=00000000
1 o 2 / place 1: id 1 t=208 w=00000000
exchange 0 1
finish / foreign: 0 at 1
exchange 0 1
finish / 2 records: size=0 cur=0 bu=65329 bw=0 t=208 w=00000000

# a receipt that is handed in twice
$ shared --callers 2 --limit 8
0 o 1 / place 0: id 0 t=104 w=00000000
0 o 2 / place 1: id 1 t=208 w=00000000
twice 0
finish / foreign: 0 at 0
twice 0
finish / 2 records: size=0 cur=0 bu=65329 bw=0 t=208 w=00000000

# a share that is left out is told before a receipt that the other lacks
$ shared --callers 2 --limit 8
0 o 1 / place 0: id 0 t=104 w=00000000
1 o 2 / place 1: id 1 t=208 w=00000000
without 1
finish / shares missing
short 0
finish / shares missing
without 1
finish / receipts of 0 missing
short 0
without 0
finish / shares missing
short 1
finish / shares missing
short 1
without 0
finish / 2 records: size=0 cur=0 bu=65329 bw=0 t=208 w=00000000

# readers glance without the lock: at nothing, and at what another caller wrote
$ shared --callers 2 --limit 8 --low 200 --high 400
watch 1
watched / t=0 w=00000000
0 b 304 / place 0: id 0 t=400 w=00000000
0 b 0 / place 1: id 1 t=496 w=00000001 -
0 read / t=496 w=00000001
watch 0
watched / t=496 w=00000001
1 read / t=496 w=00000001
check / place 2: size=0 cur=0 bu=0 bw=297 t=496 w=00000001
finish / 2 records: size=0 cur=0 bu=0 bw=297 t=496 w=00000001

# marks that are set while the buffer is open: each look goes by those of its place
$ shared --callers 2 --limit 8 --low 200 --high 400
0 b 304 / place 0: id 0 t=400 w=00000000
1 ? / place 1: size=0 cur=0 bu=1 bw=0 t=400 w=00000000
1 m 50 100 / place 1: ok t=400 w=00000000
1 ? / place 2: size=0 cur=0 bu=0 bw=0 t=400 w=00000000
0 read / t=400 w=00000000
0 b 0 / place 2: id 1 t=496 w=00000001 -
1 read / t=496 w=00000001
0 ? / place 3: size=0 cur=0 bu=0 bw=447 t=496 w=00000001
seen 1
finish / foreign: 1 at 1
seen 1
finish / 3 records: size=0 cur=0 bu=0 bw=447 t=496 w=00000001

# a history at its limit takes no call more, of whichever caller
$ shared --callers 2 --limit 1
0 f / place 0: n 0 t=0 w=00000000
0 f / !11
1 f / !11
made / 0:1 1:0
finish / 1 records: size=0 cur=0 bu=65537 bw=0 t=0 w=00000000

# the last of sixty-five callers hands in too
$ shared --callers 65 --limit 8
64 b 4 / place 0: id 0 t=100 w=00000000
0 f / place 1: n 1 t=100 w=00000000
without 64
finish / shares missing
without 64
short 64
finish / receipts of 64 missing
short 64
forge 64 0
finish / foreign: 64 at 0
forge 64 0
finish / 2 records: size=1 cur=0 bu=65437 bw=0 t=100 w=00000000
";

/// Scenes: between per cent signs stands what each caller plays in a thread of its own, in the order of their numbers,
/// and the last part is played by all that are left. `come` says that one comes, `until N` waits until *N* have come,
/// and `pause N` lets milliseconds pass. `calls N of A, B` makes *N* calls of these commands in turn, and `calls N` *N*
/// random ones; `sees N` waits for that total, without the lock. `desk` flushes and removes at one desk, which it
/// `leaves` then, or `goes-on` at with one call more, or `drops`. `waits N` waits for *N* promises, one by one,
/// each of which another caller `settles` when the wait for it begins. Behind the last sign stands what is asked in
/// turn when all have played. `ends` is `finish` without what is pending; `same` asks whether a buffer of one thread
/// makes the same history, `left` how many writes are left, and `glances` how many readers saw glances of the history
/// in order.
pub static CROSSING: &str = "
# both who wait for one promise are told of it by a desk that is left
$ shared --callers 3 --limit 8
2 b 4 / place 0: id 0 t=100 w=00000000
%
come
wait 0 / place 2 of caller 2: 0:ok
%
come
wait 0 / place 2 of caller 2: 0:ok
%
until 2
pause 20
desk leaves / 3 receipts
%
finish / 3 records: size=0 cur=0 bu=65537 bw=0 t=0 w=00000000

# both are told of it by a desk at which one more call is made, which settles nothing
$ shared --callers 3 --limit 8
2 b 4 / place 0: id 0 t=100 w=00000000
%
come
wait 0 / place 2 of caller 2: 0:ok
%
come
wait 0 / place 2 of caller 2: 0:ok
%
until 2
pause 20
desk goes-on / 4 receipts
%
finish / 4 records: size=0 cur=0 bu=65537 bw=0 t=0 w=00000000

# both are told of it by a desk that is dropped, and the buffer is not finished without its share
$ shared --callers 3 --limit 8
2 b 4 / place 0: id 0 t=100 w=00000000
%
come
wait 0 / place 2 of caller 2: 0:ok
%
come
wait 0 / place 2 of caller 2: 0:ok
%
until 2
pause 20
desk drops /
%
finish / shares missing

# who waits is told however the first caller settles it: by a removal, by bytes, by a failing, a cancellation and a close
$ shared --callers 2 --limit 16
1 b 4 / place 0: id 0 t=100 w=00000000
1 b 4 / place 1: id 1 t=200 w=00000000
1 b 4 / place 2: id 2 t=300 w=00000000
1 f / place 3: n 3 t=300 w=00000000
1 b 4 / place 4: id 3 t=400 w=00000000
1 b 4 / place 5: id 4 t=500 w=00000000
%
until 1
pause 20
rm / place 6: yes t=400 w=00000000 0:ok
until 2
pause 20
rb 4 / place 7: n 1 t=300 w=00000000 1:ok
until 3
pause 20
fl 7 1 / place 8: n 1 t=200 w=00000000 2:f7
until 4
pause 20
x 3 / place 9: yes t=200 w=00000000 3:x
until 5
pause 20
cl 9 / place 10: n 2 t=0 w=00000000 4:f9
%
come
wait 0 / place 6 of caller 0: 0:ok
come
wait 1 / place 7 of caller 0: 1:ok
come
wait 2 / place 8 of caller 0: 2:f7
come
wait 3 / place 9 of caller 0: 3:x
come
wait 4 / place 10 of caller 0: 4:f9
%
finish / 11 records: size=0 cur=0 bu=65537 bw=0 t=0 w=00000000

# one caller waits for one promise after another, and another settles each when the wait begins: none is missed
$ shared --callers 2 --limit 1000
%
waits 300 / 300 told
%
settles 300 /
%
finish / 900 records: size=0 cur=0 bu=65537 bw=0 t=0 w=00000000

# two callers write, and each reads until it has seen what both wrote
$ shared --callers 2 --limit 8
%
calls 1 of r 0 / 1 calls
sees 192 /
%
finish / 2 records: size=0 cur=0 bu=65345 bw=0 t=192 w=00000000

# four callers of 250 calls make a history of one thread
$ shared --callers 4 --limit 1000
%
calls 250 of b 4, f, rm / 250 calls
%
ends / 1000 records
same / yes

# eight callers of 250 calls by chance make a history of one thread
$ shared --callers 8 --limit 2000
%
calls 250 / 250 calls
%
ends / 2000 records
same / yes

# three of eight callers end at a command that the buffer refuses, and the others go on when these have ended
$ shared --callers 8 --limit 2000
%
calls 10 of b 4 / 10 calls
until 3
calls 10 of b 4 / 10 calls
%
calls 5 of b 4 / 5 calls
calls 1 of r 18446744073709551615 / 1 calls
come
%
calls 10 of b 4 / 10 calls
until 3
calls 10 of b 4 / 10 calls
%
calls 10 of b 4 / 10 calls
until 3
calls 10 of b 4 / 10 calls
%
calls 5 of b 4 / 5 calls
calls 1 of r 18446744073709551615 / 1 calls
come
%
calls 10 of b 4 / 10 calls
until 3
calls 10 of b 4 / 10 calls
%
calls 5 of b 4 / 5 calls
calls 1 of r 18446744073709551615 / 1 calls
come
%
calls 10 of b 4 / 10 calls
until 3
calls 10 of b 4 / 10 calls
%
finish / 118 records: size=0 cur=0 bu=54037 bw=0 t=11500 w=00000000
same / yes
left / 1048461

# four readers read without a pause while two callers make their calls: what each sees never goes back
$ shared --callers 2 --low 50 --high 100 --limit 20000
watch 0
watch 0
watch 1
watch 1
%
calls 10000 of r 0, f, rm / 10000 calls
come
%
ends / 20000 records
glances / 4 in order of 20001
";

/// A scene in which each growth may be refused.
pub static TOLD: &str = "
# a caller is told of what another settles
$ shared --callers 2 --limit 8
0 b 4 / place 0: id 0 t=100 w=00000000
%
wait 0 / place 2 of caller 1: 0:ok
%
f / place 1: n 1 t=100 w=00000000
rm / place 2: yes t=0 w=00000000 0:ok
%
finish / 3 records: size=0 cur=0 bu=65537 bw=0 t=0 w=00000000
";
