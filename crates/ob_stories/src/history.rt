/// What a history keeps. A line that begins with the number of a caller is a call in its name, and returns the place of
/// its record; `?` looks, at a place; `reserve N` reserves calls. The receipt of call K is asked for by its number,
/// with an `f` behind it if it is of a flush instead, or with `@` and another place; a look is asked for in the same
/// way. `check` asks whether a receipt is of the history and `seen` whether a look is; `own`, `told` and `looks` ask
/// which of those that a caller hands in is the first that is not.
pub static HISTORY: &str = "
# a recorded history at its limit: of three places no more are reserved, and a fourth call is refused
$ history --limit 3
reserve 4 / !11
? / place 0: size=0 cur=0 bu=65537 bw=0 t=0 w=00000000
7 b 4 / place 0: id 0 t=100 w=00000000
2 x 5 / place 1: !10 t=100 w=00000000
reserve 2 / !11
reserve 1 / ok
7 f / place 2: n 1 t=100 w=00000000
7 f / !11
check 0 / yes
check 0@1 / no
check 0@3 / no
seen 0 / yes
seen 0@1 / no
seen 0@4 / no

# a refused command is recorded
$ history --limit 4
1 p 3 / place 0: !5 t=0 w=00000000
told 0 / none
? / place 1: size=0 cur=0 bu=65537 bw=0 t=0 w=00000000
callers / 1

# one caller makes all calls
$ history --limit 3
reserve 3 / ok
9 o 1 / place 0: id 0 t=104 w=00000000
9 f / place 1: n 1 t=104 w=00000000
9 rm / place 2: yes t=0 w=00000000 0:ok
? / place 3: size=0 cur=0 bu=65537 bw=0 t=0 w=00000000
callers / 9 9 9

# marks that are set are a record, and a look goes by those in force at its place
$ history --limit 3
? / place 0: size=0 cur=0 bu=65537 bw=0 t=0 w=00000000
3 b 4 / place 0: id 0 t=100 w=00000000
4 m 0 150 / place 1: ok t=100 w=00000000
? / place 2: size=0 cur=0 bu=51 bw=0 t=100 w=00000000
4 b 0 / place 2: id 1 t=196 w=00000001 -
? / place 3: size=0 cur=0 bu=0 bw=197 t=196 w=00000001
seen 1 / yes
seen 1@1 / no
looks 0 1 2 / none
told 0 1 2 / none

# a removal settles five promises, more than fit without the allocator
$ history --limit 7
5 times 3 b 1 / place 4: id 4 t=485 w=00000000
3 f / place 5: n 5 t=485 w=00000000
settles rb 5 / 5
4 rb 5 / place 6: n 5 t=0 w=00000000 0:ok 1:ok 2:ok 3:ok 4:ok
told 0 1 2 3 4 5 6 / none
? / place 7: size=0 cur=0 bu=65537 bw=0 t=0 w=00000000
seen 0 / yes
settled / 0:ok 1:ok 2:ok 3:ok 4:ok

# a promise is settled by a cancellation until a flush has fixed it, and by a removal from then on
$ history --limit 3
0 b 1 / place 0: id 0 t=97 w=00000000
settles x 0 / 1
settles rm / 0
0 f / place 1: n 1 t=97 w=00000000
settles x 0 / 0
settles rm / 1
0 rm / place 2: yes t=0 w=00000000 0:ok
settled / 0:ok

# the settling record is found, and none of a promise that was never given
$ history --limit 6
3 b 4 / place 0: id 0 t=100 w=00000000
3 x 7 / place 1: !10 t=100 w=00000000
4 f / place 2: n 1 t=100 w=00000000
settling 0 / none
4 rm / place 3: yes t=0 w=00000000 0:ok
4 f / place 4: n 0 t=0 w=00000000
settling 1 / none
settling 0 / place 3 of caller 4

# the first foreign receipt is found: of another caller, out of order, or with another command
$ history --limit 3
3 b 4 / place 0: id 0 t=100 w=00000000
4 f / place 1: n 1 t=100 w=00000000
4 rm / place 2: yes t=0 w=00000000 0:ok
own 3 0 / none
own 4 0 / 0
told 0 / none
own 4 2 1 / 1
told 2 1 / none
own 4 1 2 / none
own 4 1 2f / 1
told 1 2f / 1

# the first foreign look is found: each is at its place, in any order
$ history --limit 3
? / place 0: size=0 cur=0 bu=65537 bw=0 t=0 w=00000000
1 b 4 / place 0: id 0 t=100 w=00000000
? / place 1: size=0 cur=0 bu=65437 bw=0 t=100 w=00000000
1 f / place 1: n 1 t=100 w=00000000
? / place 2: size=1 cur=0 bu=65437 bw=0 t=100 w=00000000
looks 2 0 1 / none
looks 0 1 2@1 2 / 2
looks 2@3 / 0
";
