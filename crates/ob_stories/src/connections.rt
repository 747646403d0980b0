/// What a server does with a connection whose socket takes a given number of bytes at a time (`takes`): it responds
/// with bytes of one value, writes a message that no flush follows, sends, gives up, renews its buffer, or spends
/// writes. Each line's answer says whether that went well, what the server was last told of reading, whether more may
/// be written, how many bytes were sent and promises settled, the pending bytes, how many more make the buffer
/// unwritable, and how many writes are left.
pub static CONNECTIONS: &str = "
# a slow peer is not read until it has caught up: the responses count 400 and 100 bytes, and leave in pieces of 100
$ connection --low 200 --high 400
takes 100 / ok, reading: untold, may write, sent=0 settled=0 t=0 bu=401 left=1048576
respond 1 304 / ok, reading: untold, may write, sent=100 settled=0 t=400 bu=1 left=1048575
respond 2 4 / ok, reading: no, may not write, sent=200 settled=0 t=500 bu=0 left=1048574
send / ok, reading: no, may not write, sent=300 settled=0 t=500 bu=0 left=1048574
send / ok, reading: yes, may write, sent=308 settled=2 t=0 bu=401 left=1048574
send / ok, reading: yes, may write, sent=308 settled=2 t=0 bu=401 left=1048574
settled / 0:ok 1:ok
sent / 304 of 1 4 of 2

# a new buffer has room up to the high mark of Netty: 65440 bytes count 65536, and one byte more would be above it
$ connection
respond 0 65440 / ok, reading: untold, may write, sent=0 settled=0 t=65536 bu=1 left=1048575

# a connection that is given up fails what waits, also what is not flushed; without notice the peer stays unread
$ connection --low 200 --high 400
respond 1 304 / ok, reading: untold, may write, sent=0 settled=0 t=400 bu=1 left=1048575
respond 2 4 / ok, reading: no, may not write, sent=0 settled=0 t=500 bu=0 left=1048574
write 7 / ok, reading: no, may not write, sent=0 settled=0 t=604 bu=0 left=1048573
give-up 9 / ok, reading: no, may not write, sent=0 settled=3 t=0 bu=0 left=0
send / !4, reading: no, may not write, sent=0 settled=3 t=0 bu=0 left=0
settled / 0:f9 1:f9 2:f9
sent /

# a connection whose socket breaks is given up by the next send
$ connection --low 200 --high 400
takes 100 / ok, reading: untold, may write, sent=0 settled=0 t=0 bu=401 left=1048576
respond 1 304 / ok, reading: untold, may write, sent=100 settled=0 t=400 bu=1 left=1048575
breaks 5 / ok, reading: untold, may write, sent=100 settled=0 t=400 bu=1 left=1048575
send / ok, reading: untold, may write, sent=100 settled=1 t=0 bu=401 left=0
send / !4, reading: untold, may write, sent=100 settled=1 t=0 bu=401 left=0
settled / 0:f5

# a connection that breaks near the limit of writes is not renewed
$ connection
spend 1047577 / ok, reading: untold, may write, sent=0 settled=0 t=0 bu=65537 left=999
breaks 5 / ok, reading: untold, may write, sent=0 settled=0 t=0 bu=65537 left=999
renew / ok, reading: untold, may write, sent=0 settled=0 t=0 bu=65537 left=0

# a buffer near its limit of writes is renewed: with 999 left it waits for what is pending
$ connection
spend 1047576 / ok, reading: untold, may write, sent=0 settled=0 t=0 bu=65537 left=1000
renew / ok, reading: untold, may write, sent=0 settled=0 t=0 bu=65537 left=1000
respond 1 4 / ok, reading: untold, may write, sent=0 settled=0 t=100 bu=65437 left=999
renew / ok, reading: no, may write, sent=0 settled=0 t=100 bu=65437 left=999
takes 100 / ok, reading: no, may write, sent=0 settled=0 t=100 bu=65437 left=999
renew / ok, reading: yes, may write, sent=4 settled=1 t=0 bu=65537 left=1048576
settled / 1047576:ok
sent / 4 of 1
";
