/// Turns that lanes are given, in the lines and the traces of `ob_tool core`.
pub static CORE: &str = "
# a mark set with the add that passes high, and cleared with the subtract that comes below low
$ core --low 50 --high 100
lane 200 0 / lane 0
lane 200 0 / lane 1
c 1 80 / add t=80 w=00000000
c 0 30 / add t=110 w=00000001 -
d 1 / sub t=30 w=00000000 +
k 1 / !6 t=30 w=00000000
k 0 / !6 t=30 w=00000000
/ end quiet owed=30

# a mark that is clear below low stays so until nothing is owed
$ core --low 50 --high 100
lane 200 0 / lane 0
lane 200 0 / lane 1
c 1 80 / add t=80 w=00000000
c 0 30 / add t=110 w=00000001 -
d 1 / sub t=30 w=00000000 +
k 1 / !6 t=30 w=00000000
k 0 / !6 t=30 w=00000000
d 0 / sub t=0 w=00000000
k 0 / !6 t=0 w=00000000
/ end quiet owed=0

# a mark set above high stays so, though another lane came below low before
$ core --low 50 --high 100
lane 200 0 / lane 0
lane 200 0 / lane 1
c 1 30 / add t=30 w=00000000
d 1 / sub t=0 w=00000000
c 0 120 / add t=120 w=00000001 -
k 0 / !6 t=120 w=00000001
k 1 / !6 t=120 w=00000001
/ end quiet owed=120

# refused asks of the core
$ core --low 50 --high 100
lane 10 2 / lane 0
lane 20 0 / lane 1
c 0 11 / !2 t=0 w=00000000
k 0 / !6 t=0 w=00000000
d 0 / !4 t=0 w=00000000
c 0 5 / add t=5 w=00000000
c 0 11 / !3 t=5 w=00000000
c 9 1 / !1 t=5 w=00000000
u 0 1 0 / bit t=5 w=00000002 -
u 1 1 0 / !5 t=5 w=00000002
u 0 0 0 / !5 t=5 w=00000002
w 1 / word t=5 w=00000002
t 1 / total t=5 w=00000002
c 1 0 / none t=5 w=00000002
d 1 / none t=5 w=00000002
/ end quiet owed=5

# a script that ends while a lane owes; a bit that is cleared
$ core --low 50 --high 100
lane 200 2147483648 / lane 0
u 0 31 0 / bit t=0 w=80000000 -
u 0 31 1 / bit t=0 w=00000000 +
c 0 101 / add t=101 w=00000001 -
/ end quiet owed=101

# no line
$ core --low 50 --high 100

# a lane that has no turn
$ core --low 50 --high 100
lane 7 6 / lane 0
/ end quiet owed=0

# the high mark if none is given: 65536 raises nothing, and 65537 does
$ core
lane 99999 0 / lane 0
c 0 65536 / add t=65536 w=00000000
d 0 / sub t=0 w=00000000
k 0 / !6 t=0 w=00000000
c 0 65537 / add t=65537 w=00000001 -
k 0 / !6 t=65537 w=00000001
d 0 / sub t=0 w=00000000 +
k 0 / !6 t=0 w=00000000
/ end quiet owed=0

# a lane that has just set the mark refuses what it is asked as any other
$ core --low 50 --high 100
lane 200 0 / lane 0
c 0 101 / add t=101 w=00000001 -
u 0 32 1 / !5 t=101 w=00000001
u 0 32 1 / !5 t=101 w=00000001
/ end quiet owed=101

# a charge of 0 is owed, between two user bits
$ core --low 50 --high 100
lane 10 2147483650 / lane 0
c 0 0 / none t=0 w=00000000
c 0 0 / !3 t=0 w=00000000
u 0 31 0 / bit t=0 w=80000000 -
u 0 1 0 / bit t=0 w=80000002
u 0 31 1 / bit t=0 w=00000002
u 0 1 1 / bit t=0 w=00000000 +
d 0 / none t=0 w=00000000
d 0 / !4 t=0 w=00000000
/ end quiet owed=0
";
