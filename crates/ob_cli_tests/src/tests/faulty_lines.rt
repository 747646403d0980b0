//! Faulty lines of each kind of script, and how long a line and how many lanes may be.

use crate::tests::play::{Host, leaves_of};
use std::alloc::{AllocError, Global};
use std::test::Fail;

/// Runs the program on a script around each faulty line, and compares all that it leaves. A row is the number of a
/// fault, and behind bars the lines of which it is the first: 1 no such word, 2 no number, 3 out of range, 4 too few
/// words, 5 too many words, 6 too long, 7 misplaced. `@` stands for the line in the script, and for the number in what
/// is left.
fn tells<H: Host>(rt: &H, words: &str, script: &str, left: &str, rows: &str) -> Result<(), Fail> {
    for row in rows.lines() {
        let (fault, lines) = row.split_once('|').unwrap_or((row, ""));
        let left = left.replace(rt.alloc(), '@', fault)?;
        let told = tells_each(rt, words, script, &left, lines);
        drop(left);
        told?;
    }
    Ok(())
}

/// Runs the program on a script around each line, and compares all that it leaves.
fn tells_each<H: Host>(
    rt: &H,
    words: &str,
    script: &str,
    left: &str,
    lines: &str,
) -> Result<(), Fail> {
    for line in lines.split('|') {
        leaves_of(rt, words, script.replace(rt.alloc(), '@', line), left)?;
    }
    Ok(())
}

/// Bad lines behind three good ones. The first is empty.
static OF_RUN: &str = "\
1||c|z|R 1|rcx 1|B 1| b 1
2|b |cl |b x|b +1|b -1|b 1\r|r x|o -1|rc |u 1 x|g 1 x|m x 1|m 1 -1
3|b 1048577|b 18446744073709551616|b 99999999999999999999999999999999|r 18446744073709551616|o 4294967296
3|rc 4294967296|rb 18446744073709551616|p 18446744073709551616|x 4294967296|fl 1 2|fl 4294967296 0|cl 4294967296
3|m 2147483648 0|m 0 2147483648|u 256 0|u 1 2|g 0 1|g 1 0|g 1025 1|g 1 2147483648|g 0 x
4|b|r|o|rc|rb|p|x|fl|fl 1|cl|u 1|g|g 1|m|m 1
5|b  1|b 1 |cl 7 |b x y|r 1 1|f 1|f |rm 0|x 0 0|fl 1 1 1|cl 1 1|? ?|g 1 1 1|m 1 2 3
7|m 5 4|m 2147483647 2147483646";

#[test]
fn faulty_lines_of_run(rt: HostRuntime) -> Result<(), Fail> {
    let rows = format!(in rt.alloc(); "{OF_RUN}\n6|{:z>201}", "")?;
    let script = "b 400\nf\nb 4\n@\nf\n";
    let left =
        "id 0 t=496 w=00000001 -\nn 1 t=496 w=00000001\nid 1 t=596 w=00000001\nstatus 2: line 4: fault @\n";
    tells(&rt, "ob_tool run --low 200 --high 400", script, left, &rows)
}

/// The first line is empty.
static OF_CORE: &str = "\
1||b 1|lanes 1 0
2|lane x 4294967296|u 0 255 x|t -1
3|lane 4294967296 x|c 0 4294967296|u 0 256 0|u 0 255 2
4|lane 1|lane x|c 0|u 0 1|w
5|k 0 |lane 1 0 0|d 0 0
7|lane 1 1|lane 9 1";

#[test]
fn faulty_lines_of_core(rt: HostRuntime) -> Result<(), Fail> {
    let script = "lane 9 0\n@\nw 0\n";
    let left = "lane 0\nstatus 2: line 2: fault @\n";
    tells(&rt, "ob_tool core", script, left, OF_CORE)
}

/// The first line is empty. Nothing is driven, so nothing is written.
static OF_DRIVE: &str = "\
1||rm 0|?|lane 1 0|takes 1
2|b x 1 0|u 0 x 2
3|b 64 1 1|b 0 1048577 1|b 0 1 0|b 0 1 1025|r 64 1|r 0 18446744073709551616|o 0 4294967296|o 64 x|f 64
3|x 0 4294967296|x 64 0|u 64 1 0|u 0 256 0|u 0 1 2|take 4294967296|fail 4294967296|then 4294967296
3|turns 0|turns 16777217|m 64 0 0|m 0 2147483648 0|m 0 0 2147483648
4|b 0 1|r 0|f|x 0|u 0 1|take|m 0 1
5|b 0 1 1 1|f 0 0|fail 1 1|m 0 1 2 3
7|then 1|turns 1|m 0 5 4";

#[test]
fn faulty_lines_of_drive(rt: HostRuntime) -> Result<(), Fail> {
    let script = "then 1\nturns 1\nb 63 1048576 1\n@\nf 64\n";
    let left = "status 2: line 4: fault @\n";
    tells(&rt, "ob_tool drive", script, left, OF_DRIVE)
}

/// 200 bytes of a line are few enough, and 201 are too many whatever the line is.
static WIDTHS: [(usize, &str); 2] = [
    (198, "id 0 t=97 w=00000000\nstatus 0: "),
    (199, "status 2: line 1: fault 6\n"),
];

#[test]
fn counts_the_bytes_of_a_line(rt: HostRuntime) -> Result<(), Fail> {
    for &(width, left) in &WIDTHS {
        leaves_of(&rt, "ob_tool run", padded(rt.alloc(), width), left)?;
    }
    Ok(())
}

/// A line that writes one byte, behind *n* bytes of its number.
fn padded(alloc: Global, width: usize) -> Result<String, AllocError> {
    format!(in alloc; "b {:0>1$}\n", 1, width)
}

/// 64 lanes are few enough, and one more is misplaced.
#[test]
fn counts_the_lanes_of_a_script(rt: HostRuntime) -> Result<(), Fail> {
    let left = left_of_lanes(rt.alloc())?;
    let told = leaves_of(
        &rt,
        "ob_tool core",
        "lane 1 0\n".repeat(rt.alloc(), 65),
        &left,
    );
    drop(left);
    told
}

fn left_of_lanes(alloc: Global) -> Result<String, AllocError> {
    let mut left = String::new(alloc);
    for number in 0..64u32 {
        writeln!(left, "lane {number}")?;
    }
    left.push_str("status 2: line 65: fault 7\n")?;
    Ok(left)
}
