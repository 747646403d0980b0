//! Stories of `ob_stories`, and some that the program alone can play: each is a script with its trace, or with a fault.

use crate::tests::play::{Host, leaves};
use crate::tests::summaries::is_traced;
use ob_stories::{CORE, DRIVES, FULL, RUN};
use std::alloc::{AllocError, Global};
use std::test::Fail;

/// Scripts with a faulty line: the lines before it are carried out and traced, and those behind it are not read.
static FAULTY: &str = "
# a missing number
$ run
b 1 / id 0 t=97 w=00000000
b / line 2: fault 4
b 1 /

# a lane after another line
$ core
lane 9 0 / lane 0
w 0 / word t=0 w=00000000
lane 9 0 / line 3: fault 7
w 0 /

# a bit held twice
$ core
lane 9 2 / lane 0
lane 9 4 / lane 1
lane 9 6 / line 3: fault 7

# bit 0 in a mask
$ core
lane 9 3 / line 1: fault 7

# rooms that add up to more than 4294967295
$ core
lane 4294967295 0 / lane 0
lane 0 0 / lane 1
lane 1 0 / line 3: fault 7

# a first line that is no lane
$ core
k 0 / line 1: fault 7
lane 9 0 /

# marks lowered while open, and then a low mark above the high one
$ run --low 200 --high 400
b 304 / id 0 t=400 w=00000000
m 0 100 / ok t=400 w=00000000
? / size=0 cur=0 bu=0 bw=0 t=400 w=00000000
b 0 / id 1 t=496 w=00000001 -
m 5 4 / line 5: fault 7
b 0 /

# a low mark above the high one drives nothing
$ drive
b 0 1 1
m 0 5 4 / line 2: fault 7

# a faulty line drives nothing: all lines are read before anything is done
$ drive
b 0 1 1
f 0
turns 1
turns 1 / line 4: fault 7
";

/// Adds a line, unless it is empty.
fn push_line(text: &mut String, line: &str) -> Result<(), AllocError> {
    if line.trim().is_empty() {
        return Ok(());
    }
    text.push_str(line.trim())?;
    text.push('\n')
}

/// What the lines of a story ask. A line behind a colon is asked of the libraries alone.
fn script_of(alloc: Global, lines: &str) -> Result<String, AllocError> {
    let mut script = String::new(alloc);
    for line in lines.lines() {
        if line.starts_with(':') {
            continue;
        }
        let (asked, _) = line.split_once('/').unwrap_or((line, ""));
        push_line(&mut script, asked)?;
    }
    Ok(script)
}

/// What is left of a story. A report has several lines, parted by commas, and a fault is the last answer.
fn left_of(alloc: Global, lines: &str) -> Result<String, AllocError> {
    let mut left = String::new(alloc);
    let mut status = 0;
    for line in lines.lines() {
        if line.starts_with(':') {
            continue;
        }
        let (_, answer) = line.split_once('/').unwrap_or((line, ""));
        if let Some((place, _)) = answer.split_once(": fault ") {
            status = if place == " drive" { 5 } else { 2 };
            write!(left, "status {status}: ")?;
        }
        for part in answer.split(',') {
            push_line(&mut left, part)?;
        }
    }
    if status == 0 {
        left.push_str("status 0: ")?;
    }
    Ok(left)
}

/// Runs the program on a story, whose last line may lack the byte that ends it, and compares all that it leaves. What
/// `run` and `core` write without a fault is a trace.
fn holds<H: Host>(rt: &H, story: &str) -> Result<(), Fail> {
    let (_, story) = story.split_once("\n$ ").ok_or("no command line")?;
    let (command, lines) = story.split_once('\n').unwrap_or((story, ""));
    let words = format!(in rt.alloc(); "ob_tool {command}")?;
    let script = script_of(rt.alloc(), lines)?;
    let left = left_of(rt.alloc(), lines)?;
    leaves(rt, &words, &script, &left)?;
    leaves(rt, &words, script.trim_end(), &left)?;
    match left.strip_suffix("status 0: ") {
        Some(trace) if !command.starts_with("drive") => is_traced(rt, trace),
        _ => Ok(()),
    }
}

#[test]
fn stories_hold(rt: HostRuntime) -> Result<(), Fail> {
    // one text, since an array of texts as long as these costs the proof far more
    let stories = format!(in rt.alloc(); "{RUN}{FULL}{CORE}{DRIVES}{FAULTY}")?;
    for story in stories.split('#').skip(1) {
        holds(&rt, story)?;
    }
    Ok(())
}
