//! Summaries of traces, worked by hand, and lines that are of no trace.

use crate::tests::play::{Host, leaves, leaves_of, left};
use std::test::Fail;

/// Traces with their summaries.
static SUMMARIES: [(&str, &str); 7] = [
    (
        "",
        "lines 0\naccepted 0\nrefused 0\npeak 0\nstops 0\ngoes 0\n\
        unwritable 0\npending 0\nsuccess 0\nfailed 0\ncancelled 0\nstatus 0: ",
    ),
    (
        "id 0 t=400 w=00000000\nid 1 t=496 w=00000001 -\nn 2 t=496 w=00000001\nyes t=96 w=00000000 + 0:ok\n",
        "lines 4\naccepted 4\nrefused 0\npeak 496 at line 2\nstops 1\ngoes 1\n\
        unwritable 2 from line 2\npending 96\nsuccess 1\nfailed 0\ncancelled 0\nstatus 0: ",
    ),
    (
        "id 0 t=496 w=00000001 -\nn 1 t=496 w=00000001\nid 1 t=596 w=00000001\n!9 t=596 w=00000001\n\
        n 1 t=100 w=00000001 0:f7\nn 1 t=0 w=00000001 1:f7\n!4 t=0 w=00000001\n",
        "lines 7\naccepted 5\nrefused 2 !4:1 !9:1\npeak 596 at line 3\nstops 1\ngoes 0\n\
        unwritable 7 from line 1\npending 0\nsuccess 0\nfailed 2\ncancelled 0\nstatus 0: ",
    ),
    (
        "lane 0\nadd t=120 w=00000001 -\n!6 t=120 w=00000001\nend quiet owed=120\n",
        "lines 4\naccepted 1\nrefused 1 !6:1\npeak 120 at line 2\nstops 1\ngoes 0\n\
        unwritable 2 from line 2\npending 120\nsuccess 0\nfailed 0\ncancelled 0\nstatus 0: ",
    ),
    // looks and gatherings are no commands, and a bit of the user stops writers too
    (
        "g 3 5 t=296 w=00000000\nsize=1 cur=2 bu=300 bw=0 t=101 w=00000000\nyes t=500 w=00000001 0:x\n\
        no t=500 w=00000001\nok t=500 w=80000000\nn 2 t=100 w=00000000 + 1:ok 2:f4294967295 3:x\ng t=100 w=00000000",
        "lines 7\naccepted 4\nrefused 0\npeak 500 at line 3\nstops 0\ngoes 1\n\
        unwritable 3 from line 3\npending 100\nsuccess 1\nfailed 1\ncancelled 2\nstatus 0: ",
    ),
    // of two stretches of one length the first is told, and of two peaks of one height
    (
        "ok t=1 w=00000001\nok t=2 w=00000000\nok t=2 w=00abcdef\n",
        "lines 3\naccepted 3\nrefused 0\npeak 2 at line 2\nstops 0\ngoes 0\n\
        unwritable 1 from line 1\npending 2\nsuccess 0\nfailed 0\ncancelled 0\nstatus 0: ",
    ),
    (
        "lane 0\nlane 1\nbit t=0 w=00000002 -\n!1 t=0 w=00000002\n!11 t=0 w=00000002\n!1 t=0 w=00000002\nend quiet owed=0\n",
        "lines 7\naccepted 1\nrefused 3 !1:2 !11:1\npeak 0 at line 1\nstops 1\ngoes 0\n\
        unwritable 4 from line 3\npending 0\nsuccess 0\nfailed 0\ncancelled 0\nstatus 0: ",
    ),
];

#[test]
fn summaries_hold(rt: HostRuntime) -> Result<(), Fail> {
    for &(trace, wanted) in &SUMMARIES {
        leaves(&rt, "ob_tool summary", trace, wanted)?;
    }
    Ok(())
}

/// Lines that are of no trace, parted by bars. The first is empty.
static OF_NO_TRACE: &str = "\
|b 304|id t=1 w=00000000|id 0 t=4294967296 w=00000000|id 0 t=1 w=0000000|id 0 t=1 w=000000000|id 0 t=1 w=0000000g\
|id 0 t=1 w=0000000A|id 0 t=1|id 0 w=00000000 t=1|id 0 t=1 w=00000000 *|id 0 t=1 w=00000000 - +|id 0 t=1 w=00000000 0\
|id 0 t=1 w=00000000 0:no|id 0 t=1 w=00000000 x:ok|id 0 t=1 w=00000000 0:f|id 0 t=1 w=00000000 0:ok +\
|!0 t=1 w=00000000|!12 t=1 w=00000000|! t=1 w=00000000|lane|lane x|lane 1 0|end quiet|end busy owed=1\
| id 0 t=1 w=00000000|id 0 t=1 w=00000000 |yes  t=1 w=00000000|yes 1 t=1 w=00000000|size=1 cur=2 bu=3 t=1 w=00000000\
|size=x cur=2 bu=3 bw=4 t=1 w=00000000|g x t=1 w=00000000|add 1 t=1 w=00000000|id 0 t=1 w=00000000\r";

/// The line before them is counted and told all the same, and the one after them is not.
static ENDED: &str = "lines 1\naccepted 1\nrefused 0\npeak 7 at line 1\nstops 0\ngoes 0\n\
unwritable 0\npending 7\nsuccess 0\nfailed 0\ncancelled 0\nstatus 2: line 2: fault 8, a line of no trace\n";

#[test]
fn a_line_of_no_trace_ends_it(rt: HostRuntime) -> Result<(), Fail> {
    for line in OF_NO_TRACE.split('|') {
        let trace = format!(in rt.alloc(); "id 0 t=7 w=00000000\n{line}\nid 1 t=8 w=00000000\n");
        leaves_of(&rt, "ob_tool summary", trace, ENDED)?;
    }
    Ok(())
}

/// If the first line is of no trace, nothing is written. A trace of no lines is summed up all the same.
#[test]
fn sums_up_nothing_of_no_trace(rt: HostRuntime) -> Result<(), Fail> {
    let end = "status 2: line 1: fault 8, a line of no trace\n";
    for trace in ["b 304\n", "\n", "writes 1\nid 0 t=97 w=00000000\n"] {
        leaves(&rt, "ob_tool summary", trace, end)?;
    }
    Ok(())
}

/// Whether what the program wrote for a story is a trace, of as many lines.
pub fn is_traced<H: Host>(rt: &H, trace: &str) -> Result<(), Fail> {
    let found = left(rt, "ob_tool summary", &mut trace.as_bytes())?;
    let begin = format!(in rt.alloc(); "lines {}\n", trace.lines().count())?;
    assert!(rt;
        found.starts_with(begin.as_str()) && found.ends_with("status 0: "),
        "{trace}: {found}"
    );
    Ok(())
}
