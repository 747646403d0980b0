//! A drive script with a line of each word, as far as the report shows what was read.

use crate::tests::play::leaves;
use std::test::Fail;

/// Writer 3 alone has lines, and some of them the greatest numbers. It is refused the region, which is too long, an id
/// that was never told, and a bit that is none; the marks are told in `verbose`. The sink takes the first block and a
/// byte of the second, and then fails.
static SCRIPT: &str = "\
b 3 2 2\nf 3\ntake 3\nr 3 18446744073709551615\no 3 4294967295\nfail 9\nx 3 7\n\
then 0\nu 3 255 1\nturns 16777216\nu 3 1 0\nm 3 5 7\n";

static REPORT: &str = "\
writes 3\nflushes 1\ncancels 0\nbits 1\nrefused 3\ntaken 3\nsuccess 1\nfailed 1\ncancelled 0\nleft 1\nhand 0 00000000\n\
status 0: ";

#[test]
fn reads_each_line(rt: HostRuntime) -> Result<(), Fail> {
    leaves(&rt, "ob_tool drive", SCRIPT, REPORT)
}

/// Four bytes, flushed, and the report: they are sent, or stay with a sink that takes nothing.
static SENT: [(&str, &str); 2] = [
    (
        "b 0 4 1\nf 0\n",
        "writes 1\nflushes 1\ncancels 0\nbits 0\nrefused 0\ntaken 4\nsuccess 1\nfailed 0\ncancelled 0\nleft 0\n\
        hand 0 00000000\nstatus 0: ",
    ),
    (
        "b 0 4 1\nf 0\nthen 0\n",
        "writes 1\nflushes 1\ncancels 0\nbits 0\nrefused 0\ntaken 0\nsuccess 0\nfailed 0\ncancelled 0\nleft 1\n\
        hand 0 00000000\nstatus 0: ",
    ),
];

#[test]
fn reads_what_the_sink_takes(rt: HostRuntime) -> Result<(), Fail> {
    for &(script, report) in &SENT {
        leaves(&rt, "ob_tool drive", script, report)?;
    }
    Ok(())
}
