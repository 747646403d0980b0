//! Drives whose writers heed the marks, as far as threads leave nothing open.

use crate::tests::play::{leaves, left};
use std::test::Fail;

/// How many messages of 10 bytes one writer writes, and flushes one by one.
const MESSAGES: usize = 200;

/// All of them are sent, seven bytes a call of the sink.
static REPORT: &str = "\
writes 200\nflushes 200\ncancels 0\nbits 0\nrefused 0\ntaken 2000\nsuccess 200\nfailed 0\ncancelled 0\nleft 0\n\
hand 0 00000000\nstatus 0: ";

/// The bytes of the line that tells the peak, or none that any drive comes to.
fn peak_of(told: &str) -> u64 {
    let (_, behind) = told.split_once("\npeak ").unwrap_or(("", ""));
    let (peak, _) = behind.split_once(' ').unwrap_or((behind, ""));
    peak.parse().unwrap_or(u64::MAX)
}

/// One writer stops at more than 400 pending bytes, since all that is pending then is flushed and will be sent. Each message
/// counts 106 bytes, so the peak is at most 506 whatever the schedule.
#[test]
fn a_writer_that_heeds_the_marks_stays_near_them(rt: HostRuntime) -> Result<(), Fail> {
    let pairs = "b 0 10 1\nf 0\n".repeat(rt.alloc(), MESSAGES)?;
    let script = format!(in rt.alloc(); "{pairs}then 7\n")?;
    let words = "ob_tool drive --low 200 --high 400 --heed --verbose";
    let left = left(&rt, words, &mut script.as_bytes())?;
    let found = (left.starts_with(REPORT), peak_of(&left) <= 506);
    assert_eq!(rt; found, (true, true), "{left}");
    Ok(())
}

/// Drives whose plans are carried out to the end although the writers are never told to go on: nothing is flushed; or the
/// sink takes nothing, and the transport ends.
static GOES_ON: [(&str, &str); 2] = [
    (
        "b 0 10 100\n",
        "writes 100\nflushes 0\ncancels 0\nbits 0\nrefused 0\ntaken 0\nsuccess 0\nfailed 0\ncancelled 0\nleft 100\n\
        hand 0 00000000\nstatus 0: ",
    ),
    (
        "b 0 10 5\nf 0\nb 0 10 5\nb 1 10 5\nthen 0\nturns 3\n",
        "writes 15\nflushes 1\ncancels 0\nbits 0\nrefused 0\ntaken 0\nsuccess 0\nfailed 0\ncancelled 0\nleft 15\n\
        hand 0 00000000\nstatus 0: ",
    ),
];

#[test]
fn goes_on_if_nothing_can_be_sent(rt: HostRuntime) -> Result<(), Fail> {
    for &(script, report) in &GOES_ON {
        leaves(
            &rt,
            "ob_tool drive --low 200 --high 400 --heed",
            script,
            report,
        )?;
    }
    Ok(())
}
