//! A reader and a writer that fail, a script that is too long, and lack of memory.

use crate::tests::doubles::Failing;
use crate::tests::play::{Host, ended, leaves_of};
use ob_cli::entry;
use std::io::ErrorKind;
use std::test::Fail;

static WORDS: [&str; 6] = ["ob_tool", "run", "--low", "200", "--high", "400"];

/// Failing without notice keeps the mark.
static SCRIPT: &str = "b 400\nf\nb 4\ncl 7\nfl 7 0\ncl 7\nb 1\n";

static TRACE: &str = "\
id 0 t=496 w=00000001 -\nn 1 t=496 w=00000001\nid 1 t=596 w=00000001\n!9 t=596 w=00000001\n\
n 1 t=100 w=00000001 0:f7\nn 1 t=0 w=00000001 1:f7\n!4 t=0 w=00000001\n";

/// More calls than any of these runs makes.
const MANY: u32 = 1000;

/// Runs the program while one byte comes or goes a call, and the one after *n* writes fails.
fn breaks<H: Host>(
    rt: &H,
    reader: Failing<&[u8]>,
    writes: u32,
    end: &str,
    written: &str,
) -> Result<(), Fail> {
    let (reads, failures) = (reader.calls, reader.failures);
    let mut reader = reader;
    let mut writer = Failing::new(Vec::new(rt.alloc()), writes);
    let found = ended(rt, &WORDS, &mut reader, &mut writer)?;
    assert_eq!(rt;
        (found.as_str(), writer.inner.as_slice()),
        (end, written.as_bytes()),
        "{reads} reads, {failures} failures, {writes} writes"
    );
    Ok(())
}

/// The script, whose pipe is broken for the call after *n*.
fn script(calls: u32) -> Failing<&'static [u8]> {
    Failing::new(SCRIPT.as_bytes(), calls)
}

/// The 33 bytes of the script come one a call, and then its end: each of these 34 calls may fail.
#[test]
fn tells_each_failed_read(rt: HostRuntime) -> Result<(), Fail> {
    for calls in 0..34 {
        breaks(&rt, script(calls), MANY, "status 3: read fault\n", "")?;
    }
    for calls in 34..38 {
        breaks(&rt, script(calls), MANY, "status 0: ", TRACE)?;
    }
    Ok(())
}

/// The bytes of the trace go out one a call, and then the writer is flushed: each of these calls may fail.
#[test]
fn tells_each_failed_write(rt: HostRuntime) -> Result<(), Fail> {
    let all = TRACE.len() as u32 + 1;
    for calls in 0..all {
        let written = TRACE.get(..calls as usize).unwrap_or(TRACE);
        breaks(&rt, script(MANY), calls, "status 3: write fault\n", written)?;
    }
    for calls in all..all + 3 {
        breaks(&rt, script(MANY), calls, "status 0: ", TRACE)?;
    }
    Ok(())
}

/// A status is answered if its text cannot be told.
#[test]
fn keeps_the_status_when_errors_fail(rt: HostRuntime) {
    let mut written: Vec<u8> = Vec::new(rt.alloc());
    let mut told = Failing::new(Vec::new(rt.alloc()), 0);
    let status = entry(&rt, &WORDS, &mut b"x\n".as_slice(), &mut written, &mut told);
    assert_eq!(rt; status, 2);
}

/// A script of 16777216 bytes is read, and its one line is too long; with one byte more the script is.
#[test]
fn counts_the_bytes_of_a_script(rt: HostRuntime) -> Result<(), Fail> {
    let most = "f".repeat(rt.alloc(), 16777216);
    leaves_of(&rt, "ob_tool run", most, "status 2: line 1: fault 6\n")?;
    let more = "f".repeat(rt.alloc(), 16777217);
    leaves_of(&rt, "ob_tool run", more, "status 3: script too long\n")
}

/// A read that is interrupted is tried again.
#[test]
fn reads_again_what_was_interrupted(rt: HostRuntime) -> Result<(), Fail> {
    for failures in [1, MANY] {
        let reader = Failing {
            failures,
            failure: ErrorKind::Interrupted,
            ..script(7)
        };
        breaks(&rt, reader, MANY, "status 0: ", TRACE)?;
    }
    Ok(())
}

/// With ample memory the whole trace is written. If an allocation fails, as `rt try --test --fail-alloc` has it,
/// the trace of the lines before is written, and lack of memory is reported.
#[test]
fn writes_whole_lines_when_memory_runs_out(rt: HostRuntime) {
    // both have their room beforehand, so that the program alone may want memory
    let (Ok(mut written), Ok(mut told)) = (
        Vec::with_capacity(rt.alloc(), 256),
        Vec::with_capacity(rt.alloc(), 256),
    ) else {
        return;
    };
    let status = entry(&rt, &WORDS, &mut SCRIPT.as_bytes(), &mut written, &mut told);
    assert_eq!(rt;
        (is_whole(status, &written), told.as_slice()),
        (true, told_with(status))
    );
}

/// Whether a run of this status wrote the whole trace, or whole lines of it if it had no memory.
fn is_whole(status: u8, written: &[u8]) -> bool {
    let trace = TRACE.as_bytes();
    match status {
        0 => written == trace,
        4 => (written.is_empty() || written.ends_with(b"\n")) && trace.starts_with(written),
        _ => false,
    }
}

fn told_with(status: u8) -> &'static [u8] {
    if status == 0 { b"" } else { b"no memory\n" }
}
